//! What a run of one worker knows of its nets: in which turn each last moved, in which an overlap answer at its
//! couplings last turned, and in which it was last evaluated.

ghost use Rattle.std.specs.Prelude.{◌≡◌, ◌<◌, ◌≤◌, length, replicate, slice_index, slice_set, IsTrue, IfOk};
ghost use Rattle.std.specs.List.{All};
ghost use Rattle.chaos_core.specs.TurnMarks.{IsOld, IsSettledNet};

use crate::ahead::reads_zero;
use std::alloc::Global;
use std::marker::Model;
use xt_model::{Design, Net, NetId, NoMemory};

/// The number of the last turn, and for each net the three turns; 0 for none. Contracts do not see whether a 0 was read
/// ahead of an evaluation.
#[derive(Drop)]
pub(crate) struct TurnMarks {
    turn: u32,
    moved: Vec<u32>,
    answers: Vec<u32>,
    seen: Vec<u32>,
    has_read_zero: bool,
}

impl Model for TurnMarks {
    ghost use Rattle.chaos_core.specs.TurnMarks.{Marks};

    ghost Value = { Marks };

    ghost view = { λ m. record {
      turn = m.turn;
      moved = m.moved.items;
      answers = m.answers.items;
      seen = m.seen.items;
    } };
}

impl TurnMarks {
    /// Marks for this many nets, before the first turn.
    pub fn new(alloc: Global, nets: usize) -> Result<TurnMarks, NoMemory>
        ensures { IfOk result (λ marks. marks ≡ record {
          turn = 0;
          moved = replicate nets 0;
          answers = replicate nets 0;
          seen = replicate nets 0;
        }) }
    {
        let moved = vec![in alloc; 0_u32; nets]?;
        let answers = vec![in alloc; 0_u32; nets]?;
        let seen = vec![in alloc; 0_u32; nets]?;
        Ok(TurnMarks {
            turn: 0,
            moved,
            answers,
            seen,
            has_read_zero: false,
        })
    }

    /// Begins the next turn. Past the greatest number the turns have one number, so that no net is settled by it.
    pub fn begin_turn(&mut self)
        ensures later { self.old.turn ≤ self.new.turn }
        ensures rest { self.new ≡ record self.old { turn = self.new.turn } }
    {
        self.turn = self.turn.saturating_add(1);
    }

    /// Reads ahead what an evaluation of a net goes over, as a worker in a thread does.
    pub fn read_ahead(&mut self, design: &Design, net: NetId)
        ensures { self.new ≡ self.old }
    {
        self.has_read_zero = reads_zero(design.nets(), net);
    }

    /// Notes that a net is evaluated in this turn.
    pub fn note_look(&mut self, net: NetId)
        requires { net.0 < length self.old.seen }
        ensures { self.new ≡ record self.old { seen = slice_set self.old.seen net.0 self.old.turn } }
    {
        self.seen[net.0 as usize] = self.turn;
    }

    /// Notes that a net moves in this turn.
    pub fn note_move(&mut self, net: NetId)
        requires { net.0 < length self.old.moved }
        ensures { self.new ≡ record self.old { moved = slice_set self.old.moved net.0 self.old.turn } }
    {
        self.moved[net.0 as usize] = self.turn;
    }

    /// Notes that an overlap answer at the couplings of a net turns in this turn.
    pub fn note_answer(&mut self, net: NetId)
        requires { net.0 < length self.old.answers }
        ensures { self.new ≡ record self.old { answers = slice_set self.old.answers net.0 self.old.turn } }
    {
        self.answers[net.0 as usize] = self.turn;
    }

    /// Whether an overlap answer at the couplings of a net is noted for this turn.
    pub fn has_answer(&self, net: NetId) -> bool
        requires { net.0 < length self.now.answers }
        ensures { IsTrue result → slice_index self.now.answers net.0 ≡ self.now.turn }
    {
        self.answers[net.0 as usize] == self.turn
    }

    /// Whether a net last moved before a turn, and the answers at its couplings last turned before it.
    fn is_old(&self, turn: u32, net: NetId) -> bool
        requires moved { net.0 < length self.now.moved }
        requires answers { net.0 < length self.now.answers }
        ensures { IsTrue result → IsOld self.now turn net.0 }
    {
        self.moved[net.0 as usize] < turn && self.answers[net.0 as usize] < turn
    }

    /// Whether nothing that decides a net has changed since it was evaluated.
    pub fn is_settled(&self, number: NetId, net: &Net) -> bool
        requires seen { number.0 < length self.now.seen }
        requires answers { number.0 < length self.now.answers }
        requires inputs { All (λ arc. arc.from.0 < length self.now.moved) net.now.arcs }
        requires inputs_answers { All (λ arc. arc.from.0 < length self.now.answers) net.now.arcs }
        ensures { IsTrue result → IsSettledNet self.now number.0 net.now }
    {
        let seen = self.seen[number.0 as usize];
        if self.answers[number.0 as usize] >= seen {
            return false;
        }
        for arc in net.arcs.as_slice() {
            if !self.is_old(seen, arc.from) {
                return false;
            }
        }
        true
    }
}
