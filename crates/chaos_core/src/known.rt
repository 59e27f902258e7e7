//! What a run knows of nets that it need not evaluate, and a round with the look after it.

ghost use Rattle.std.specs.Prelude.{◌≡◌, ◌↔◌, ℕ, ◌<◌, ◌≤◌, List, length, IfOk, IsTrue};
ghost use Rattle.std.specs.List.{All};
ghost use Rattle.xt_model.specs.declared.edge.Edge.{Edge};
ghost use Rattle.xt_model.specs.Assign.{assigned};
ghost use Rattle.xt_model.specs.Levels.{IsOrder};
ghost use Rattle.xt_model.specs.Limits.{most_workers};
ghost use Rattle.xt_meaning.specs.Barrier.{IsFittingStart, IsWithinEnvelope};
ghost use Rattle.xt_meaning.specs.Fixpoint.{IsWindows};
ghost use Rattle.xt_meaning.specs.Operator.{step};
ghost use Rattle.xt_meaning.specs.Words.{numbers_of};
ghost use Rattle.table_box.specs.Groups.{AreGroups};
ghost use Rattle.net_eval.specs.ReadLists.{AreReadLists};
ghost use Rattle.chaos_core.specs.Knowing.{IsKnown};
ghost use Rattle.chaos_core.specs.Memories.{AreKept};
ghost use Rattle.chaos_core.specs.Rounds.{HasRoom, IsRound, pause_at};

use crate::alone::round_alone;
use crate::listed::{NetLists, listed};
use crate::look::closed_by;
use crate::marks::TurnMarks;
use crate::memory::MemoryBoard;
use crate::round::round;
use crate::unmoved::closed_after;
use crate::worker::Worker;
use drawn_numbers::Source;
use net_eval::{ReadLists, closed};
use std::alloc::Global;
use xt_model::{Design, Direction, NoMemory, Windows};

/// What a run passes over nets by. One worker: by the turns in which nets moved and answers turned, and the nets whose
/// coupling list has a net. Several, in their looks alone: by windows before a round, a mark for each net that it did
/// not move, and one for each net of which it did not move what decides it.
#[derive(Drop)]
pub(crate) enum Known {
    Turns(TurnMarks, NetLists),
    Moves(Windows, Vec<bool>, Vec<bool>),
}

impl Known {
    /// Before the first round of this many workers on a board.
    pub fn new(
        alloc: Global,
        board: &MemoryBoard,
        design: &Design,
        workers: u32,
    ) -> Result<Known, NoMemory>
        requires { board.now.setting.design ≡ design.now }
        ensures { IfOk result (IsKnown design.now workers board.now.words) }
    {
        if workers == 1 {
            let marks = TurnMarks::new(alloc, design.nets().len())?;
            let lists = listed(alloc, design)?;
            return Ok(Known::Turns(marks, lists));
        }
        let before = board.windows(alloc)?;
        let unmoved = vec![in alloc; false; design.nets().len()]?;
        let marks = vec![in alloc; false; design.nets().len()]?;
        Ok(Known::Moves(before, unmoved, marks))
    }

    /// Whether the words are closed, whose windows are given. What one worker finds steady it knows in its first round.
    pub fn look(&mut self, design: &Design, groups: &[usize], windows: &Windows) -> bool
        requires groups { AreGroups design.now.tables groups.now }
        requires windows { IsWindows design.now windows.now }
        requires within { IsWithinEnvelope design.now windows.now }
        requires known { (workers : ℕ) × IsKnown design.now workers (numbers_of windows.now) self.old }
        ensures closed { IsTrue result
            ↔ ((net : ℕ) (e : Edge) → step design.now windows.now net e ≡ assigned windows.now net e) }
        ensures known { (workers : ℕ) → IsKnown design.now workers (numbers_of windows.now) self.old
            → IsKnown design.now workers (numbers_of windows.now) self.new }
    {
        match self {
            Known::Turns(marks, _) => closed_by(design, groups, marks, windows),
            Known::Moves(_, _, _) => closed(design, windows),
        }
    }

    /// Makes one round, brings the windows whose numbers are in the words with them, and answers whether the words are
    /// closed. Takes no memory.
    pub fn round(
        &mut self,
        board: &mut MemoryBoard,
        workers: &mut [Worker],
        design: &Design,
        groups: &[usize],
        lists: &ReadLists,
        direction: Direction,
        source: &mut Source,
        windows: &mut Windows,
    ) -> bool
        requires groups { AreGroups design.now.tables groups.now }
        requires design { board.old.setting.design ≡ design.now }
        requires direction { board.old.setting.way ≡ direction }
        requires kept { AreKept board.old.setting board.old.words }
        requires lists { AreReadLists design.now lists.now }
        requires some { 0 < length workers.old }
        requires few { length workers.old ≤ most_workers }
        requires rooms { All (HasRoom lists.now) workers.old }
        requires windows { length windows.old ≡ length design.now.nets }
        requires numbers { numbers_of windows.old ≡ board.old.words }
        requires known { IsKnown design.now (length workers.old) board.old.words self.old }
        ensures setting { board.new.setting ≡ board.old.setting }
        ensures count { length workers.new ≡ length workers.old }
        ensures rooms { All (HasRoom lists.now) workers.new }
        ensures round { (order : List ℕ) → IsOrder design.now.nets order
            → IsRound board.old.setting lists.now order (length workers.old)
            (pause_at source.old.state board.old) (pause_at source.new.state board.new) }
        ensures numbers { numbers_of windows.new ≡ board.new.words }
        ensures fits { IsFittingStart direction design.now windows.new }
        ensures closed { IsTrue result
            ↔ ((net : ℕ) (e : Edge) → step design.now windows.new net e ≡ assigned windows.new net e) }
        ensures known { IsKnown design.now (length workers.old) board.new.words self.new }
    {
        match self {
            Known::Turns(marks, listed) => {
                round_alone(
                    board, windows, design, groups, lists, listed, direction, source, marks,
                );
                closed_by(design, groups, marks, windows)
            }
            Known::Moves(before, unmoved, marks) => {
                board.load_into(before);
                round(board, workers, design, lists, direction, source);
                board.load_into(windows);
                closed_after(
                    design,
                    groups,
                    unmoved.as_mut_slice(),
                    marks.as_mut_slice(),
                    before,
                    windows,
                )
            }
        }
    }
}
