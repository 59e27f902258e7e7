ghost use Rattle.std.specs.Prelude.{◌≡◌, ℕ, ◌*◌, ◌≤◌, length, IfOk};
ghost use Rattle.net_eval.specs.ReadLists.{reads_of};
ghost use Rattle.chaos_core.specs.Tasks.{idle, places_of, room_of, task_of};
ghost use Rattle.chaos_core.specs.Rounds.{HasRoom};

use net_eval::ReadLists;
use std::alloc::Global;
use std::marker::Model;
use xt_model::{NoMemory, Pair};

/// What a worker is at: it loads the words of the read list of a net, or publishes the windows of a net, of which
/// this many words are published.
#[derive(Clone, Copy, Debug)]
pub enum Stage {
    Idle,
    Loading(u32),
    Publishing(u32, Pair, u32),
    Finished,
}

/// What one step of a worker did: it drew a number, loaded a word or published one, or it is done.
#[derive(Clone, Copy, Debug, PartialEq, Eq)]
pub enum Moved {
    Drew(u64),
    Loaded(usize),
    Published(usize),
    Done,
}

/// One of those who evaluate the nets of a design over shared words, with room for the words of the longest read
/// list, and for each net a number: its place in the read list that is evaluated, where it is read. Contracts see
/// what it is at, for how many numbers it has room, and for how many nets it has a place, and not whether it has read a
/// 0 ahead of an evaluation.
#[derive(Debug, Drop)]
pub struct Worker {
    pub(crate) stage: Stage,
    pub(crate) loaded: Vec<u64>,
    pub(crate) places: Vec<u32>,
    pub(crate) has_read_zero: bool,
}

impl Model for Worker {
    ghost use Rattle.std.specs.Prelude.{length, vec_capacity};
    ghost use Rattle.chaos_core.specs.Tasks.{WorkerState, task_at};

    ghost Value = { WorkerState };

    ghost view = { λ w. record {
      task = task_at w.stage w.loaded.items;
      room = vec_capacity w.loaded;
      places = length w.places.items;
    } };
}

impl Worker {
    /// An idle worker for these read lists.
    pub fn new(alloc: Global, lists: &ReadLists) -> Result<Worker, NoMemory>
        ensures idle { IfOk result (λ worker. task_of worker ≡ idle) }
        ensures room { IfOk result (λ worker. (net : ℕ)
            → 8 * length (reads_of lists.now net) ≤ room_of worker) }
        ensures rooms { IfOk result (HasRoom lists.now) }
    {
        let Some(room) = lists.longest().checked_mul(8) else {
            return Err(NoMemory);
        };
        let loaded = Vec::with_capacity(alloc, room)?;
        let places = vec![in alloc; 0; lists.count()]?;
        Ok(Worker {
            stage: Stage::Idle,
            loaded,
            places,
            has_read_zero: false,
        })
    }

    /// Makes it idle again.
    pub fn reset(&mut self)
        ensures idle { task_of self.new ≡ idle }
        ensures room { room_of self.new ≡ room_of self.old }
        ensures places { places_of self.new ≡ places_of self.old }
    {
        self.stage = Stage::Idle;
        self.loaded.clear();
    }
}
