//! What a run is over, and its workers.

ghost use Rattle.std.specs.Prelude.{◌≡◌, length, IfOk};
ghost use Rattle.chaos_run.specs.Rounds.{AreIdle};

use chaos_core::Worker;
use envelope::quiet;
use net_eval::ReadLists;
use std::alloc::Global;
use table_box::table_groups;
use window_words::{Seated, SharedBoard};
use xt_model::{Design, Direction, NoMemory, Windows};

/// What the workers of a run work on, and the gate that each of them passes before it draws.
#[derive(Drop)]
pub(crate) struct Run<'a, G> {
    pub(crate) board: &'a SharedBoard,
    pub(crate) design: &'a Design,
    pub(crate) lists: &'a ReadLists,
    pub(crate) direction: Direction,
    pub(crate) gate: &'a G,
}

/// A worker at the board, by a pass of its own. While the worker works, the pass stands in a variable of `work`, and
/// there is none here.
#[derive(Drop)]
pub(crate) struct SeatedWorker<'a> {
    pub(crate) seated: Option<Seated<'a>>,
    pub(crate) worker: Worker,
}

/// The workers of a run, with room for the passes of all. Between two rounds all are idle.
#[derive(Drop)]
pub(crate) struct Workers<'a> {
    pub(crate) idle: Vec<Worker>,
    pub(crate) seated: Vec<SeatedWorker<'a>>,
}

impl<'a> Workers<'a> {
    /// This many idle workers. No round takes memory after this.
    pub(crate) fn new(alloc: Global, lists: &ReadLists, count: u32) -> Result<Workers<'a>, NoMemory>
        ensures idle { IfOk result (λ workers. AreIdle lists.now workers) }
        ensures count { IfOk result (λ workers. length workers.idle.items ≡ count) }
    {
        let seated = Vec::with_capacity(alloc, count as usize)?;
        let mut idle = Vec::with_capacity(alloc, count as usize)?;
        for _number in 0..count {
            idle.push(Worker::new(alloc, lists)?)?;
        }
        Ok(Workers { idle, seated })
    }
}

/// The room of a run: its workers, the windows of a look at its words and of the look before, two marks for each net
/// for these, and the groups of the design's tables. It serves a run on one board.
#[derive(Drop)]
pub struct RunRoom<'a> {
    pub(crate) workers: Workers<'a>,
    pub(crate) before: Windows,
    pub(crate) windows: Windows,
    pub(crate) unmoved: Vec<bool>,
    pub(crate) marks: Vec<bool>,
    pub(crate) groups: Vec<usize>,
}

impl<'a> RunRoom<'a> {
    ghost use Rattle.chaos_run.specs.Rounds.{IsRoomFor, workers_in};

    /// Room for `workers` workers, from 1 to 64 of them.
    pub fn new(
        alloc: Global,
        design: &Design,
        lists: &ReadLists,
        workers: u32,
    ) -> Result<RunRoom<'a>, NoMemory>
        ensures room { IfOk result (IsRoomFor design.now lists.now) }
        ensures count { IfOk result (λ room. workers_in room ≡ workers) }
    {
        let workers = Workers::new(alloc, lists, workers)?;
        let before = quiet(alloc, design)?;
        let windows = quiet(alloc, design)?;
        let unmoved = vec![in alloc; false; design.nets().len()]?;
        let marks = vec![in alloc; false; design.nets().len()]?;
        let groups = table_groups(alloc, design.tables())?;
        Ok(RunRoom {
            workers,
            before,
            windows,
            unmoved,
            marks,
            groups,
        })
    }
}
