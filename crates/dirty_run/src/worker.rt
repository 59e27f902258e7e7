//! A worker of a run by marks, and what it works on.

ghost use Rattle.std.specs.Prelude.{◌≡◌, ◌≤◌, length, IfOk};
ghost use Rattle.dirty_run.specs.Visits.{HasRoom};
ghost use Rattle.dirty_run.specs.Rounds.{AreIdle};

use crate::notes::{Before, Notes};
use dirty_words::{DirtyBoard, DirtyPass, Readers};
use envelope::quiet;
use net_eval::ReadLists;
use std::alloc::Global;
use table_box::table_groups;
use xt_model::{Design, Direction, NoMemory, Windows};

/// What the workers of a run work on, with groups of the design's tables, and the gate that each of them passes before
/// it draws.
#[derive(Drop)]
pub(crate) struct Run<'a, G> {
    pub(crate) board: &'a DirtyBoard,
    pub(crate) design: &'a Design,
    pub(crate) groups: &'a [usize],
    pub(crate) lists: &'a ReadLists,
    pub(crate) readers: &'a Readers,
    pub(crate) direction: Direction,
    pub(crate) gate: &'a G,
}

/// One of those who evaluate nets over words with marks: room for the words of the longest read list, what it notes of
/// its evaluations, and for each net a number, its place in the read list that is evaluated, where it is read.
#[derive(Drop)]
pub(crate) struct Worker {
    pub(crate) loaded: Vec<u64>,
    pub(crate) notes: Notes,
    pub(crate) places: Vec<u32>,
}

impl Worker {
    /// One of this many workers for these read lists.
    pub(crate) fn new(
        alloc: Global,
        design: &Design,
        lists: &ReadLists,
        workers: u32,
    ) -> Result<Worker, NoMemory>
        ensures room { IfOk result (HasRoom design.now lists.now) }
    {
        let Some(room) = lists.longest().checked_mul(8) else {
            return Err(NoMemory);
        };
        let loaded = vec![in alloc; 0; room]?;
        let places = vec![in alloc; 0; lists.count()]?;
        let notes = Notes::new(alloc, design, workers);
        Ok(Worker {
            loaded,
            notes,
            places,
        })
    }
}

/// A worker with a pass of its own.
#[derive(Drop)]
pub(crate) struct SeatedWorker {
    pub(crate) pass: DirtyPass,
    pub(crate) worker: Worker,
}

/// The workers of a run, with room for the passes of all, and what they noted in the round before. Between two rounds
/// all are idle.
#[derive(Drop)]
pub(crate) struct Workers {
    pub(crate) idle: Vec<Worker>,
    pub(crate) seated: Vec<SeatedWorker>,
    pub(crate) before: Before,
}

impl Workers {
    /// `count` idle workers. No round takes memory after this.
    pub(crate) fn new(
        alloc: Global,
        design: &Design,
        lists: &ReadLists,
        count: u32,
    ) -> Result<Workers, NoMemory>
        ensures idle { IfOk result (AreIdle design.now lists.now) }
        ensures count { IfOk result (λ workers. length workers.idle.items ≡ count) }
    {
        let before = Before::new(alloc, design, lists, count)?;
        let seated = Vec::with_capacity(alloc, count as usize)?;
        let mut idle = Vec::with_capacity(alloc, count as usize)?;
        for _number in 0..count {
            idle.push(Worker::new(alloc, design, lists, count)?)?;
        }
        Ok(Workers {
            idle,
            seated,
            before,
        })
    }
}

/// The room of a run: its workers, groups of the design's tables, and the words and the windows in which it ends. It
/// serves a run on one board. For what its workers note of two rounds it reserves some 2,400 bytes for each net of the
/// design, whatever their number, where it can; they write to as much of these as they note.
#[derive(Drop)]
pub struct DirtyRoom {
    pub(crate) groups: Vec<usize>,
    pub(crate) workers: Workers,
    pub(crate) windows: Windows,
    pub(crate) words: Vec<u64>,
}

impl DirtyRoom {
    ghost use Rattle.dirty_run.specs.Rounds.{IsRoomFor, workers_in};

    /// Room for `workers` workers, from 1 to 64 of them.
    pub fn new(
        alloc: Global,
        design: &Design,
        lists: &ReadLists,
        workers: u32,
    ) -> Result<DirtyRoom, NoMemory>
        ensures room { IfOk result (IsRoomFor design.now lists.now) }
        ensures count { IfOk result (λ room. workers_in room ≡ workers) }
    {
        let workers = Workers::new(alloc, design, lists, workers)?;
        let windows = quiet(alloc, design)?;
        let words = Vec::with_capacity(alloc, 8 * design.nets().len())?;
        let groups = table_groups(alloc, design.tables())?;
        Ok(DirtyRoom {
            groups,
            workers,
            windows,
            words,
        })
    }
}
