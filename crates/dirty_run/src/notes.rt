//! What a worker notes of its evaluations in a round, and what was noted in the round before.

ghost use Rattle.std.specs.Prelude.{◌≡◌, ◌<◌, List, [], length, IfOk, IfSome};
ghost use Rattle.std.specs.List.{All};
ghost use Rattle.xt_model.specs.Parts.{Parts};
ghost use Rattle.xt_model.specs.Quads.{IsPairInRange};
ghost use Rattle.chaos_core.specs.Tasks.{list_of, evaluated};
ghost use Rattle.chaos_core.specs.Views.{IsLoaded};
ghost use Rattle.dirty_run.specs.Notes.{AreNotes, IsRecalled};

use crate::worker::Run;
use net_eval::ReadLists;
use std::alloc::Global;
use std::mem;
use xt_model::{Design, NetId, NoMemory, Pair};

/// How many numbers all workers have room to note in a round, for each net of the design: those of eight nets, twice,
/// since they need not share evenly.
const NUMBERS: usize = 128;

/// Room for several items, or for none where there is no memory for these.
fn room_for<T>(alloc: Global, count: usize) -> Vec<T>
    ensures { result.items ≡ [] }
{
    match Vec::with_capacity(alloc, count) {
        Ok(room) => room,
        Err(_) => Vec::new(alloc),
    }
}

/// An evaluation of a net: from which place on the numbers are that were loaded for its read list, and what the
/// operator made of these.
#[derive(Drop)]
pub(crate) struct Note {
    net: NetId,
    from: usize,
    pair: Pair,
}

/// What a worker noted in a round: its evaluations, and the numbers that it loaded for these, one after another. It has
/// room for twice its share of the nets; what of that room is not written to takes no memory of the machine.
#[derive(Drop)]
pub(crate) struct Notes {
    numbers: Vec<u64>,
    entries: Vec<Note>,
}

/// The numbers that were loaded for the read list of a net, and what the operator made of these.
#[derive(Drop)]
pub(crate) struct Recalled<'a> {
    pub(crate) numbers: &'a [u64],
    pub(crate) pair: &'a Pair,
}

impl Notes {
    /// Nothing is noted yet by one of this many workers. Where there is no memory for notes, none is made later.
    pub(crate) fn new(alloc: Global, design: &Design, workers: u32) -> Notes
        ensures { result.entries.items ≡ [] }
    {
        let nets = design.nets().len();
        let shares = (workers as usize).max(1);
        let numbers = room_for(alloc, NUMBERS * nets / shares);
        let entries = room_for(alloc, 2 * nets / shares);
        Notes { numbers, entries }
    }

    /// Forgets all notes.
    fn clear(&mut self)
        ensures { self.new.entries.items ≡ [] }
    {
        self.entries.clear();
        self.numbers.clear();
    }

    /// Notes an evaluation of numbers that were loaded for a net's read list, where there is room for it.
    pub(crate) fn note(&mut self, net: NetId, loaded: &[u64], pair: &Pair)
        requires range { IsPairInRange pair.now }
        ensures { (d : Parts) (lists : List (List NetId)) → AreNotes d lists self.old
            → IsLoaded d (list_of lists net.0) net.0 loaded.now
            → pair.now ≡ evaluated d (list_of lists net.0) loaded.now net.0
            → AreNotes d lists self.new }
    {
        let from = self.numbers.len();
        if self.numbers.capacity() - from < loaded.len()
            || self.entries.len() == self.entries.capacity()
        {
            return;
        }
        let Ok(()) = self.numbers.extend_from_slice(loaded) else {
            return;
        };
        self.entries.push_reserved(Note {
            net,
            from,
            pair: *pair,
        });
    }

    /// What a note says, where it is one of this net.
    fn recall<G>(&self, run: &Run<'_, G>, net: NetId, place: usize) -> Option<Recalled<'_>>
        requires notes { AreNotes run.now.design.now run.now.lists.now self.now }
        requires there { net.0 < length run.now.lists.now }
        ensures { IfSome result (IsRecalled run.now.design.now run.now.lists.now net.0) }
    {
        if place >= self.entries.len() {
            return None;
        }
        let note = &self.entries[place];
        if note.net.0 != net.0 {
            return None;
        }
        let past = note.from + 8 * run.lists.of(net).len();
        Some(Recalled {
            numbers: &self.numbers.as_slice()[note.from..past],
            pair: &note.pair,
        })
    }
}

/// Where to look for a note: in whose notes, and which of these.
#[derive(Clone, Copy, Drop)]
struct Place {
    worker: usize,
    entry: usize,
}

/// What each worker noted in the round before, and for each net where there would be a note of it.
#[derive(Drop)]
pub(crate) struct Before {
    notes: Vec<Notes>,
    places: Vec<Place>,
}

/// Writes for each net that is noted by a worker where its note is.
fn write_places(worker: usize, entries: &[Note], places: &mut [Place]) {
    for entry in 0..entries.len() {
        let net = entries[entry].net.0 as usize;
        if net < places.len() {
            places[net] = Place { worker, entry };
        }
    }
}

impl Before {
    /// No round was made yet. There is room for the notes of this many workers.
    pub(crate) fn new(
        alloc: Global,
        design: &Design,
        lists: &ReadLists,
        workers: u32,
    ) -> Result<Before, NoMemory>
        ensures notes { IfOk result (λ before. All (AreNotes design.now lists.now) before.notes.items) }
        ensures count { IfOk result (λ before. length before.notes.items ≡ workers) }
    {
        let mut notes = Vec::with_capacity(alloc, workers as usize)?;
        for _number in 0..workers {
            notes.push(Notes::new(alloc, design, workers))?;
        }
        let first = Place {
            worker: 0,
            entry: 0,
        };
        let places = vec![in alloc; first; lists.count()]?;
        Ok(Before { notes, places })
    }

    /// What was noted of a net in the round before.
    pub(crate) fn recall<G>(&self, run: &Run<'_, G>, net: NetId) -> Option<Recalled<'_>>
        requires notes { All (AreNotes run.now.design.now run.now.lists.now) self.now.notes.items }
        requires there { net.0 < length run.now.lists.now }
        ensures { IfSome result (IsRecalled run.now.design.now run.now.lists.now net.0) }
    {
        if net.0 as usize >= self.places.len() {
            return None;
        }
        let place = self.places[net.0 as usize];
        if place.worker >= self.notes.len() {
            return None;
        }
        self.notes[place.worker].recall(run, net, place.entry)
    }

    /// Takes what a worker noted in a round in place of what it noted in the round before, and leaves it room to note
    /// anew.
    pub(crate) fn take(&mut self, worker: usize, notes: &mut Notes)
        requires { worker < length self.old.notes.items }
        ensures notes { (d : Parts) (lists : List (List NetId)) → AreNotes d lists notes.old
            → All (AreNotes d lists) self.old.notes.items
            → AreNotes d lists notes.new × All (AreNotes d lists) self.new.notes.items }
        ensures count { length self.new.notes.items ≡ length self.old.notes.items }
    {
        write_places(worker, notes.entries.as_slice(), self.places.as_mut_slice());
        mem::swap(&mut self.notes[worker], notes);
        notes.clear();
    }
}
