//! Gates that the workers of a run pass before they draw, by which a test can hold them.

use std::hint::spin_loop;
use std::sync::atomic::{AtomicBool, AtomicU64, Ordering};

/// What a worker passes at the beginning of each round. Workers and rounds are counted from 1. A gate changes nothing
/// of what a run gives.
pub trait Gate: Sync {
    fn pass(&self, worker: u32, round: u64);
}

/// A gate that holds nobody.
#[derive(Clone, Copy, Debug)]
pub struct OpenGate;

impl Gate for OpenGate {
    fn pass(&self, _worker: u32, _round: u64) {}
}

/// How often one call looks whether the other worker came.
const MOST_TURNS: u32 = 200_000_000;

/// A gate at which workers 1 and 2 meet, for tests: a call of one of the two waits until the other has made as many
/// calls, all rounds counted together. Other workers pass at once. After this many turns without the other, a call
/// gives up; from then on every call passes at once.
#[derive(Drop)]
pub struct MeetGate {
    first: AtomicU64,
    second: AtomicU64,
    late: AtomicBool,
}

impl MeetGate {
    /// A gate that nobody has passed.
    pub fn new() -> MeetGate {
        MeetGate {
            first: AtomicU64::new(0),
            second: AtomicU64::new(0),
            late: AtomicBool::new(false),
        }
    }

    /// Whether some call gave up.
    pub fn late(&self) -> bool {
        self.late.load(Ordering::SeqCst)
    }

    /// Counts a call of one, and waits for the other.
    fn meet(&self, own: &AtomicU64, other: &AtomicU64) {
        let before = own.fetch_add(1, Ordering::SeqCst);
        for _turn in 0..MOST_TURNS {
            if other.load(Ordering::SeqCst) > before || self.late() {
                return;
            }
            spin_loop();
        }
        self.late.store(true, Ordering::SeqCst);
    }
}

impl Gate for MeetGate {
    fn pass(&self, worker: u32, _round: u64) {
        match worker {
            1 => self.meet(&self.first, &self.second),
            2 => self.meet(&self.second, &self.first),
            _ => (),
        }
    }
}
