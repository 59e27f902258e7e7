//! What a pass knows.

use chaos_core::Setting;
use std::collections::LinkedList;

/// Which of the passes of a board one is: the first, one that was split off, or one that was joined again.
pub enum Role {
    First,
    Other,
    Spent,
}

/// What a pass knows: the run, the number seen in each word, the numbers drawn since the last restart, how many words
/// were published, which pass it is, how many passes it has out, and how many it split off since the last restart.
/// Clauses name it; no value of it is made.
pub struct View {
    pub setting: Setting,
    pub seen: LinkedList<u64>,
    pub drawn: LinkedList<u64>,
    pub made: u64,
    pub role: Role,
    pub out: u64,
    pub split: u64,
}
