//! What a pass over words with marks knows.

use net_eval::ReadLists;
use std::collections::LinkedList;
use window_words::View;

/// A net whose mark was taken and whose eight words are not yet all published: the numbers loaded so far for its read
/// list, word by word, and how many of its words are published. Clauses name it; no value of it is made.
pub struct Flight {
    pub net: u64,
    pub numbers: LinkedList<u64>,
    pub published: u64,
}

/// What a pass knows: what a pass over words without marks knows, the read lists, the net in flight, the nets to which
/// it owes a mark, the nets that the first pass found unmarked and marked, the nets for which it called `take`, those
/// that it marked, and those for which `take` found no mark. Clauses name it; no value of it is made.
pub struct DirtyView {
    pub base: View,
    pub lists: ReadLists,
    pub flight: Option<Flight>,
    pub owed: LinkedList<u64>,
    pub clear: LinkedList<u64>,
    pub found: LinkedList<u64>,
    pub taken: LinkedList<u64>,
    pub noted: LinkedList<u64>,
    pub missed: LinkedList<u64>,
}
