//! The rule of words with marks, and what each kind of step tells.

ghost use Rattle.dirty_words.specs.Rule.{KeptMarked};
ghost use Rattle.dirty_words.specs.Boards.{run_at};
ghost use Rattle.dirty_words.specs.Views.{first_dirty, with_pass_out, pass_sent, with_joined, spent_pass};
ghost use Rattle.dirty_words.specs.Steps.{took, loaded, saw, lowered, raised, noted, looked, drawn_next, restarted};

use crate::view::DirtyView;
use atomic_table::{Join, Play, Split, TableRule};
use net_eval::ReadLists;
use std::snapshot::Snapshot;
use xt_model::{Design, Direction, Windows};

/// The run that the words of a board are of. It takes no bytes but for the direction.
#[derive(Drop)]
pub struct Key {
    pub design: Snapshot<Design>,
    pub way: Direction,
    pub start: Snapshot<Windows>,
    pub lists: Snapshot<ReadLists>,
}

/// The rule of the words, of the marks and of all passes.
pub struct DirtyRule;

impl TableRule<(), DirtyView, Key> for DirtyRule {
    ghost holds = { λ key. KeptMarked (run_at key) };

    ghost first = { λ key. first_dirty (run_at key) };
}

pub(crate) struct Take;

impl Play<(), DirtyView> for Take {
    ghost then = { took };
}

pub(crate) struct Load;

impl Play<(), DirtyView> for Load {
    ghost then = { loaded };
}

pub(crate) struct See;

impl Play<(), DirtyView> for See {
    ghost then = { saw };
}

pub(crate) struct Lower;

impl Play<(), DirtyView> for Lower {
    ghost then = { lowered };
}

pub(crate) struct Raise;

impl Play<(), DirtyView> for Raise {
    ghost then = { raised };
}

pub(crate) struct Note;

impl Play<(), DirtyView> for Note {
    ghost then = { noted };
}

pub(crate) struct Look;

impl Play<(), DirtyView> for Look {
    ghost then = { looked };
}

pub(crate) struct Draw;

impl Play<(), DirtyView> for Draw {
    ghost then = { drawn_next };
}

pub(crate) struct Restart;

impl Play<(), DirtyView> for Restart {
    ghost then = { restarted };
}

pub(crate) struct SplitOff;

impl Split<DirtyView> for SplitOff {
    ghost left = { with_pass_out };

    ghost right = { pass_sent };
}

pub(crate) struct JoinAgain;

impl Join<DirtyView> for JoinAgain {
    ghost both = { with_joined };

    ghost spent = { spent_pass };
}
