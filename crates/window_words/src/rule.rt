//! The rule of the shared words, and what each kind of step tells.

ghost use Rattle.window_words.specs.Rule.{Kept};
ghost use Rattle.window_words.specs.Boards.{setting_of};
ghost use Rattle.window_words.specs.Views.{first_view, with_one_out, sent_out, with_both, spent_view};
ghost use Rattle.window_words.specs.Steps.{loaded, lowered, raised, drawn_next, restarted};

use crate::view::View;
use atomic_table::{Join, Play, Split, TableRule};
use std::snapshot::Snapshot;
use xt_model::{Design, Direction, Windows};

/// The run that the words of a board are of. It takes no bytes but for the direction.
#[derive(Drop)]
pub struct Key {
    pub design: Snapshot<Design>,
    pub way: Direction,
    pub start: Snapshot<Windows>,
}

/// The rule of the words and of all passes.
pub struct WindowRule;

impl TableRule<(), View, Key> for WindowRule {
    ghost holds = { λ key. Kept (setting_of key) };

    ghost first = { λ key. first_view (setting_of key) };
}

pub(crate) struct Load;

impl Play<(), View> for Load {
    ghost then = { loaded };
}

pub(crate) struct Lower;

impl Play<(), View> for Lower {
    ghost then = { lowered };
}

pub(crate) struct Raise;

impl Play<(), View> for Raise {
    ghost then = { raised };
}

pub(crate) struct Draw;

impl Play<(), View> for Draw {
    ghost then = { drawn_next };
}

pub(crate) struct Restart;

impl Play<(), View> for Restart {
    ghost then = { restarted };
}

pub(crate) struct SplitOff;

impl Split<View> for SplitOff {
    ghost left = { with_one_out };

    ghost right = { sent_out };
}

pub(crate) struct JoinAgain;

impl Join<View> for JoinAgain {
    ghost both = { with_both };

    ghost spent = { spent_view };
}
