//! The items that forms of a library give.

use crate::context::Context;
use crate::span::Span;

/// The item that a form gives.
#[derive(Clone, Copy)]
pub enum Item {
    Nothing,
    /// The name of an attribute or a group, and its line.
    Named(Span, u32),
    /// A value or an argument.
    Value(Span),
    /// `;`.
    Ends,
    /// `{`.
    Opens,
    /// `{` where the most groups are open.
    TooDeep,
    /// `}`.
    Closes,
}

/// A form that was read.
pub type FormRead = text_forms::FormRead<Item, Context>;
