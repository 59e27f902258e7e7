//! Lists of spans of which most have one.

ghost use Rattle.std.specs.Prelude.{◌≡◌};

use crate::span::Span;
use std::alloc::{AllocError, Global};
use std::marker::Model;
use std::slice;

/// Spans: none, one, or a list of more.
#[derive(Debug, Drop)]
enum Spans {
    None,
    One(Span),
    Many(Box<Vec<Span>>),
}

/// The values of an attribute, or the arguments of a group, in the order of the text: 16 bytes. One alone takes no
/// memory of its own.
#[derive(Debug, Drop)]
pub struct Values {
    spans: Spans,
}

impl Model for Values {
    ghost use Rattle.std.specs.Prelude.{List};
    ghost use Rattle.liberty_groups.specs.declared.span.Span.{Span};
    ghost use Rattle.liberty_groups.specs.Values.{spans_of};

    ghost Value = { List Span };

    ghost view = { λ v. spans_of v.spans };
}

impl Values {
    ghost use Rattle.std.specs.Prelude.{[], ◌∷◌, ◌++◌, OnOk};

    /// No value.
    pub fn none() -> Values
        ensures { result ≡ [] }
    {
        Values { spans: Spans::None }
    }

    /// The values.
    pub fn as_slice(&self) -> &[Span]
        ensures { result.now ≡ self.now }
    {
        match &self.spans {
            Spans::None => &[],
            Spans::One(span) => slice::from_ref(span),
            Spans::Many(spans) => spans.as_slice(),
        }
    }

    /// One more value.
    pub fn push(&mut self, alloc: Global, span: Span) -> Result<(), AllocError>
        ensures { OnOk result (self.new ≡ self.old ++ span ∷ []) }
    {
        match &mut self.spans {
            Spans::None => self.spans = Spans::One(span),
            Spans::One(first) => {
                let first = *first;
                let mut spans = Vec::new(alloc);
                spans.reserve_exact(2)?;
                spans.push_reserved(first);
                spans.push_reserved(span);
                self.spans = Spans::Many(Box::new(alloc, spans)?);
            }
            Spans::Many(spans) => spans.push(span)?,
        }
        Ok(())
    }
}
