//! Forms that were read.

/// A form that was read: its item, the line of its last token, and what may come next.
#[derive(Clone, Copy, Debug)]
pub struct FormRead<I, C> {
    pub item: I,
    pub line: u32,
    pub next: C,
}
