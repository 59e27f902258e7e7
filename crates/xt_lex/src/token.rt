//! Tokens.

/// What a token is; `Rules` tells what each kind is in each text.
#[derive(Clone, Copy, Debug, PartialEq, Eq)]
pub enum Kind {
    Word,
    Text,
    Mark,
    Escaped,
    Break,
}

/// A token: the bytes from `from` up to and without `to` of its text, the first of them in line `line`, counted from 1.
#[derive(Clone, Copy, Debug, PartialEq, Eq)]
pub struct Token {
    pub kind: Kind,
    pub from: u32,
    pub to: u32,
    pub line: u32,
}
