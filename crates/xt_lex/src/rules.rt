//! Which texts there are.

/// The longest text whose tokens are looked for, in bytes.
pub const MOST_BYTES: usize = 268_435_456;

/// The rules by which a text is cut into tokens.
///
/// In each of them a newline byte ends a line; blanks, tabs, carriage returns and newlines are white space. A byte that
/// is neither that nor printable ASCII is a fault, unless a comment or a quoted string has it. A token's text is all of
/// its bytes, with the quotes, braces or the backslash that belong to it.
#[derive(Clone, Copy, Debug, PartialEq, Eq)]
pub enum Rules {
    /// `Mark` is one of `( ) { } : ; ,`. `Text` is a string between double quotes, over lines too, in which a
    /// backslash keeps the next byte from ending it. `Word` is the longest run of other printable bytes; `"`, a
    /// comment's `/*` and a backslash before a newline end it. `/* */` comments and a backslash before a newline are
    /// skipped. An open string or comment is a fault.
    Liberty,
    /// `Word` is an identifier (a letter or `_`, then letters, digits, `_` and `$`), a constant (`1'`, one of
    /// `b h d o` in either case, `0` or `1`) or else the longest run of digits; its first byte, and after a `1` its
    /// second one, show which. `Escaped` is a backslash and the printable bytes after it, perhaps none. Every other
    /// printable byte is a `Mark`. `//` and `/* */` comments are skipped, and so are attributes from `(*` to the
    /// first `*)` after it and lines whose first byte is a backtick, which are no comments: a byte beyond ASCII is
    /// a fault there. An open comment or attribute is a fault.
    Verilog,
    /// `Text` is a string from a double quote at a token's start to the next one, `Word` the longest run of printable
    /// bytes from another start. `//` and `/* */` begin comments at a token's start alone: within a word they are
    /// bytes of it. Where a string or a comment ended the next token may begin. An open string or comment is a fault.
    Spef,
    /// `Break` is a newline or `;`: a command ends there. `Text` is a word in double quotes, up to the next one, and
    /// `Escaped` a word in braces, up to the next `}`, both over lines too. `Mark` is a `[` at a word's start or a
    /// `]` that closes no `[` of a bare word. `Word` is a bare word: printable bytes up to white space, `;` or such
    /// a `]`; a `[` after its first byte takes what follows up to the next `]` into the word, and where none comes
    /// before white space or `;` the word has a `[` after its last `]`. `#` where a command begins is a comment to
    /// the line's end. A backslash before a newline is white space, and a comment goes on over it. Open braces and
    /// quotes are a fault. A reader refuses, as words that do not fit: a word with such an open `[`; brackets that
    /// do not match; and a token that begins where a `Text`, an `Escaped` or a `]` ended (its `from` is their `to`),
    /// unless it is a `Break` or a `]`.
    Sdc,
}
