//! What may come next.

/// What may come next in a library; the number is how many groups are open.
#[derive(Clone, Copy)]
pub enum Context {
    /// The start of the text: `library (`.
    Start,
    /// Within the parentheses of the library.
    LibraryArgs,
    /// After the parentheses of the library.
    LibraryNamed,
    /// Where an item may begin.
    Items(u32),
    /// Within the parentheses of a group or of an attribute.
    Args(u32),
    /// After these parentheses.
    Named(u32),
    /// After the colon of an attribute.
    FirstValue(u32),
    /// After a value of such an attribute.
    Values(u32),
    /// After the library.
    Behind,
    /// After the text's end.
    Done,
}
