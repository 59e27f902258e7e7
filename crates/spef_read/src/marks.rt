//! The marks of names.

/// The bytes that have a meaning in the names of a text: the divider between the parts of a name, the delimiter before
/// a pin, and the brackets around a bit of a bus.
#[derive(Clone, Copy)]
pub struct Marks {
    pub divider: u8,
    pub delimiter: u8,
    pub left: u8,
    pub right: u8,
}
