use crate::cell::Cell;
use xt_model::{Row, Table};

/// A library: a time as it is written is a number of 10^`time_scale` fs, a capacitance one of 10^`cap_scale` aF. Its
/// tables and cells are in the order of the text.
#[derive(Drop)]
pub struct Library {
    pub time_scale: i32,
    pub cap_scale: i32,
    pub tables: Row<Table>,
    pub cells: Row<Cell>,
}
