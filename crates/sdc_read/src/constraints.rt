use crate::port_table::PortTable;
use verilog_net::Name;

/// The clock of a text: its name and the bit of the port at which it comes in. It rises at 0 and falls at `fall`, again
/// and again after `period`, both in fs.
#[derive(Debug, Drop)]
pub struct Clock {
    pub name: Name,
    pub decl: u32,
    pub bit: u32,
    pub period: i64,
    pub fall: i64,
}

/// Constraints: the clock, if there is one, and what is set for the bits of ports. A bit that is not among them has no
/// delays, slews of 0 and no load.
#[derive(Drop)]
pub struct Constraints {
    pub clock: Option<Clock>,
    pub ports: PortTable,
}
