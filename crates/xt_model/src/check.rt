use crate::name::Name;
use crate::net::NetId;

/// A place where data has to be in time: at a flop against its clock, or at an output port. `hold`
/// tells a hold check from a setup check. A flop's options are the numbers of its constraint tables
/// for the data's rise and fall; a port's are its external delays in fs.
#[derive(Debug, Drop)]
pub enum CheckPoint {
    Flop {
        name: Name,
        hold: bool,
        datum: NetId,
        datum_sink: u32,
        clock: NetId,
        clock_sink: u32,
        rise: Option<u32>,
        fall: Option<u32>,
    },
    Port {
        name: Name,
        hold: bool,
        net: NetId,
        sink: u32,
        rise: Option<i64>,
        fall: Option<i64>,
    },
}
