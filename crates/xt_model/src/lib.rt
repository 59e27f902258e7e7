//! The design that is analysed, and switching windows over it: plain data, with what makes it sound.
//! Times are in femtoseconds (fs), capacitances in attofarads (aF), resistances in milliohms.
#![tactic(auto)]

mod bounds;
mod check;
mod code;
mod design;
mod direction;
mod edge;
mod fault;
mod given;
mod laws;
pub mod limits;
mod miller;
mod name;
mod net;
mod net_order;
mod order;
mod pairs;
mod parts;
mod quad;
mod row;
mod table;
mod visits;
mod windows;

pub use bounds::{Bounds, window};
pub use check::CheckPoint;
pub use code::Code;
pub use design::Design;
pub use direction::Direction;
pub use edge::Edge;
pub use fault::{BuildFault, LimitKind, NoMemory};
pub use given::GivenPair;
pub use laws::{
    a_first_loop_is_unique, a_loop_excludes_levels, a_pair_count_is_unique, an_order_is_unique,
    joins_and_meets_are_bounds, levels_are_unique, within_is_an_order,
};
pub use miller::Miller;
pub use name::Name;
pub use net::{Coupling, Net, NetId, SinkPin, TimingArc};
pub use net_order::NetOrder;
pub use parts::DesignParts;
pub use quad::{Pair, Quad};
pub use row::Row;
pub use table::Table;
pub use windows::Windows;
