//! The nets of a design by their pins: from a library, a netlist and constraints to what drives each net, its sinks,
//! its timing arcs and the check points.
#![tactic(auto)]

mod arcs;
mod bits;
mod checks;
mod counts;
mod drivers;
mod found;
mod given;
mod instances;
mod joined;
mod known;
mod limits;
mod lists;
mod names;
mod nets;
mod pins;
mod place_list;
mod ports;
mod related;
mod related_pins;
mod sinks;
mod timings;

pub use counts::Counts;
pub use instances::check_instances;
pub use joined::{Joined, join};
pub use limits::check_counts;
pub use lists::take_last;
