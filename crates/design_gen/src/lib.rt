//! Generated designs: for each number and count of nets one design, which is sound, as work for a run.
#![tactic(auto)]

mod arcs;
mod couplings;
mod design;
mod drawn;
mod drivers;
mod given;
mod laws;
mod nets;
mod rows;
mod shares;
mod sinks;
mod tables;

pub use design::{generate, generate_by};
pub use laws::{generated_is_sound, generated_makes_no_loop};
pub use shares::drop_design;
