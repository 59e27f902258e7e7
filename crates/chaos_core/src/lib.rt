//! Workers that evaluate the nets of a design over shared words, one action at a time and in any order, and
//! words in memory for them.
#![tactic(auto)]

mod ahead;
mod alike;
mod alone;
mod answers;
mod board;
mod gate;
mod known;
mod laws;
mod listed;
mod loaded;
mod look;
mod looked;
mod marks;
mod memory;
mod noted;
mod round;
mod run;
mod schedule;
mod setting;
mod settle;
mod steps;
mod unmoved;
mod words;
mod worker;

pub use board::Board;
pub use gate::{Gate, MeetGate, OpenGate};
pub use laws::{rounds_carry, schedules_keep};
pub use loaded::{bound_of, evaluate, evaluate_grouped};
pub use looked::Looked;
pub use memory::MemoryBoard;
pub use noted::evaluate_noted;
pub use run::{run_grouped, run_worker};
pub use schedule::run_schedule;
pub use setting::Setting;
pub use settle::{Settled, settle_alone, settle_picked};
pub use steps::{moves_down, worker_step};
pub use unmoved::{closed_where_grouped, is_alike, is_decided};
pub use words::{number_in, numbers_in, set_pairs};
pub use worker::{Moved, Worker};
