//! Numbers in text: exact fixed-point values, powers of ten and printed thousandths.
#![tactic(auto)]

mod digits;
mod fault;
mod fixed;
mod laws;
mod numeral;
mod power;

pub use digits::{Digits, cap_text, time_text};
pub use fault::NumberFault;
pub use fixed::{is_number, read_fixed};
pub use laws::texts_are_unambiguous;
pub use power::power_of_ten;
