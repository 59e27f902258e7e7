//! The envelope of a design: the windows where everything overlaps, which contain whatever windows a run
//! comes to; or the first limit that is passed on the way to it. Times and slews are in fs.
#![tactic(auto)]

mod fault;
mod greatest;
mod limits;
mod pass;
mod renewal;
mod start;

pub use fault::{EnvelopeFault, What};
pub use pass::{envelope, envelope_by};
pub use renewal::renewed;
pub use start::quiet;
