//! Edits of a design between two nets, and from where its windows are found again.
#![tactic(auto)]

mod copy;
mod couplings;
mod design;
mod edit;
mod laws;
mod names;
mod net;
mod portion;
mod read;
mod run_starts;

pub use design::{apply, design_after, edit_design, nets_after};
pub use edit::{Change, Edit, EditFault, Edited, StartWindows};
pub use laws::{edits_keep_envelopes, edits_order_operators};
pub use read::read_edit;
pub use run_starts::starts;
