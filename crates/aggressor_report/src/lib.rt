//! Which aggressors can change the delay of which edges of nets, and through which nets a window gets its latest or its
//! earliest time. Times are in fs.
#![tactic(auto)]

mod count;
mod entries;
mod guilt;
mod laws;
mod mark;
mod passage;
mod path;
mod step;
mod walk;
mod window;

pub use count::guilty_count;
pub use entries::guilty;
pub use guilt::Guilt;
pub use laws::a_path_is_unique;
pub use mark::Mark;
pub use path::{Path, PathStep};
pub use walk::worst_path;
