//! Files and sinks as the program sees them: what it asks of the outside, with the reader of whole files and the
//! writer of whole texts, and their implementations in memory and over the system.
#![tactic(auto)]

mod calls;
mod directory;
mod directory_files;
mod failed;
mod fault_counts;
mod files;
mod host_stream;
mod memory_files;
mod memory_sink;
mod open_file;
mod read_fail;
mod reading;
mod recorded_files;
mod sink;
mod source;
mod stream;
mod writing;

pub use directory::Directory;
pub use directory_files::{DirectoryFiles, HostFiles};
pub use failed::Failed;
pub use files::Files;
pub use host_stream::{HostErr, HostOut, HostStream};
pub use memory_files::MemoryFiles;
pub use memory_sink::MemorySink;
pub use read_fail::ReadFail;
pub use reading::{MOST_BYTES, read_whole};
pub use recorded_files::RecordedFiles;
pub use sink::Sink;
pub use source::Source;
pub use stream::Stream;
pub use writing::write_whole;
