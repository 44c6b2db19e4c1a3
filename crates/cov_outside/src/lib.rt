//! The edge to the outside: sources, sinks and folders by contract, in memory for tests, and over
//! the real ones.
#![tactic(auto)]

mod calls;
mod change_log;
mod directory;
mod faults;
mod file_calls;
mod folder;
mod memory;
mod named_files;
mod reading;
mod remaining_bytes;
mod sink;
mod source;
mod streams;
mod sure;
mod system_files;
#[cfg(test)]
mod tests;
mod told_files;
mod wants;
mod whole_files;
mod written_bytes;

pub use directory::DirFolder;
pub use faults::{Failed, LoadFault, ReadRefusal, SinkFault};
pub use folder::Folder;
pub use memory::{MemFolder, MemSink, MemSource};
pub use reading::read_all;
pub use sink::{Sink, write_all};
pub use source::Source;
pub use streams::{StdErr, StdSink, StdSource};
pub use sure::{SureFolder, SureSink, SureSource};
