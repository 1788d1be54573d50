//! Files and output as a program sees them: traits that count their faults, objects in memory, and the real ones.
#![tactic(auto)]

mod calls;
mod files;
mod memory_files;
mod memory_sink;
mod open_path;
mod real_files;
mod real_sink;
mod sink;
mod stored_file;
#[cfg(test)]
mod tests;

pub use crate::files::{Failed, Files};
pub use crate::memory_files::MemoryFiles;
pub use crate::memory_sink::MemorySink;
pub use crate::real_files::RealFiles;
pub use crate::real_sink::RealSink;
pub use crate::sink::Sink;
