//! The outside: files, sinks and keepers, in memory and real.
#![tactic(auto)]

mod files;
mod keeper;
mod memory_files;
mod memory_keeper;
mod memory_sink;
mod real_files;
mod real_sink;
mod sink;
#[cfg(test)]
mod tests;

pub use files::{Files, ReadFault};
pub use keeper::{Keeper, KeeperFault, KeptName};
pub use memory_files::MemoryFiles;
pub use memory_keeper::MemoryKeeper;
pub use memory_sink::MemorySink;
pub use real_files::RealFiles;
pub use real_sink::RealSink;
pub use sink::{PutFault, Sink};
