//! The outside: what the reflector reads from and writes to, as traits, as objects in memory and as real ones.
#![tactic(auto)]

mod disk_files;
mod files;
mod mem_files;
mod memory;
mod outside;
mod plan;
mod standard;
#[cfg(test)]
mod tests;

pub use disk_files::DiskFiles;
pub use files::{FileFault, Files};
pub use mem_files::MemFiles;
pub use memory::{MemSink, MemSource};
pub use outside::{Failed, Sink, Source, count_failure, write_all};
pub use plan::FailurePlan;
pub use standard::{StdSink, StdSource};
