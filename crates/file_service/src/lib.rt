//! The reflector served by a configuration file that is named, with its report. It is this project's own.
#![tactic(auto)]

mod ends;
mod laws;
mod service;

pub use ends::RunEnd;
pub use laws::law_run_decides;
pub use service::run_file;
