//! Whether a recorded run of a reflector is a history, entry by entry, and the line that is told of it. It is this project's
//! own.
#![tactic(auto)]

mod auditing;
mod front;
mod laws;
mod lines;
mod reporting;

pub use auditing::{RunEnd, audit_run};
pub use laws::law_run_decides;
pub use lines::Verdict;
pub use reporting::report_audit;

#[cfg(test)]
mod tests;
