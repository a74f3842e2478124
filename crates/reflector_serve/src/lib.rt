//! Serving: the ports and the desk are opened, the workers and the desk run beside each other, and all are joined.
#![tactic(auto)]

mod laws;
mod ports;
mod post;
mod posts;
mod report;
mod seats;
mod serving;
mod whole;

pub use laws::law_named;
pub use report::{Report, ServeFault};
pub use whole::serve;
