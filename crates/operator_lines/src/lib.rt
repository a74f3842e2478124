//! The lines of an operator, and the answers to them. The formats are this project's own.
#![tactic(auto)]

mod answer;
mod laws;
mod line;
mod reading;
mod writing;

pub use answer::{Answer, Refusal};
pub use laws::law_lines;
pub use line::{LINE_MAX, Line, LineFault};
pub use reading::read_line;
pub use writing::{write_answer, write_open};

#[cfg(test)]
mod tests;
