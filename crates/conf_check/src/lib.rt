//! A configuration file by its name: what is told of its text, or that it can't be loaded. It is this project's own.
#![tactic(auto)]

mod checking;
mod laws;
mod lines;
mod loading;
mod writing;

pub use checking::check_file;
pub use laws::law_content_decides;
pub use loading::{Refusal, load_conf};
pub use writing::{write_line, write_refusal};
