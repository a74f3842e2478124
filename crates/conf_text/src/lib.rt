//! The configuration file: what a text stands for, or its first fault. The file is this project's own.
#![tactic(auto)]

mod conf;
mod configs;
mod fault;
mod root;
mod rows;
mod sessions;
mod table;
mod taken;

pub use conf::{Conf, read_conf};
pub use configs::Named;
pub use fault::ConfFault;
pub use sessions::Provided;
