//! Keys, configurations and causes: what every part of the reflector speaks of.
#![tactic(auto)]

mod config;
mod laws;
mod outcome;
mod types;

pub use config::{Clock, Config, ConfigFault, ConfigParts, are_known_tlvs};
pub use laws::law_same;
pub use outcome::{Memory, Place, Silent, Unanswered};
pub use types::{Address, Endpoint, Extra, Key, LocalAddr, Meta, Mode};
