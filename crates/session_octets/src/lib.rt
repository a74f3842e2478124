//! Endpoints, session keys, extras and configurations in octets, both ways. The layouts are this project's own.
#![tactic(auto)]

mod laws;
mod reading;
mod writing;

pub use laws::{law_configs, law_endpoints, law_extras, law_keys};
pub use reading::{config_at, config_of, endpoint_at, extra_at, key_at};
pub use writing::{config_octets, endpoint_octets, extra_octets, key_octets};
