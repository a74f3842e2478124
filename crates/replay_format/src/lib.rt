//! The records of a replay stream and their answers, in octets. The format is this project's own.
#![tactic(auto)]

mod answer;
mod code;
mod fields;
mod layout;
mod locals;
mod record;
mod whole;
mod writing;

pub use answer::{Outcome, REPLY_AT, frame_reply, one_answer, write_outcome};
pub use code::{OpenAnswer, SetAnswer, UnsentCause};
pub use fields::ttl_at;
pub use locals::NO_LOCAL;
pub use record::{Parsed, Record, one_record, read_again, read_record};
pub use whole::{read_datagram, read_ipv4_datagram, read_ipv6_datagram};
pub use writing::write_record;
