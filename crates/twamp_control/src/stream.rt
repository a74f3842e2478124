//! One message of the stream: its length and what it says (RFC 5357, section 3.4; RFC 4656, section 3.1).

ghost use Rattle.std.specs.Prelude.{◌≡◌, ◌≤◌, take, slice_index, [], ◌∷◌};
ghost use Rattle.twamp_control.specs.Stream.{message_length, message_of};

use crate::types::Message;
use control_msgs::{COMMAND_LEN, REQUEST, REQUEST_LEN, SET_UP_LEN, START, STOP};
use octet_format::field4;

/// How many octets the message has that begins with this octet.
pub(crate) fn length_of(first: bool, octet: u8) -> usize
    ensures { result ≡ message_length first (octet ∷ []) }
{
    if first {
        return SET_UP_LEN;
    }
    match octet {
        REQUEST => REQUEST_LEN,
        START | STOP => COMMAND_LEN,
        _ => 1,
    }
}

/// What a whole message says, which stands at the front.
pub(crate) fn message_at(first: bool, octets: &[u8; SET_UP_LEN]) -> Message
    ensures { result ≡ message_of first (take (message_length first octets.now) octets.now) }
{
    if first {
        let mode = u32::from_be_bytes(field4(octets, 0));
        return Message::SetUp { mode };
    }
    match octets[0] {
        REQUEST => {
            let mut request = [0; REQUEST_LEN];
            request.copy_from_slice(&octets[..REQUEST_LEN]);
            Message::Request(request)
        }
        START => Message::Start,
        STOP => Message::Stop {
            number: u32::from_be_bytes(field4(octets, 4)),
        },
        other => Message::Unknown(other),
    }
}
