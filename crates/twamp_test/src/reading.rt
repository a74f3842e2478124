//! The packet of a session sender (RFC 5357, section 4.1.2).

ghost use Rattle.std.specs.Prelude.{◌≡◌, IfOk};
ghost use Rattle.twamp_test.specs.Request.{read_of, IsTestRequest};

use octet_format::{field2, field4, field8};
use stamp_packet::{SenderBase, Short};

/// Octets before the padding of a request whose size isn't symmetrical.
pub const TEST_LEN: usize = 14;

/// Reads a request. It has no SSID, which is given as 0.
#[tactic(auto, unfolding(crate::specs::Request::test_sender_of))]
#[inline(always)]
pub fn read_test(octets: &[u8]) -> Result<SenderBase, Short>
    ensures value { result ≡ read_of octets.now }
    ensures table { IfOk result (IsTestRequest octets.now) }
{
    if octets.len() < TEST_LEN {
        return Err(Short);
    }
    Ok(SenderBase {
        sequence: u32::from_be_bytes(field4(octets, 0)),
        timestamp: field8(octets, 4),
        error: field2(octets, 12),
        ssid: 0,
    })
}
