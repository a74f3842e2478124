//! Reading an authenticated request (RFC 8762, section 4.2.2).

ghost use Rattle.std.specs.Prelude.{◌≡◌, ◌≤◌, IfOk, length};
ghost use Rattle.stamp_auth.specs.Request.{IsAuthRequest, auth_sender_of, has_base_hmac, read_of};

use hmac_sha256::KeyedHash;
use octet_format::{field2, field4, field8, field16};
use stamp_packet::SenderBase;

/// Octets of an authenticated base packet.
pub const AUTH_LEN: usize = 112;

/// Octets of it that its HMAC covers.
pub(crate) const COVERED: usize = 96;

/// Why a request isn't read. The sender or the network is to blame.
#[derive(Clone, Copy, Debug, PartialEq, Eq)]
pub enum AuthFault {
    /// There are fewer than 112 octets.
    Short,
    /// Its HMAC isn't that of its octets before it.
    BadHmac,
}

/// Whether the HMAC of a base packet is that of its first 96 octets.
fn has_base_hmac(key: &KeyedHash, octets: &[u8]) -> bool
    requires { 112 ≤ length octets.now }
    ensures { result ≡ has_base_hmac key.now octets.now }
{
    let (covered, _) = octets.split_at(COVERED);
    field16(octets, COVERED) == key.mac128(covered, &[])
}

/// The fields of a request at their places. Its HMAC isn't looked at.
#[inline]
#[tactic(auto, unfolding(crate::specs::Request::auth_sender_of))]
pub fn auth_sender(octets: &[u8]) -> SenderBase
    requires { 112 ≤ length octets.now }
    ensures { result ≡ auth_sender_of octets.now }
{
    SenderBase {
        sequence: u32::from_be_bytes(field4(octets, 0)),
        timestamp: field8(octets, 16),
        error: field2(octets, 24),
        ssid: u16::from_be_bytes(field2(octets, 26)),
    }
}

/// Reads a request under an HMAC key in its block form. The octets that must be zero are covered by the HMAC as they
/// were received, and are ignored otherwise.
pub fn read_auth(block: &[u8; 64], octets: &[u8]) -> Result<SenderBase, AuthFault>
    ensures value { result ≡ read_of block.now octets.now }
    ensures table { IfOk result (IsAuthRequest octets.now) }
{
    read_auth_keyed(&KeyedHash::of(block), octets)
}

/// The same, under a key whose blocks are hashed.
pub fn read_auth_keyed(key: &KeyedHash, octets: &[u8]) -> Result<SenderBase, AuthFault>
    ensures value { result ≡ read_of key.now octets.now }
    ensures table { IfOk result (IsAuthRequest octets.now) }
{
    if octets.len() < AUTH_LEN {
        return Err(AuthFault::Short);
    }
    if !has_base_hmac(key, octets) {
        return Err(AuthFault::BadHmac);
    }
    Ok(auth_sender(octets))
}

#[cfg(test)]
mod tests {
    use super::*;
    use hmac_sha256::block_key;

    /// A request with sequence number 5 and SSID 7, under the key "Jefe". The HMAC is of another implementation.
    const REQUEST: &[u8] =
        b"\x00\x00\x00\x05\x00\x00\x00\x00\x00\x00\x00\x00\x00\x00\x00\x00\x11\x22\x33\x44\x55\x66\x77\x88\x00\x01\x00\x07\x00\x00\x00\x00\x00\x00\x00\x00\x00\x00\x00\x00\x00\x00\x00\x00\x00\x00\x00\x00\x00\x00\x00\x00\x00\x00\x00\x00\x00\x00\x00\x00\x00\x00\x00\x00\x00\x00\x00\x00\x00\x00\x00\x00\x00\x00\x00\x00\x00\x00\x00\x00\x00\x00\x00\x00\x00\x00\x00\x00\x00\x00\x00\x00\x00\x00\x00\x00\xEB\x34\x8D\x31\xE1\xD9\xD7\xA0\xBD\x6A\x4F\x5B\x72\xC0\x37\xEF";

    #[test]
    fn a_signed_request_is_read_and_another_is_not(rt: HostRuntime) {
        let block = block_key(b"Jefe");
        let sender = SenderBase {
            sequence: 5,
            timestamp: [0x11, 0x22, 0x33, 0x44, 0x55, 0x66, 0x77, 0x88],
            error: [0, 1],
            ssid: 7,
        };
        assert_eq!(rt; read_auth(&block, REQUEST), Ok(sender));
        assert_eq!(rt;
            read_auth(&block_key(b"jefe"), REQUEST),
            Err(AuthFault::BadHmac)
        );
        assert_eq!(rt; read_auth(&block, &[0; 111]), Err(AuthFault::Short));
    }
}
