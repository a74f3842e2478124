//! Requests of the session 7, written out from the tables of RFC 8762, section 4.2, and RFC 5357, section 4.1.2.

use hmac_sha256::mac128;
use std::alloc::Global;
use std::process::Abort;

/// Octets of an unauthenticated base packet.
pub const PLAIN: usize = 44;

/// Octets of an authenticated one.
const AUTH: usize = 112;

/// An unauthenticated one.
pub const REQUEST: [u8; PLAIN] = [
    0, 0, 0, 5, 0x11, 0x22, 0x33, 0x44, 0x55, 0x66, 0x77, 0x88, 0, 1, 0, 7, 0, 0, 0, 0, 0, 0, 0, 0,
    0, 0, 0, 0, 0, 0, 0, 0, 0, 0, 0, 0, 0, 0, 0, 0, 0, 0, 0, 0,
];

/// The same of another session.
pub fn request(ssid: u8) -> [u8; PLAIN] {
    let mut octets = REQUEST;
    octets[15] = ssid;
    octets
}

/// An authenticated one, with the HMAC of its base packet.
pub fn signed(key: &[u8; 64]) -> [u8; AUTH] {
    let mut octets = [0; AUTH];
    octets[3] = 5;
    octets[27] = 7;
    let (covered, mac) = octets.split_at_mut(96);
    mac.copy_from_slice(&mac128(key, covered, &[]));
    octets
}

/// An unauthenticated one with a tail of twelve octets.
pub fn with_tail(tail: [u8; 12]) -> [u8; 56] {
    let mut octets = [0; 56];
    octets[..PLAIN].copy_from_slice(&REQUEST);
    octets[PLAIN..].copy_from_slice(&tail);
    octets
}

/// An unauthenticated one of 65,507 octets: behind the base packet this head of a TLV so often, and then zeros.
pub fn filled(rt: &impl Abort, alloc: Global, head: &[u8; 4], count: usize) -> Vec<u8> {
    let mut whole = Vec::from_slice(alloc, &REQUEST).expect(rt, "octets");
    for _tlv in 0..count {
        whole.extend_from_slice(head).expect(rt, "room");
    }
    whole.resize(65_507, 0).expect(rt, "room");
    whole
}
