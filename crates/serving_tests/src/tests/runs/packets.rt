//! A sender's requests, and their replies, written out from the field tables (RFC 8762, section 4; RFC 5357, section 4). Each
//! request comes at second 1, and each reply is sent 999,999,999 ns later.

use refl_types::{Address, Endpoint};
use std::alloc::Global;
use std::process::Abort;

/// When replies are sent.
pub const SENDING: u64 = 1_999_999_999;

/// A sender by its port.
pub fn sender(port: u16) -> Endpoint {
    Endpoint {
        address: Address::V4([192, 0, 2, 1]),
        port,
    }
}

/// A request or a reply.
#[derive(Clone, Copy)]
pub enum Packet<'a> {
    /// An unauthenticated request: number 5, SSID 7; with a tail.
    Plain(&'a [u8]),
    /// Its reply in NTP format, with this number and Multiplier; with a tail.
    Ntp(u8, u8, &'a [u8]),
    /// Its reply in truncated PTP format, which is 37 s ahead, with this number.
    Ptp(u8),
    /// An authenticated request: number 5, SSID 7, and this HMAC.
    Signed(&'a [u8; 16]),
    /// Its reply in NTP format, with this number and HMAC.
    SignedReply(u8, &'a [u8; 16]),
    /// A TWAMP-Test request: number 5.
    Twamp,
    /// Its reply in NTP format, with this number.
    TwampReply(u8),
}

const PLAIN: [u8; 44] = [
    0, 0, 0, 5, 0x11, 0x22, 0x33, 0x44, 0x55, 0x66, 0x77, 0x88, 0, 1, 0, 7, 0, 0, 0, 0, 0, 0, 0, 0,
    0, 0, 0, 0, 0, 0, 0, 0, 0, 0, 0, 0, 0, 0, 0, 0, 0, 0, 0, 0,
];

/// But for its number and Multiplier.
const NTP: [u8; 44] = [
    0, 0, 0, 0, 0x83, 0xAA, 0x7E, 0x81, 0xFF, 0xFF, 0xFF, 0xFB, 0, 0, 0, 7, 0x83, 0xAA, 0x7E, 0x81,
    0, 0, 0, 0, 0, 0, 0, 5, 0x11, 0x22, 0x33, 0x44, 0x55, 0x66, 0x77, 0x88, 0, 1, 0, 0, 0xFF, 0, 0,
    0,
];

/// But for its number.
const PTP: [u8; 44] = [
    0, 0, 0, 0, 0, 0, 0, 0x26, 0x3B, 0x9A, 0xC9, 0xFF, 0x40, 1, 0, 7, 0, 0, 0, 0x26, 0, 0, 0, 0, 0,
    0, 0, 5, 0x11, 0x22, 0x33, 0x44, 0x55, 0x66, 0x77, 0x88, 0, 1, 0, 0, 0xFF, 0, 0, 0,
];

/// But for its HMAC.
const SIGNED: [u8; 112] = [
    0, 0, 0, 5, 0, 0, 0, 0, 0, 0, 0, 0, 0, 0, 0, 0, 0x11, 0x22, 0x33, 0x44, 0x55, 0x66, 0x77, 0x88,
    0, 1, 0, 7, 0, 0, 0, 0, 0, 0, 0, 0, 0, 0, 0, 0, 0, 0, 0, 0, 0, 0, 0, 0, 0, 0, 0, 0, 0, 0, 0, 0,
    0, 0, 0, 0, 0, 0, 0, 0, 0, 0, 0, 0, 0, 0, 0, 0, 0, 0, 0, 0, 0, 0, 0, 0, 0, 0, 0, 0, 0, 0, 0, 0,
    0, 0, 0, 0, 0, 0, 0, 0, 0, 0, 0, 0, 0, 0, 0, 0, 0, 0, 0, 0, 0, 0, 0, 0,
];

/// But for its number and HMAC.
const SIGNED_REPLY: [u8; 112] = [
    0, 0, 0, 0, 0, 0, 0, 0, 0, 0, 0, 0, 0, 0, 0, 0, 0x83, 0xAA, 0x7E, 0x81, 0xFF, 0xFF, 0xFF, 0xFB,
    0, 1, 0, 7, 0, 0, 0, 0, 0x83, 0xAA, 0x7E, 0x81, 0, 0, 0, 0, 0, 0, 0, 0, 0, 0, 0, 0, 0, 0, 0, 5,
    0, 0, 0, 0, 0, 0, 0, 0, 0, 0, 0, 0, 0x11, 0x22, 0x33, 0x44, 0x55, 0x66, 0x77, 0x88, 0, 1, 0, 0,
    0, 0, 0, 0, 0xFF, 0, 0, 0, 0, 0, 0, 0, 0, 0, 0, 0, 0, 0, 0, 0, 0, 0, 0, 0, 0, 0, 0, 0, 0, 0, 0,
    0, 0, 0, 0, 0,
];

const TWAMP: [u8; 14] = [
    0, 0, 0, 5, 0x11, 0x22, 0x33, 0x44, 0x55, 0x66, 0x77, 0x88, 0, 1,
];

/// But for its number.
const TWAMP_REPLY: [u8; 41] = [
    0, 0, 0, 0, 0x83, 0xAA, 0x7E, 0x81, 0xFF, 0xFF, 0xFF, 0xFB, 0, 1, 0, 0, 0x83, 0xAA, 0x7E, 0x81,
    0, 0, 0, 0, 0, 0, 0, 5, 0x11, 0x22, 0x33, 0x44, 0x55, 0x66, 0x77, 0x88, 0, 1, 0, 0, 0xFF,
];

/// The base packet with these octets at these places, and then the tail.
fn made(
    rt: &impl Abort,
    alloc: Global,
    base: &[u8],
    places: &[(usize, u8)],
    tail: &[u8],
) -> Vec<u8> {
    let mut octets = Vec::from_slice(alloc, base).expect(rt, "a packet");
    for (place, octet) in places {
        let Some(at) = octets.get_mut(*place) else {
            panic!(rt; "no octet {place}");
        };
        *at = *octet;
    }
    octets.extend_from_slice(tail).expect(rt, "room");
    octets
}

/// The packet up to its HMAC, with this number, and then the HMAC.
fn sealed(
    rt: &impl Abort,
    alloc: Global,
    base: &[u8; 112],
    number: u8,
    hmac: &[u8; 16],
) -> Vec<u8> {
    made(rt, alloc, &base[..96], &[(3, number)], hmac)
}

impl Packet<'_> {
    pub fn octets(&self, rt: &impl Abort, alloc: Global) -> Vec<u8> {
        match *self {
            Packet::Plain(tail) => made(rt, alloc, &PLAIN, &[], tail),
            Packet::Ntp(number, multiplier, tail) => {
                made(rt, alloc, &NTP, &[(3, number), (13, multiplier)], tail)
            }
            Packet::Ptp(number) => made(rt, alloc, &PTP, &[(3, number)], &[]),
            Packet::Signed(hmac) => sealed(rt, alloc, &SIGNED, 5, hmac),
            Packet::SignedReply(number, hmac) => sealed(rt, alloc, &SIGNED_REPLY, number, hmac),
            Packet::Twamp => made(rt, alloc, &TWAMP, &[], &[]),
            Packet::TwampReply(number) => made(rt, alloc, &TWAMP_REPLY, &[(3, number)], &[]),
        }
    }
}
