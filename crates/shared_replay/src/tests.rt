//! A session is opened, drawn from and closed, and the answers are those that were worked out by hand.

ghost use Rattle.std.specs.Prelude.{◌≤◌, length};
ghost use Rattle.replay_format.specs.Answers.{answer_limit};

use crate::{ANSWER_ROOM, Sessions};
use replay_format::{Parsed, read_record};
use std::alloc::{AllocError, Global};
use std::test::Fail;

/// An opening of a plain session of 192.0.2.1 port 5000 with SSID 7, without the 72 zeros at its end.
const OPENING: [u8; 36] = [
    1, 0, 0, 0, 103, 0, 0, 4, 192, 0, 2, 1, 0, 0, 0, 0, 0, 0, 0, 0, 0, 0, 0, 0, 0x13, 0x88, 0, 0,
    7, 0, 0, 0, 1, 0, 0, 1,
];

/// A datagram of it, without the 28 zeros at its end.
const DATAGRAM: [u8; 60] = [
    4, 0, 0, 0, 83, 0, 0, 4, 192, 0, 2, 1, 0, 0, 0, 0, 0, 0, 0, 0, 0, 0, 0, 0, 0x13, 0x88, 0, 0, 0,
    0, 0, 0, 0, 0, 0, 0, 0, 0, 0, 0, 0x3B, 0x9A, 0xC9, 0xFF, 0, 0, 0, 5, 0x11, 0x22, 0x33, 0x44,
    0x55, 0x66, 0x77, 0x88, 0, 1, 0, 7,
];

const CLOSING: [u8; 29] = [
    3, 0, 0, 0, 24, 0, 0, 4, 192, 0, 2, 1, 0, 0, 0, 0, 0, 0, 0, 0, 0, 0, 0, 0, 0x13, 0x88, 0, 0, 7,
];

/// The answer to the first datagram: its reply has number 0.
const REPLY: [u8; 75] = [
    0x84, 0, 0, 0, 70, 0, 0, 0, 4, 192, 0, 2, 1, 0, 0, 0, 0, 0, 0, 0, 0, 0, 0, 0, 0, 0x13, 0x88, 0,
    0, 0, 0, 0, 0, 0, 0, 0x83, 0xAA, 0x7E, 0x80, 0xFF, 0xFF, 0xFF, 0xFB, 0, 1, 0, 7, 0x83, 0xAA,
    0x7E, 0x80, 0, 0, 0, 0, 0, 0, 0, 5, 0x11, 0x22, 0x33, 0x44, 0x55, 0x66, 0x77, 0x88, 0, 1, 0, 0,
    0xFF, 0, 0, 0,
];

/// These octets, and zeros behind them.
fn padded(alloc: Global, octets: &[u8], zeros: &[u8]) -> Result<Vec<u8>, AllocError> {
    let mut all = Vec::new(alloc);
    all.extend_from_slice(octets)?;
    all.extend_from_slice(zeros)?;
    Ok(all)
}

/// Answers the record that the octets are.
fn answer_to(sessions: &mut Sessions, octets: &[u8], out: &mut [u8]) -> usize
    requires { ANSWER_ROOM ≤ length out.old }
    ensures { result ≤ answer_limit }
{
    match read_record(octets) {
        Parsed::Record(record, _) => sessions.answer(&record, out),
        Parsed::More | Parsed::Bad => 0,
    }
}

#[test]
fn a_session_is_opened_once_and_its_closing_tells_its_draws(rt: HostRuntime) -> Result<(), Fail> {
    let alloc = rt.alloc();
    let mut sessions = Sessions::make(alloc).expect(&rt, "ample memory");
    let mut out = vec![in alloc; 0u8; ANSWER_ROOM]?;
    let opening = padded(alloc, &OPENING, &[0; 72])?;
    let datagram = padded(alloc, &DATAGRAM, &[0; 28])?;

    let len = answer_to(&mut sessions, &opening, &mut out);
    assert_eq!(rt; &out[..len], [0x81, 0, 0, 0, 1, 0].as_slice());
    let len = answer_to(&mut sessions, &opening, &mut out);
    assert_eq!(rt; &out[..len], [0x81, 0, 0, 0, 1, 1].as_slice());
    let len = answer_to(&mut sessions, &datagram, &mut out);
    assert_eq!(rt; &out[..len], REPLY.as_slice());
    let len = answer_to(&mut sessions, &CLOSING, &mut out);
    assert_eq!(rt; &out[..len], [0x83, 0, 0, 0, 5, 0, 0, 0, 0, 1].as_slice());
    let len = answer_to(&mut sessions, &datagram, &mut out);
    assert_eq!(rt; &out[..len], [0x84, 0, 0, 0, 1, 1].as_slice());
    let len = answer_to(&mut sessions, &CLOSING, &mut out);
    assert_eq!(rt; &out[..len], [0x83, 0, 0, 0, 1, 6].as_slice());
    Ok(())
}
