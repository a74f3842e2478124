//! Sessions of a client of TWAMP-Control, and sessions that wait, while a worker answers.

use super::NOTHING;
use super::packets::Packet;
use super::play::{Run, Step, expect};
use crate::shared::SECOND;
use control_desk::{DeskEnd, DeskTally};
use receive_worker::Tally;

const CLIENTS: &str =
    "locals = [\"192.0.2.10:862\"]\nslots = 1\ntwamp = \"edge\"\n[configs.edge]\n";

/// Set-Up-Response of a client in mode Open (RFC 4656, section 3.1).
const SET_UP: [u8; 164] = [
    0, 0, 0, 0x61, 0, 0, 0, 0, 0, 0, 0, 0, 0, 0, 0, 0, 0, 0, 0, 0, 0, 0, 0, 0, 0, 0, 0, 0, 0, 0, 0,
    0, 0, 0, 0, 0, 0, 0, 0, 0, 0, 0, 0, 0, 0, 0, 0, 0, 0, 0, 0, 0, 0, 0, 0, 0, 0, 0, 0, 0, 0, 0, 0,
    0, 0, 0, 0, 0, 0, 0, 0, 0, 0, 0, 0, 0, 0, 0, 0, 0, 0, 0, 0, 0, 0, 0, 0, 0, 0, 0, 0, 0, 0, 0, 0,
    0, 0, 0, 0, 0, 0, 0, 0, 0, 0, 0, 0, 0, 0, 0, 0, 0, 0, 0, 0, 0, 0, 0, 0, 0, 0, 0, 0, 0, 0, 0, 0,
    0, 0, 0, 0, 0, 0, 0, 0, 0, 0, 0, 0, 0, 0, 0, 0, 0, 0, 0, 0, 0, 0, 0, 0, 0, 0, 0, 0, 0, 0, 0, 0,
    0, 0, 0, 0, 0,
];

/// Its Request-TW-Session of a session of port 6000, with a Timeout of two seconds (RFC 5357, section 3.5).
const REQUEST: [u8; 112] = [
    5, 4, 0, 0, 0, 0, 0, 0, 0, 0, 0, 0, 0x17, 0x70, 0x13, 0x89, 0, 0, 0, 0, 0, 0, 0, 0, 0, 0, 0, 0,
    0, 0, 0, 0, 0, 0, 0, 0, 0, 0, 0, 0, 0, 0, 0, 0, 0, 0, 0, 0, 0, 0, 0, 0, 0, 0, 0, 0, 0, 0, 0, 0,
    0, 0, 0, 0, 0, 0, 0, 0, 0, 0, 0, 0, 0, 0, 0, 0, 0, 0, 0, 2, 0, 0, 0, 0, 0, 0, 0, 0, 0, 0, 0, 0,
    0, 0, 0, 0, 0, 0, 0, 0, 0, 0, 0, 0, 0, 0, 0, 0, 0, 0, 0, 0,
];

/// Its Start-Sessions.
const START: [u8; 32] = [
    2, 0, 0, 0, 0, 0, 0, 0, 0, 0, 0, 0, 0, 0, 0, 0, 0, 0, 0, 0, 0, 0, 0, 0, 0, 0, 0, 0, 0, 0, 0, 0,
];

/// Its Stop-Sessions, of one session.
const STOP: [u8; 32] = [
    3, 0, 0, 0, 0, 0, 0, 1, 0, 0, 0, 0, 0, 0, 0, 0, 0, 0, 0, 0, 0, 0, 0, 0, 0, 0, 0, 0, 0, 0, 0, 0,
];

/// Server Greeting of a desk that was started at moment 0.
const GREETING: [u8; 64] = [
    0, 0, 0, 0, 0, 0, 0, 0, 0, 0, 0, 0, 0, 0, 0, 0x61, 0, 0, 0, 0, 0, 0, 0, 0, 0, 0, 0, 0, 0, 0, 0,
    0, 0, 0, 0, 0, 0, 0, 0, 0, 0, 0, 0, 0, 0, 0, 0, 0, 0, 0, 4, 0, 0, 0, 0, 0, 0, 0, 0, 0, 0, 0, 0,
    0,
];

/// Its Server-Start.
const SERVER_START: [u8; 48] = [
    0, 0, 0, 0, 0, 0, 0, 0, 0, 0, 0, 0, 0, 0, 0, 0, 0, 0, 0, 0, 0, 0, 0, 0, 0, 0, 0, 0, 0, 0, 0, 0,
    0x83, 0xaa, 0x7e, 0x80, 0, 0, 0, 0, 0, 0, 0, 0, 0, 0, 0, 0,
];

/// Its Accept-Session, where it was asked at second 5.
const ACCEPT: [u8; 48] = [
    0, 0, 3, 0x5e, 0, 0, 0, 0, 0, 0, 0, 1, 0, 0, 0, 1, 0x2a, 5, 0xf2, 0, 0, 0, 0, 0, 0, 0, 0, 0, 0,
    0, 0, 0, 0, 0, 0, 0, 0, 0, 0, 0, 0, 0, 0, 0, 0, 0, 0, 0,
];

/// Its Start-Ack.
const START_ACK: [u8; 32] = [
    0, 0, 0, 0, 0, 0, 0, 0, 0, 0, 0, 0, 0, 0, 0, 0, 0, 0, 0, 0, 0, 0, 0, 0, 0, 0, 0, 0, 0, 0, 0, 0,
];

const TALKS: [Step; 16] = [
    Step::Client(&GREETING),
    Step::Talk(0, &SET_UP, &SERVER_START),
    Step::Talk(5 * SECOND, &REQUEST, &ACCEPT),
    Step::Takes(0, 6000, Packet::Twamp),
    Step::Talk(5 * SECOND, &START, &START_ACK),
    Step::Takes(0, 6000, Packet::Twamp),
    Step::Sends(0, 6000, Packet::TwampReply(0)),
    Step::Talk(7 * SECOND, &STOP, b""),
    Step::Takes(0, 6000, Packet::Twamp),
    Step::Sends(0, 6000, Packet::TwampReply(1)),
    Step::Tick(9 * SECOND - 1),
    Step::Takes(0, 6000, Packet::Twamp),
    Step::Sends(0, 6000, Packet::TwampReply(2)),
    Step::Tick(9 * SECOND),
    Step::Takes(0, 6000, Packet::Twamp),
    Step::End(9 * SECOND),
];

#[test]
fn the_session_of_a_client_is_answered_from_its_start_to_its_timeout(rt: HostRuntime) {
    let play = Run {
        text: CLIENTS,
        moment: 0,
        steps: &TALKS,
        tallies: &[Tally {
            taken: 5,
            sent: 3,
            no_session: 2,
            ..NOTHING
        }],
        desk: DeskTally {
            events: 8,
            faults: 0,
            closed: 1,
            expired: 0,
            end: DeskEnd::End,
        },
        live: 0,
    };
    expect(&rt, rt.alloc(), &play);
}

const WAITING: &str =
    "locals = [\"192.0.2.10:862\"]\n[configs.edge]\n[[sessions]]\npeer = \"192.0.2.1:5000\"\nssid = 7\nconfig = \"edge\"\nwait = 10\n";

const PLAIN: Packet = Packet::Plain(b"");

const WAITS: [Step; 11] = [
    Step::Tick(15 * SECOND - 1),
    Step::Takes(0, 5000, PLAIN),
    Step::Sends(0, 5000, Packet::Ntp(0, 1, b"")),
    Step::Tick(15 * SECOND),
    Step::Tick(25 * SECOND - 1),
    Step::Takes(0, 5000, PLAIN),
    Step::Sends(0, 5000, Packet::Ntp(1, 1, b"")),
    Step::Tick(25 * SECOND),
    Step::Tick(35 * SECOND),
    Step::Takes(0, 5000, PLAIN),
    Step::End(35 * SECOND),
];

#[test]
fn a_session_that_is_answered_lives_on_and_expires_once_it_is_silent(rt: HostRuntime) {
    let play = Run {
        text: WAITING,
        moment: 5 * SECOND,
        steps: &WAITS,
        tallies: &[Tally {
            taken: 3,
            sent: 2,
            no_session: 1,
            ..NOTHING
        }],
        desk: DeskTally {
            events: 6,
            faults: 0,
            closed: 0,
            expired: 1,
            end: DeskEnd::End,
        },
        live: 0,
    };
    expect(&rt, rt.alloc(), &play);
}
