//! Sessions that an operator opens, changes and closes in a run, while workers answer.

use super::NOTHING;
use super::packets::Packet;
use super::play::{Run, Step, expect};
use control_desk::{DeskEnd, DeskTally};
use receive_worker::Tally;

/// Of a desk that an operator has ended.
const ENDED: DeskTally = DeskTally {
    events: 0,
    faults: 0,
    closed: 0,
    expired: 0,
    end: DeskEnd::Quit,
};

/// Four configurations, and the session of no file.
const ONE_WORKER: &str =
    "locals = [\"192.0.2.10:862\"]\nslots = 4\n[configs.edge]\n[configs.core]\nformat = \"ptp\"\noffset = 37\n[configs.still]\nstateful = false\n";

const OPENS: &[u8] = b"open 0 192.0.2.1:5000 plain 7 edge 0\n";

const COUNTS: &[u8] = b"count 0 192.0.2.1:5000 plain 7\n";

const CLOSES: &[u8] = b"close 0 192.0.2.1:5000 plain 7\n";

const PLAIN: Packet = Packet::Plain(b"");

const CHANGES: [Step; 21] = [
    Step::Operator,
    Step::Takes(0, 5000, PLAIN),
    Step::Line(OPENS, b"ok\n"),
    Step::Takes(0, 5000, PLAIN),
    Step::Sends(0, 5000, Packet::Ntp(0, 1, b"")),
    Step::Line(b"set 0 192.0.2.1:5000 plain 7 core\n", b"ok\n"),
    Step::Takes(0, 5000, PLAIN),
    Step::Sends(0, 5000, Packet::Ptp(1)),
    Step::Line(b"set 0 192.0.2.1:5000 plain 7 still\n", b"ok\n"),
    Step::Takes(0, 5000, PLAIN),
    Step::Sends(0, 5000, Packet::Ntp(5, 1, b"")),
    Step::Line(b"set 0 192.0.2.1:5000 plain 7 edge\n", b"ok\n"),
    Step::Takes(0, 5000, PLAIN),
    Step::Sends(0, 5000, Packet::Ntp(3, 1, b"")),
    Step::Line(COUNTS, b"ok 4\n"),
    Step::Line(CLOSES, b"ok 4\n"),
    Step::Takes(0, 5000, PLAIN),
    Step::Line(OPENS, b"ok\n"),
    Step::Takes(0, 5000, PLAIN),
    Step::Sends(0, 5000, Packet::Ntp(0, 1, b"")),
    Step::Line(b"quit\n", b"bye\n"),
];

#[test]
fn a_session_comes_changes_and_goes_while_a_worker_answers(rt: HostRuntime) {
    let play = Run {
        text: ONE_WORKER,
        moment: 0,
        steps: &CHANGES,
        tallies: &[Tally {
            taken: 7,
            sent: 5,
            no_session: 2,
            ..NOTHING
        }],
        desk: DeskTally {
            events: 9,
            closed: 1,
            ..ENDED
        },
        live: 1,
    };
    expect(&rt, rt.alloc(), &play);
}

/// A configuration with Multiplier 10 in 76 octets, under the name `new`.
const NAMES: &[u8] =
    b"config new 0100000a000000000000002800000000000000000000000000000000000000000000000000000000000000000000000000000000000000000000000000000000000000000000000000000000\n";

const NAMED: [Step; 12] = [
    Step::Operator,
    Step::Line(OPENS, b"ok\n"),
    Step::Takes(0, 5000, PLAIN),
    Step::Sends(0, 5000, Packet::Ntp(0, 1, b"")),
    Step::Line(
        b"set 0 192.0.2.1:5000 plain 7 new\n",
        b"refused no config\n",
    ),
    Step::Takes(0, 5000, PLAIN),
    Step::Sends(0, 5000, Packet::Ntp(1, 1, b"")),
    Step::Line(NAMES, b"ok\n"),
    Step::Line(b"set 0 192.0.2.1:5000 plain 7 new\n", b"ok\n"),
    Step::Takes(0, 5000, PLAIN),
    Step::Sends(0, 5000, Packet::Ntp(2, 10, b"")),
    Step::Line(b"quit\n", b"bye\n"),
];

#[test]
fn a_session_may_get_a_configuration_that_was_named_in_the_run(rt: HostRuntime) {
    let play = Run {
        text: ONE_WORKER,
        moment: 0,
        steps: &NAMED,
        tallies: &[Tally {
            taken: 3,
            sent: 3,
            ..NOTHING
        }],
        desk: DeskTally {
            events: 6,
            closed: 0,
            ..ENDED
        },
        live: 1,
    };
    expect(&rt, rt.alloc(), &play);
}

const KEYS: &str =
    "locals = [\"192.0.2.10:862\"]\n[configs]\nold = { key = \"000102030405060708090a0b0c0d0e0f\" }\nnew = { key = \"0f0e0d0c0b0a09080706050403020100\" }\n[[sessions]]\npeer = \"192.0.2.1:5000\"\nmode = \"auth\"\nssid = 7\nconfig = \"old\"\n";

/// What the old key and the new one make of the request.
const OLD_HMAC: [u8; 16] = [
    0xC8, 0x71, 0x56, 0x3C, 0xFB, 0xC6, 0xF4, 0xC7, 0xB1, 0x66, 0x95, 0xC4, 0xC5, 0xE5, 0x5F, 0x9C,
];

const NEW_HMAC: [u8; 16] = [
    0x5C, 0xEC, 0x17, 0x18, 0x21, 0x48, 0xE8, 0x36, 0x73, 0xCA, 0xFC, 0x93, 0x15, 0x53, 0xAC, 0xE6,
];

/// What the old key makes of reply 0, and the new one of reply 1.
const OLD_HMAC_OF_0: [u8; 16] = [
    0xFA, 0xB0, 0x6D, 0xB2, 0x5F, 0x4D, 0xB3, 0x12, 0x9E, 0x38, 0x48, 0x43, 0x6B, 0x25, 0x63, 0xA7,
];

const NEW_HMAC_OF_1: [u8; 16] = [
    0x76, 0xA2, 0xCB, 0x86, 0x7E, 0xBE, 0x22, 0x19, 0xED, 0x47, 0x6B, 0xA1, 0x4B, 0x73, 0xFD, 0x24,
];

const JUDGED: [Step; 10] = [
    Step::Takes(0, 5000, Packet::Signed(&NEW_HMAC)),
    Step::Takes(0, 5000, Packet::Signed(&OLD_HMAC)),
    Step::Sends(0, 5000, Packet::SignedReply(0, &OLD_HMAC_OF_0)),
    Step::Operator,
    Step::Line(b"set 0 192.0.2.1:5000 auth 7 new\n", b"ok\n"),
    Step::Takes(0, 5000, Packet::Signed(&OLD_HMAC)),
    Step::Takes(0, 5000, Packet::Signed(&NEW_HMAC)),
    Step::Sends(0, 5000, Packet::SignedReply(1, &NEW_HMAC_OF_1)),
    Step::Line(b"count 0 192.0.2.1:5000 auth 7\n", b"ok 2\n"),
    Step::Line(b"quit\n", b"bye\n"),
];

#[test]
fn a_request_is_judged_and_its_reply_signed_under_the_key_of_the_day(rt: HostRuntime) {
    let play = Run {
        text: KEYS,
        moment: 0,
        steps: &JUDGED,
        tallies: &[Tally {
            taken: 4,
            sent: 2,
            bad_hmac: 2,
            ..NOTHING
        }],
        desk: DeskTally {
            events: 4,
            closed: 0,
            ..ENDED
        },
        live: 1,
    };
    expect(&rt, rt.alloc(), &play);
}

const TYPES: &str =
    "locals = [\"192.0.2.10:862\"]\nslots = 1\n[configs]\nedge = {}\nbare = { tlvs = [] }\npaths = { tlvs = [10] }\n";

/// Direct Measurement of a sender, which comes back so where it isn't understood, and that of reply 0 (RFC 8972, section
/// 4.5).
const MEASURES: [u8; 16] = [0x80, 5, 0, 12, 0, 0, 0, 9, 0, 0, 0, 0, 0, 0, 0, 0];

const MEASURED: [u8; 16] = [0, 5, 0, 12, 0, 0, 0, 9, 0, 0, 0, 1, 0, 0, 0, 0];

/// A Return Path whose Control Code asks for no reply (RFC 9503, section 4.1.1).
const WANTS_NO_REPLY: [u8; 12] = [0x80, 10, 0, 8, 0x80, 1, 0, 4, 0, 0, 0, 0];

const ANSWERED: [Step; 13] = [
    Step::Operator,
    Step::Line(OPENS, b"ok\n"),
    Step::Takes(0, 5000, Packet::Plain(&MEASURES)),
    Step::Sends(0, 5000, Packet::Ntp(0, 1, &MEASURED)),
    Step::Line(b"set 0 192.0.2.1:5000 plain 7 bare\n", b"ok\n"),
    Step::Takes(0, 5000, Packet::Plain(&MEASURES)),
    Step::Sends(0, 5000, Packet::Ntp(1, 1, &MEASURES)),
    Step::Line(b"set 0 192.0.2.1:5000 plain 7 paths\n", b"ok\n"),
    Step::Takes(0, 5000, Packet::Plain(&WANTS_NO_REPLY)),
    Step::Line(b"set 0 192.0.2.1:5000 plain 7 bare\n", b"ok\n"),
    Step::Takes(0, 5000, Packet::Plain(&WANTS_NO_REPLY)),
    Step::Sends(0, 5000, Packet::Ntp(2, 1, &WANTS_NO_REPLY)),
    Step::Line(b"quit\n", b"bye\n"),
];

#[test]
fn a_tail_is_answered_by_the_types_of_the_day(rt: HostRuntime) {
    let play = Run {
        text: TYPES,
        moment: 0,
        steps: &ANSWERED,
        tallies: &[Tally {
            taken: 4,
            sent: 3,
            no_reply: 1,
            ..NOTHING
        }],
        desk: DeskTally {
            events: 6,
            closed: 0,
            ..ENDED
        },
        live: 1,
    };
    expect(&rt, rt.alloc(), &play);
}

const TWO_WORKERS: &str =
    "locals = [\"192.0.2.10:862\"]\nworkers = 2\nslots = 1\n[configs.edge]\n[configs.core]\nformat = \"ptp\"\noffset = 37\n";

const SHARED: [Step; 15] = [
    Step::Operator,
    Step::Line(OPENS, b"ok\n"),
    Step::Takes(0, 5000, PLAIN),
    Step::Sends(0, 5000, Packet::Ntp(0, 1, b"")),
    Step::Takes(1, 5000, PLAIN),
    Step::Sends(1, 5000, Packet::Ntp(1, 1, b"")),
    Step::Line(b"set 0 192.0.2.1:5000 plain 7 core\n", b"ok\n"),
    Step::Takes(1, 5000, PLAIN),
    Step::Sends(1, 5000, Packet::Ptp(2)),
    Step::Takes(0, 5000, PLAIN),
    Step::Sends(0, 5000, Packet::Ptp(3)),
    Step::Line(CLOSES, b"ok 4\n"),
    Step::Takes(1, 5000, PLAIN),
    Step::Takes(0, 5000, PLAIN),
    Step::Line(b"quit\n", b"bye\n"),
];

#[test]
fn two_workers_share_the_numbers_and_the_changes_of_a_session(rt: HostRuntime) {
    let play = Run {
        text: TWO_WORKERS,
        moment: 0,
        steps: &SHARED,
        tallies: &[
            Tally {
                taken: 3,
                sent: 2,
                no_session: 1,
                ..NOTHING
            },
            Tally {
                taken: 3,
                sent: 2,
                no_session: 1,
                ..NOTHING
            },
        ],
        desk: DeskTally {
            events: 5,
            closed: 1,
            ..ENDED
        },
        live: 0,
    };
    expect(&rt, rt.alloc(), &play);
}

const LEFT: [Step; 14] = [
    Step::Operator,
    Step::Line(OPENS, b"ok\n"),
    Step::Takes(0, 5000, PLAIN),
    Step::Sends(0, 5000, Packet::Ntp(0, 1, b"")),
    Step::Takes(1, 5001, PLAIN),
    Step::Line(
        b"open 0 192.0.2.1:5001 plain 7 core 0\n",
        b"refused full live 1 reserved 0 retired 0 held 0\n",
    ),
    Step::Line(CLOSES, b"ok 1\n"),
    Step::Line(b"open 0 192.0.2.1:5001 plain 7 core 0\n", b"ok\n"),
    Step::Takes(0, 5000, PLAIN),
    Step::Takes(1, 5001, PLAIN),
    Step::Sends(1, 5001, Packet::Ptp(0)),
    Step::Takes(0, 5001, PLAIN),
    Step::Sends(0, 5001, Packet::Ptp(1)),
    Step::Line(b"quit\n", b"bye\n"),
];

#[test]
fn a_closed_session_leaves_its_slot_to_another(rt: HostRuntime) {
    let play = Run {
        text: TWO_WORKERS,
        moment: 0,
        steps: &LEFT,
        tallies: &[
            Tally {
                taken: 3,
                sent: 2,
                no_session: 1,
                ..NOTHING
            },
            Tally {
                taken: 2,
                sent: 1,
                no_session: 1,
                ..NOTHING
            },
        ],
        desk: DeskTally {
            events: 6,
            closed: 1,
            ..ENDED
        },
        live: 1,
    };
    expect(&rt, rt.alloc(), &play);
}
