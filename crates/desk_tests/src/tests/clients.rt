//! Clients of TWAMP-Control: their octets, their sessions, and their ends (RFC 5357, section 3; RFC 4656, section 3).

use super::{
    FILE, Happens, Limits, NO_LIMITS, ONE_SLOT, Played, SECOND, Setup, Wanted, client_octets,
    expect_run, one_by_one, part, play, sent, server_octets,
};
use net_io::ConnKind;
use std::alloc::Global;
use std::process::Abort;

const OPENS: (u64, Happens) = (0, Happens::Opens(7, ConnKind::Control));

#[test]
fn a_client_has_a_session_until_its_timeout(rt: HostRuntime) {
    let octets = client_octets();
    let replies = server_octets();
    for (moment, live, closed) in [(9 * SECOND - 1, 1, 0), (9 * SECOND, 0, 1)] {
        let events = [
            OPENS,
            (0, Happens::Gives(7, part(&rt, &octets, 0, 164))),
            (5 * SECOND, Happens::Gives(7, part(&rt, &octets, 164, 308))),
            (7 * SECOND, Happens::Gives(7, part(&rt, &octets, 308, 340))),
            (moment, Happens::Ticks),
        ];
        let wanted = [
            Wanted::Sent(7, replies.as_slice()),
            Wanted::HungUp(7, 0),
            Wanted::Sessions(live, closed, 0),
        ];
        expect_run(&rt, rt.alloc(), &ONE_SLOT, &events, &wanted, 0);
    }
}

#[test]
fn every_cut_of_a_clients_octets_gives_the_same(rt: HostRuntime) {
    let octets = client_octets();
    let replies = server_octets();
    let wanted = [
        Wanted::Sent(7, replies.as_slice()),
        Wanted::HungUp(7, 0),
        Wanted::Sessions(0, 1, 0),
    ];
    for cut in 1..340usize {
        let events = [
            OPENS,
            (5 * SECOND, Happens::Gives(7, &octets[..cut])),
            (5 * SECOND, Happens::Gives(7, &octets[cut..])),
            (7 * SECOND, Happens::Ticks),
        ];
        expect_run(&rt, rt.alloc(), &ONE_SLOT, &events, &wanted, cut);
    }
}

#[test]
fn a_clients_octets_may_come_one_by_one(rt: HostRuntime) {
    let octets = client_octets();
    let replies = server_octets();
    let wanted = [
        Wanted::Sent(7, replies.as_slice()),
        Wanted::HungUp(7, 0),
        Wanted::Sessions(1, 0, 0),
    ];
    let events = one_by_one(&rt, rt.alloc(), OPENS, 5 * SECOND, 7, &octets);
    expect_run(&rt, rt.alloc(), &ONE_SLOT, events.as_slice(), &wanted, 0);
}

/// How many of its octets a client gives at second 5, and what has come of it at a Tick: how often it was hung up, and how many
/// sessions are live, were closed, and have expired.
#[test]
fn a_silent_client_is_hung_up_after_900_seconds(rt: HostRuntime) {
    let octets = client_octets();
    for (count, moment, hang_ups, (live, closed, expired)) in [
        (0, 900 * SECOND - 1, 0, (0, 0, 0)),
        (0, 900 * SECOND, 1, (0, 0, 0)),
        (1, 905 * SECOND - 1, 0, (0, 0, 0)),
        (1, 905 * SECOND, 1, (0, 0, 0)),
        (276, 905 * SECOND - 1, 0, (0, 0, 0)),
        (276, 905 * SECOND, 1, (0, 0, 0)),
        (308, 905 * SECOND - 1, 0, (1, 0, 0)),
        (308, 905 * SECOND, 0, (0, 0, 1)),
        (340, 905 * SECOND - 1, 0, (0, 1, 0)),
        (340, 905 * SECOND, 1, (0, 1, 0)),
    ] {
        let events = [
            OPENS,
            (5 * SECOND, Happens::Gives(7, part(&rt, &octets, 0, count))),
            (moment, Happens::Ticks),
        ];
        let wanted = [
            Wanted::HungUp(7, hang_ups),
            Wanted::Sessions(live, closed, expired),
        ];
        expect_run(&rt, rt.alloc(), &ONE_SLOT, &events, &wanted, count);
    }
}

const NOTHING: &[u8] = &[];

/// An octet that is no command number.
const UNKNOWN: &[u8] = b"\x06";

/// A Stop-Sessions, by its Number of Sessions.
const STOP_NONE: &[u8] = &[
    3, 0, 0, 0, 0, 0, 0, 0, 0, 0, 0, 0, 0, 0, 0, 0, 0, 0, 0, 0, 0, 0, 0, 0, 0, 0, 0, 0, 0, 0, 0, 0,
];

const STOP_ONE: &[u8] = &[
    3, 0, 0, 0, 0, 0, 0, 1, 0, 0, 0, 0, 0, 0, 0, 0, 0, 0, 0, 0, 0, 0, 0, 0, 0, 0, 0, 0, 0, 0, 0, 0,
];

const STOP_TWO: &[u8] = &[
    3, 0, 0, 0, 0, 0, 0, 2, 0, 0, 0, 0, 0, 0, 0, 0, 0, 0, 0, 0, 0, 0, 0, 0, 0, 0, 0, 0, 0, 0, 0, 0,
];

/// How many of its octets a client gives at second 5, what it gives behind them, what happens to its connection then, and what
/// has come of it at a Tick: how often it was hung up, and how many sessions are live and were closed. Its session ends at
/// second 7 where it was stopped.
#[test]
fn a_connection_ends_as_the_table_says(rt: HostRuntime) {
    let octets = client_octets();
    let request = part(&rt, &octets, 164, 276);
    let closes = Happens::Closes(7);
    let stays = Happens::Ticks;
    for (count, more, then, second, (hang_ups, live, closed)) in [
        (0, NOTHING, closes, 6, (0, 0, 0)),
        (276, NOTHING, closes, 6, (0, 0, 0)),
        (308, NOTHING, closes, 6, (0, 0, 1)),
        (340, NOTHING, closes, 6, (0, 1, 0)),
        (340, NOTHING, closes, 7, (0, 0, 1)),
        (308, STOP_TWO, stays, 6, (1, 1, 0)),
        (308, STOP_TWO, stays, 7, (1, 0, 1)),
        (276, STOP_ONE, stays, 6, (1, 0, 0)),
        (308, request, stays, 6, (1, 0, 1)),
        (276, UNKNOWN, stays, 6, (1, 0, 0)),
    ] {
        let events = [
            OPENS,
            (5 * SECOND, Happens::Gives(7, part(&rt, &octets, 0, count))),
            (5 * SECOND, Happens::Gives(7, more)),
            (5 * SECOND, then),
            (second * SECOND, Happens::Ticks),
        ];
        let wanted = [
            Wanted::HungUp(7, hang_ups),
            Wanted::Sessions(live, closed, 0),
        ];
        expect_run(&rt, rt.alloc(), &ONE_SLOT, &events, &wanted, count);
    }
}

#[test]
fn a_client_without_sessions_may_start_and_stop(rt: HostRuntime) {
    let octets = client_octets();
    let events = [
        OPENS,
        (0, Happens::Gives(7, part(&rt, &octets, 0, 164))),
        (0, Happens::Gives(7, part(&rt, &octets, 276, 308))),
        (0, Happens::Gives(7, STOP_NONE)),
        (0, Happens::Gives(7, part(&rt, &octets, 164, 276))),
    ];
    let mut replies = server_octets();
    replies[112..].fill(0);
    replies[146] = 0x03;
    replies[147] = 0x5E;
    replies[155] = 1;
    let wanted = [
        Wanted::Sent(7, replies.as_slice()),
        Wanted::HungUp(7, 0),
        Wanted::Sessions(0, 0, 0),
    ];
    expect_run(&rt, rt.alloc(), &ONE_SLOT, &events, &wanted, 0);
}

#[test]
fn the_end_of_a_connection_leaves_the_sessions_of_others(rt: HostRuntime) {
    let octets = client_octets();
    let mut others = octets;
    others[177] = 0x71;
    for (last, hang_ups, (live, closed)) in [
        (Happens::Ticks, 0, (1, 1)),
        (Happens::Gives(8, UNKNOWN), 1, (0, 2)),
    ] {
        let events = [
            OPENS,
            (0, Happens::Opens(8, ConnKind::Control)),
            (0, Happens::Gives(7, part(&rt, &octets, 0, 308))),
            (0, Happens::Gives(8, part(&rt, &others, 0, 308))),
            (0, Happens::Closes(7)),
            (0, last),
        ];
        let setup = Setup {
            slots: 2,
            ..ONE_SLOT
        };
        let wanted = [
            Wanted::HungUp(8, hang_ups),
            Wanted::Sessions(live, closed, 0),
        ];
        expect_run(&rt, rt.alloc(), &setup, &events, &wanted, 0);
    }
}

#[test]
fn a_session_that_an_operator_opened_anew_outlives_the_connection(rt: HostRuntime) {
    let octets = client_octets();
    let lines = b"close 0 192.0.2.1:6000 twamp 0\nopen 0 192.0.2.1:6000 twamp 0 edge 0\n";
    let events = [
        OPENS,
        (5 * SECOND, Happens::Gives(7, part(&rt, &octets, 0, 308))),
        (5 * SECOND, Happens::Opens(3, ConnKind::Operator)),
        (5 * SECOND, Happens::Gives(3, lines)),
        (6 * SECOND, Happens::Closes(7)),
    ];
    let setup = Setup {
        slots: 2,
        ..ONE_SLOT
    };
    let mut replies = server_octets();
    replies[119] = 1;
    let wanted = [
        Wanted::Sent(7, replies.as_slice()),
        Wanted::Sent(3, b"ok 0\nok\n"),
        Wanted::HungUp(7, 0),
        Wanted::Sessions(1, 1, 0),
    ];
    expect_run(&rt, rt.alloc(), &setup, &events, &wanted, 0);
}

#[test]
fn a_key_that_is_taken_and_a_full_table_are_told_alike(rt: HostRuntime) {
    let octets = client_octets();
    let mut again = octets;
    again[177] = 0x71;
    let events = [
        OPENS,
        (5 * SECOND, Happens::Gives(7, part(&rt, &octets, 0, 276))),
        (5 * SECOND, Happens::Gives(7, part(&rt, &octets, 164, 276))),
        (5 * SECOND, Happens::Gives(7, part(&rt, &again, 164, 276))),
    ];
    let front = server_octets();
    let mut replies = [0; 256];
    for at in 0..160 {
        replies[at] = front[at];
    }
    replies[160] = 5;
    replies[208] = 5;
    let wanted = [Wanted::Sent(7, replies.as_slice())];
    expect_run(&rt, rt.alloc(), &ONE_SLOT, &events, &wanted, 0);
}

/// Requests that differ from the client's one in two octets, at these places.
fn requests<'a>(
    stop: &impl Abort,
    alloc: Global,
    octets: &'a [u8; 340],
    changes: &'a [(usize, [u8; 2])],
) -> Vec<(u64, Happens<'a>)> {
    let mut events = Vec::new(alloc);
    let set_up = (0, Happens::Gives(7, &octets[..164]));
    events
        .extend_from_slice(&[OPENS, set_up])
        .expect(stop, "room");
    for (at, two) in changes {
        let at = *at;
        assert!(stop; at < 110);
        for piece in [&octets[164..164 + at], two, &octets[166 + at..276]] {
            events
                .push((0, Happens::Gives(7, piece)))
                .expect(stop, "room");
        }
    }
    events
}

/// Ends a test where another Accept or port stands in one of the replies behind Server Greeting and Server-Start.
fn expect_accepted(stop: &impl Abort, octets: &[u8], accepted: &[(u8, u16)]) {
    assert!(stop; accepted.len() <= 20);
    assert_eq!(stop; octets.len(), 112 + 48 * accepted.len());
    for (index, wanted) in accepted.iter().enumerate() {
        match part(stop, octets, 112 + 48 * index, 116 + 48 * index) {
            [accept, _, high, low] => {
                let found = (*accept, u16::from_be_bytes([*high, *low]));
                assert_eq!(stop; found, *wanted, "reply {index}");
            }
            _ => panic!(stop; "four octets"),
        }
    }
}

fn let_requests_go(_events: Vec<(u64, Happens)>, _played: Played, _replies: Vec<u8>) {}

/// Ends a test where such requests are accepted otherwise, by a desk of that file.
fn expect_accepts(
    stop: &impl Abort,
    alloc: Global,
    file: &str,
    changes: &[(usize, [u8; 2])],
    accepted: &[(u8, u16)],
) {
    let octets = client_octets();
    let events = requests(stop, alloc, &octets, changes);
    let setup = Setup {
        file,
        slots: 32,
        limits: NO_LIMITS,
    };
    let played = play(stop, alloc, &setup, events.as_slice());
    let replies = sent(stop, alloc, &played, 7);
    expect_accepted(stop, replies.as_slice(), accepted);
    let_requests_go(events, played, replies);
}

const FOUR_LOCALS: &str =
    "locals = [\"192.0.2.10:862\", \"192.0.2.10:5001\", \"192.0.2.11:5001\", \"0.0.0.0:5002\"]\n\
    twamp = \"edge\"\n[configs.edge]\n";

/// One request four times, by the Receiver Port that it wants.
#[test]
fn the_wanted_port_is_tried_first_and_then_the_others_in_their_order(rt: HostRuntime) {
    for (port, accepted) in [
        ([0x13, 0x89], [(0, 5_001), (0, 862), (0, 5_002), (5, 0)]),
        ([0x13, 0x8A], [(0, 5_002), (0, 862), (0, 5_001), (5, 0)]),
        ([0x00, 0x09], [(0, 862), (0, 5_001), (0, 5_002), (5, 0)]),
    ] {
        expect_accepts(&rt, rt.alloc(), FOUR_LOCALS, &[(14, port); 4], &accepted);
    }
}

#[test]
fn a_connection_has_at_most_16_sessions(rt: HostRuntime) {
    let mut changes = [(12, [0x17, 0]); 17];
    let mut accepted = [(0, 862); 17];
    for port in 0..17u8 {
        changes[port as usize].1[1] = port;
    }
    accepted[16] = (4, 0);
    expect_accepts(&rt, rt.alloc(), FILE, &changes, &accepted);
}

/// Two octets of a request, at their place, and the answer.
#[test]
fn a_request_is_refused_for_a_field_that_is_not_served(rt: HostRuntime) {
    for (at, two, answer) in [
        (1, [5, 0], (3, 0)),
        (1, [6, 0], (3, 0)),
        (2, [1, 0], (3, 0)),
        (3, [1, 0], (3, 0)),
        (6, [0, 1], (3, 0)),
        (10, [0, 1], (0, 862)),
        (12, [0, 0], (3, 0)),
        (16, [198, 51], (0, 862)),
        (32, [198, 51], (3, 0)),
        (64, [0, 1], (0, 862)),
        (86, [0, 1], (3, 0)),
    ] {
        expect_accepts(&rt, rt.alloc(), FILE, &[(at, two)], &[answer]);
    }
}

/// The number of the send that fails, and how many sessions are closed then.
#[test]
fn a_send_that_fails_ends_its_connection(rt: HostRuntime) {
    let octets = client_octets();
    for (call, closed) in [(1, 0), (2, 0), (3, 0), (4, 1)] {
        let events = [OPENS, (0, Happens::Gives(7, part(&rt, &octets, 0, 308)))];
        let setup = Setup {
            limits: Limits {
                fail_send: &[call],
                ..NO_LIMITS
            },
            ..ONE_SLOT
        };
        let wanted = [
            Wanted::Faults(1),
            Wanted::HungUp(7, 1),
            Wanted::Sessions(0, closed, 0),
        ];
        expect_run(&rt, rt.alloc(), &setup, &events, &wanted, 0);
    }
}
