//! Connections that are not kept, calls for the next event that fail, and the four ends of a run.

use super::{
    Happens, Limits, NO_LIMITS, ONE_SLOT, SECOND, Setup, Wanted, client_octets, expect_run, part,
    server_octets,
};
use control_desk::DeskEnd;
use net_io::ConnKind;
use std::alloc::Global;
use std::process::Abort;

/// Operators that open connections 0 to 32, and what happens behind them.
fn operators<'a>(
    stop: &impl Abort,
    alloc: Global,
    then: &[(u64, Happens<'a>)],
) -> Vec<(u64, Happens<'a>)> {
    let mut events = Vec::new(alloc);
    for conn in 0..33 {
        events
            .push((0, Happens::Opens(conn, ConnKind::Operator)))
            .expect(stop, "room");
    }
    events.extend_from_slice(then).expect(stop, "room");
    events
}

#[test]
fn a_33rd_connection_is_hung_up_at_once(rt: HostRuntime) {
    let replies = server_octets();
    let wanted = [
        Wanted::HungUp(31, 0),
        Wanted::HungUp(32, 1),
        Wanted::HungUp(33, 1),
        Wanted::HungUp(34, 0),
        Wanted::Sessions(0, 0, 0),
        Wanted::Sent(33, b""),
        Wanted::Sent(34, part(&rt, &replies, 0, 64)),
    ];
    let others = [
        (0, Happens::Opens(33, ConnKind::Control)),
        (0, Happens::Closes(5)),
        (0, Happens::Opens(34, ConnKind::Control)),
    ];
    let events = operators(&rt, rt.alloc(), &others);
    expect_run(&rt, rt.alloc(), &ONE_SLOT, events.as_slice(), &wanted, 0);
}

#[test]
fn without_a_configuration_no_client_is_kept(rt: HostRuntime) {
    let events = [
        (0, Happens::Opens(7, ConnKind::Control)),
        (0, Happens::Opens(3, ConnKind::Operator)),
        (0, Happens::Gives(3, b"list\n")),
    ];
    let setup = Setup {
        file: "locals = [\"192.0.2.10:862\"]\n[configs.edge]\n",
        ..ONE_SLOT
    };
    let wanted = [
        Wanted::HungUp(7, 1),
        Wanted::Sent(7, b""),
        Wanted::HungUp(3, 0),
        Wanted::Sent(3, b"ok 0\n"),
        Wanted::Sessions(0, 0, 0),
    ];
    expect_run(&rt, rt.alloc(), &setup, &events, &wanted, 0);
}

#[test]
fn a_number_that_is_in_use_or_unknown_is_ignored(rt: HostRuntime) {
    let octets = client_octets();
    let replies = server_octets();
    let events = [
        (0, Happens::Gives(9, b"quit\n")),
        (0, Happens::Closes(9)),
        (0, Happens::Opens(7, ConnKind::Control)),
        (0, Happens::Opens(7, ConnKind::Operator)),
        (5 * SECOND, Happens::Gives(7, part(&rt, &octets, 0, 308))),
    ];
    let wanted = [
        Wanted::Sent(7, replies.as_slice()),
        Wanted::HungUp(7, 0),
        Wanted::HungUp(9, 0),
        Wanted::Sessions(1, 0, 0),
        Wanted::Events(6),
        Wanted::Ends(DeskEnd::End),
    ];
    expect_run(&rt, rt.alloc(), &ONE_SLOT, &events, &wanted, 0);
}

#[test]
fn an_event_waits_where_a_call_fails(rt: HostRuntime) {
    let octets = client_octets();
    let replies = server_octets();
    let wanted = [
        Wanted::Sent(7, replies.as_slice()),
        Wanted::HungUp(7, 0),
        Wanted::Sessions(1, 0, 0),
        Wanted::Events(3),
        Wanted::Faults(1),
    ];
    let events = [
        (0, Happens::Opens(7, ConnKind::Control)),
        (5 * SECOND, Happens::Gives(7, part(&rt, &octets, 0, 308))),
    ];
    for call in [1, 2, 3] {
        let setup = Setup {
            limits: Limits {
                fail_next: &[call],
                ..NO_LIMITS
            },
            ..ONE_SLOT
        };
        expect_run(&rt, rt.alloc(), &setup, &events, &wanted, 0);
    }
}

/// The numbers from 1 up to the last, but for one.
fn numbers(stop: &impl Abort, alloc: Global, last: u64, but: u64) -> Vec<u64> {
    let mut all = Vec::new(alloc);
    for number in 1..=last {
        if number != but {
            all.push(number).expect(stop, "room");
        }
    }
    all
}

fn let_numbers_go(_numbers: Vec<u64>) {}

/// Runs a desk whose calls for the next event fail up to a number, but for the one of the number `but`.
fn expect_failing(
    stop: &impl Abort,
    alloc: Global,
    turns: u64,
    (last, but): (u64, u64),
    events: &[(u64, Happens)],
    wanted: &[Wanted],
) {
    let failing = numbers(stop, alloc, last, but);
    let setup = Setup {
        limits: Limits {
            fail_next: failing.as_slice(),
            turns,
            ..NO_LIMITS
        },
        ..ONE_SLOT
    };
    expect_run(stop, alloc, &setup, events, wanted, 0);
    let_numbers_go(failing);
}

const TICK: &[(u64, Happens)] = &[(0, Happens::Ticks)];

/// Up to which number calls fail, but for the one of this number, which gives a Tick or, without one, the end; and then the
/// events, the faults and the end.
#[test]
fn faults_end_a_desk_only_where_64_come_in_a_row(rt: HostRuntime) {
    for (calls, events, faults, end) in [
        ((63, 64), 2, 63, DeskEnd::End),
        ((64, 65), 0, 64, DeskEnd::Fault),
        ((127, 64), 2, 126, DeskEnd::End),
        ((128, 64), 1, 127, DeskEnd::Fault),
    ] {
        let wanted = [
            Wanted::Events(events),
            Wanted::Faults(faults),
            Wanted::Ends(end),
        ];
        expect_failing(&rt, rt.alloc(), 10_000, calls, TICK, &wanted);
    }
}

const NOTHING: &[(u64, Happens)] = &[];

const QUITS: &[(u64, Happens)] = &[
    (0, Happens::Opens(3, ConnKind::Operator)),
    (0, Happens::Gives(3, b"quit\n")),
];

/// How many calls for the next event there are, up to which number they fail, and the end of an operator's `quit` and of a
/// script without it: the budget comes before 64 faults, and behind an end that the desk or an operator tells.
#[test]
fn the_ends_of_a_run_are_tried_in_their_order(rt: HostRuntime) {
    for (turns, last, events, end) in [
        (0, 0, NOTHING, DeskEnd::Budget),
        (1, 0, NOTHING, DeskEnd::End),
        (1, 1, NOTHING, DeskEnd::Budget),
        (2, 0, QUITS, DeskEnd::Quit),
        (1, 0, QUITS, DeskEnd::Budget),
        (64, 64, NOTHING, DeskEnd::Budget),
        (65, 64, NOTHING, DeskEnd::Fault),
    ] {
        let wanted = [Wanted::Ends(end)];
        expect_failing(&rt, rt.alloc(), turns, (last, 0), events, &wanted);
    }
}
