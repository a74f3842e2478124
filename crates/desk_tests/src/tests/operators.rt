//! Operators: what each line is answered, its refusals in their order, and lines that are cut or too long.

use super::{
    FILE, Happens, Limits, NO_LIMITS, ONE_SLOT, SECOND, Setup, Wanted, client_octets, expect_run,
    one_by_one, part,
};
use control_desk::DeskEnd;
use net_io::ConnKind;
use std::alloc::Global;
use std::process::Abort;

const OPENS: (u64, Happens) = (0, Happens::Opens(3, ConnKind::Operator));

/// Ends a test where an operator is answered otherwise who gives these lines.
fn expect_answers(
    stop: &impl Abort,
    alloc: Global,
    file: &str,
    slots: u32,
    lines: &str,
    answers: &[u8],
) {
    let events = [OPENS, (0, Happens::Gives(3, lines.as_bytes()))];
    let setup = Setup {
        file,
        slots,
        ..ONE_SLOT
    };
    expect_run(stop, alloc, &setup, &events, &[Wanted::Sent(3, answers)], 0);
}

/// The session of docs/OPERATING.md.
#[test]
fn an_operator_is_answered_line_by_line(rt: HostRuntime) {
    let lines = b"open 0 192.0.2.1:5000 plain 7 edge 0\n\
        count 0 192.0.2.1:5000 plain 7\nopen 0 192.0.2.1:5000 plain 7 edge 0\n\
        open 0 192.0.2.1:5000 auth 7 edge 0\nopen 1 192.0.2.1:5000 plain 8 edge 0\n\
        open 0 192.0.2.1:5000 plain 8 core 0\nopen 0 192.0.2.1:5000 plain 8 edge 0\n\
        set 0 192.0.2.1:5000 plain 8 edge\nlist\nclose 0 192.0.2.1:5000 plain 7\n\
        open 0 192.0.2.1:5000 plain 7 edge 0\nfrob\nquit\nlist\n";
    let answers =
        b"ok\nok 0\nrefused duplicate\nrefused mode clash\nrefused local\nrefused no config\n\
        refused full live 1 reserved 0 retired 0 held 0\nrefused no such\n\
        0 192.0.2.1:5000 plain 7 0\nok 1\nok 0\nok\nrefused line\nbye\n";
    let events = [OPENS, (0, Happens::Gives(3, lines))];
    let wanted = [
        Wanted::Sent(3, answers),
        Wanted::Sessions(1, 1, 0),
        Wanted::Events(2),
        Wanted::Faults(0),
        Wanted::Ends(DeskEnd::Quit),
    ];
    expect_run(&rt, rt.alloc(), &ONE_SLOT, &events, &wanted, 0);
}

/// Four configurations that fill the rows of the table, of which one has an HMAC key, and a fifth.
const FIVE_CONFIGS: &str = "locals = [\"192.0.2.10:862\"]\n[configs]\na = {}\n\
    b = { multiplier = 2 }\nc = { multiplier = 3 }\nd = { key = \"0b\" }\n\
    e = { multiplier = 5 }\n";

/// Each line that is refused for one cause has the later ones as well.
#[test]
fn a_line_is_refused_for_its_first_cause(rt: HostRuntime) {
    let lines = "open 0 192.0.2.1:5000 plain 1 a 0\nopen 0 192.0.2.1:5001 plain 1 b 0\n\
        open 0 192.0.2.1:5002 plain 1 c 0\nopen 0 192.0.2.1:5003 auth 1 d 0\n\
        open 1 192.0.2.1:5003 auth 1 none 0\nopen 0 192.0.2.1:5003 auth 1 none 0\n\
        open 0 192.0.2.1:5003 auth 1 e 0\nopen 0 192.0.2.1:5000 auth 1 e 0\n\
        open 0 192.0.2.1:5004 auth 1 e 0\nopen 0 192.0.2.1:5004 plain 1 e 0\n\
        open 0 192.0.2.1:5004 plain 1 a 0\n\
        set 0 192.0.2.1:5004 auth 1 none\nset 0 192.0.2.1:5004 auth 1 e\n\
        set 0 192.0.2.1:5003 auth 1 e\nset 0 192.0.2.1:5000 plain 1 e\n\
        set 0 192.0.2.1:5000 plain 1 b\n\
        close 0 192.0.2.1:5000 plain 2\ncount 0 192.0.2.1:5000 twamp 0\nlist\n";
    let answers = b"ok\nok\nok\nok\nrefused local\nrefused no config\nrefused duplicate\n\
        refused mode clash\nrefused no key\nrefused rows full\n\
        refused full live 4 reserved 0 retired 0 held 0\n\
        refused no config\nrefused no such\nrefused no key\nrefused rows full\nok\n\
        refused no such\nrefused no such\n0 192.0.2.1:5000 plain 1 0\n0 192.0.2.1:5001 plain 1 0\n\
        0 192.0.2.1:5002 plain 1 0\n0 192.0.2.1:5003 auth 1 0\nok 4\n";
    expect_answers(&rt, rt.alloc(), FIVE_CONFIGS, 4, lines, answers);
}

#[test]
fn a_reserved_session_is_there_for_open_alone(rt: HostRuntime) {
    let octets = client_octets();
    let lines = b"open 0 192.0.2.1:6000 twamp 0 edge 0\nopen 0 192.0.2.1:6000 plain 0 edge 0\n\
        open 0 192.0.2.1:6001 twamp 0 edge 0\nset 0 192.0.2.1:6000 twamp 0 edge\n\
        close 0 192.0.2.1:6000 twamp 0\ncount 0 192.0.2.1:6000 twamp 0\nlist\n";
    let answers = b"refused duplicate\nrefused mode clash\n\
        refused full live 0 reserved 1 retired 0 held 0\n\
        refused no such\nrefused no such\nrefused no such\nok 0\n";
    let events = [
        (0, Happens::Opens(7, ConnKind::Control)),
        (0, Happens::Gives(7, part(&rt, &octets, 0, 276))),
        OPENS,
        (0, Happens::Gives(3, lines)),
    ];
    expect_run(
        &rt,
        rt.alloc(),
        &ONE_SLOT,
        &events,
        &[Wanted::Sent(3, answers)],
        0,
    );
}

/// The lines, with the key block of a configuration that has no HMAC key in place of each `Z`.
fn with_blocks(stop: &impl Abort, alloc: Global, lines: &str) -> String {
    let half = "0000000000000000000000000000000000000000000000000000000000000000";
    let mut all = String::new(alloc);
    for (index, piece) in lines.split('Z').enumerate() {
        if index > 0 {
            all.push_str(half).expect(stop, "room");
            all.push_str(half).expect(stop, "room");
        }
        all.push_str(piece).expect(stop, "room");
    }
    all
}

#[test]
fn a_name_is_given_once(rt: HostRuntime) {
    let lines = "config new 0100000A0000000000000028Z\nconfig new 0100000b0000000000000028Z\n\
        config edge 010000010000000000000028Z\nconfig new 010000000000000000000028Z\n\
        config other 010000000000000000000028Z\nconfig New 010000010000000000000028Z\n\
        config short 0100000100000000000028Z\nconfig n-1_2345678901ab 010000ff0000000000000028Z\n\
        open 0 192.0.2.1:5000 plain 1 new 0\nset 0 192.0.2.1:5000 plain 1 n-1_2345678901ab\n\
        set 0 192.0.2.1:5000 plain 1 other\n";
    let answers = b"ok\nrefused exists\nrefused exists\nrefused config\nrefused config\n\
        refused line\nrefused line\nok\nok\nok\nrefused no config\n";
    let lines = with_blocks(&rt, rt.alloc(), lines);
    expect_answers(&rt, rt.alloc(), FILE, 1, lines.as_str(), answers);
}

/// A file with so many configurations.
fn file_with(stop: &impl Abort, alloc: Global, count: u32) -> String {
    let mut file = String::new(alloc);
    file.push_str("locals = [\"192.0.2.10:862\"]\n")
        .expect(stop, "room");
    for number in 0..count {
        let line = format!(in alloc; "[configs.c{number}]\n").expect(stop, "a line");
        file.push_str(line.as_str()).expect(stop, "room");
    }
    file
}

#[test]
fn there_are_at_most_256_names(rt: HostRuntime) {
    let file = file_with(&rt, rt.alloc(), 255);
    let lines = "config last 010000010000000000000028Z\nconfig more 010000010000000000000028Z\n\
        config last 010000010000000000000028Z\nconfig more 010000000000000000000028Z\n\
        open 0 192.0.2.1:5000 plain 1 last 0\nopen 0 192.0.2.1:5000 plain 2 more 0\n";
    let answers =
        b"ok\nrefused names full\nrefused exists\nrefused config\nok\nrefused no config\n";
    let lines = with_blocks(&rt, rt.alloc(), lines);
    expect_answers(&rt, rt.alloc(), file.as_str(), 1, lines.as_str(), answers);
}

#[test]
fn a_wait_is_one_of_seconds(rt: HostRuntime) {
    let line = b"open 0 192.0.2.1:5000 plain 7 edge 10\n";
    let before = 15 * SECOND - 1;
    for (moment, live, expired) in [(before, 1, 0), (15 * SECOND, 0, 1)] {
        let events = [
            OPENS,
            (5 * SECOND, Happens::Gives(3, line)),
            (before, Happens::Ticks),
            (moment, Happens::Ticks),
        ];
        let wanted = [Wanted::HungUp(3, 0), Wanted::Sessions(live, 0, expired)];
        expect_run(&rt, rt.alloc(), &ONE_SLOT, &events, &wanted, 0);
    }
}

const LONG_LINE: [u8; 600] = [b'x'; 600];

/// How many octets stand ahead of the end of a line, what is answered to it and to the line `list` behind it, and how often the
/// connection was hung up.
#[test]
fn a_line_has_at_most_512_octets(rt: HostRuntime) {
    for (count, answers, hang_ups) in [
        (511, b"refused line\nok 0\n".as_slice(), 0),
        (512, b"refused line\n".as_slice(), 1),
        (600, b"refused line\n".as_slice(), 1),
    ] {
        let events = [
            OPENS,
            (0, Happens::Gives(3, part(&rt, &LONG_LINE, 0, count))),
            (0, Happens::Gives(3, b"\nlist\n")),
        ];
        let wanted = [
            Wanted::Sent(3, answers),
            Wanted::HungUp(3, hang_ups),
            Wanted::Sessions(0, 0, 0),
        ];
        expect_run(&rt, rt.alloc(), &ONE_SLOT, &events, &wanted, count);
    }
}

#[test]
fn a_line_may_come_octet_by_octet(rt: HostRuntime) {
    let lines = b"open 0 192.0.2.1:5000 plain 7 edge 0\n\nlist\nquit\nlist\n";
    let answers = b"ok\nrefused line\n0 192.0.2.1:5000 plain 7 0\nok 1\nbye\n";
    let wanted = [Wanted::Sent(3, answers), Wanted::Ends(DeskEnd::Quit)];
    let events = one_by_one(&rt, rt.alloc(), OPENS, 0, 3, lines);
    expect_run(&rt, rt.alloc(), &ONE_SLOT, events.as_slice(), &wanted, 0);
}

/// The number of the send that fails, how many octets were sent before it, how many sessions were opened, and how the desk ends.
#[test]
fn an_answer_that_cant_be_sent_ends_its_connection(rt: HostRuntime) {
    let lines = b"open 0 192.0.2.1:5000 plain 1 edge 0\nopen 0 192.0.2.1:5000 plain 2 edge 0\n\
        list\nquit\n";
    let answers = b"ok\nok\n0 192.0.2.1:5000 plain 1 0\n0 192.0.2.1:5000 plain 2 0\nok 2\n";
    for (call, count, live, end) in [
        (1, 0, 1, DeskEnd::End),
        (2, 3, 2, DeskEnd::End),
        (3, 6, 2, DeskEnd::End),
        (4, 33, 2, DeskEnd::End),
        (5, 60, 2, DeskEnd::End),
        (6, 65, 2, DeskEnd::Quit),
    ] {
        let events = [OPENS, (0, Happens::Gives(3, lines))];
        let setup = Setup {
            slots: 2,
            limits: Limits {
                fail_send: &[call],
                ..NO_LIMITS
            },
            ..ONE_SLOT
        };
        let wanted = [
            Wanted::Sent(3, part(&rt, answers, 0, count)),
            Wanted::HungUp(3, 1),
            Wanted::Sessions(live, 0, 0),
            Wanted::Faults(1),
            Wanted::Ends(end),
        ];
        expect_run(&rt, rt.alloc(), &setup, &events, &wanted, count);
    }
}
