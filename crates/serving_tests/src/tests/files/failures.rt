//! Runs in which calls fail, or budgets are spent.

ghost use Rattle.std.specs.Prelude.{All};
ghost use Rattle.net_io.specs.ScriptPort.{IsWhole};

use super::{NAME, one_file, one_number};
use file_service::run_file;
use net_io::{PortItem, ScriptDesk, ScriptPort};
use port_io::{MemFiles, MemSink};
use refl_types::{Address, Endpoint, Meta};
use std::alloc::Global;
use std::process::Abort;
use std::thread::Threads;

/// What is told of a datagram of no session.
const META: Meta = Meta {
    local: 0,
    peer: Endpoint {
        address: Address::V4([192, 0, 2, 1]),
        port: 5000,
    },
    len: 44,
    ttl: None,
    arrival: 0,
};

const SERVED: &str = "locals = [\"192.0.2.10:862\"]\nworkers = 1\nturns = 70\n[configs.edge]\n";

/// What goes wrong in a run, and what comes of it. The first so many calls fail, and of writes the one of this number. The
/// worker is asked once, or never.
#[derive(Clone, Copy)]
struct Case {
    text: &'static str,
    is_asked: bool,
    opens: u64,
    receives: u64,
    desk_opens: u64,
    nexts: u64,
    write: u64,
    status: u8,
    written: &'static [u8],
}

/// A run in which nothing goes wrong.
const WELL: Case = Case {
    text: SERVED,
    is_asked: false,
    opens: 0,
    receives: 0,
    desk_opens: 0,
    nexts: 0,
    write: 0,
    status: 0,
    written: b"worker 0 taken 0 sent 0 nosession 0 short 0 badhmac 0 changed 0 noreply 0 sendfault 0 recvfault 0 end\ndesk events 1 faults 0 end\nsessions live 0 closed 0 expired 0\n",
};

/// The numbers of the first so many calls.
fn first_calls(rt: &impl Abort, alloc: Global, count: u64) -> Vec<u64> {
    let mut calls = Vec::new(alloc);
    for call in 0..count {
        calls.push(call + 1).expect(rt, "room");
    }
    calls
}

/// A datagram of no session, or nothing.
fn first_item(rt: &impl Abort, alloc: Global, is_datagram: bool) -> PortItem
    ensures { IsWhole result }
{
    if !is_datagram {
        return PortItem::Nothing;
    }
    let octets = Vec::from_slice(alloc, &[0; 44]).expect(rt, "octets");
    PortItem::Datagram { meta: META, octets }
}

/// A datagram or nothing, then nothing twice.
fn three_items(rt: &impl Abort, alloc: Global, is_datagram: bool) -> Vec<PortItem>
    ensures { All IsWhole result.items }
{
    let first = first_item(rt, alloc, is_datagram);
    let mut items = Vec::new(alloc);
    items.push(first).expect(rt, "room");
    items.push(PortItem::Nothing).expect(rt, "room");
    items.push(PortItem::Nothing).expect(rt, "room");
    items
}

/// A port that gives a datagram or nothing, then nothing twice, and then its end.
fn port(rt: &impl Abort, alloc: Global, case: &Case) -> ScriptPort {
    let items = three_items(rt, alloc, case.is_asked);
    let opens = first_calls(rt, alloc, case.opens);
    let receives = first_calls(rt, alloc, case.receives);
    ScriptPort::make(
        alloc,
        items,
        Vec::new(alloc),
        opens,
        Vec::new(alloc),
        receives,
        Vec::new(alloc),
        100,
        100,
    )
    .expect(rt, "a port")
}

fn one_port(rt: &impl Abort, alloc: Global, case: &Case) -> Vec<ScriptPort> {
    let port = port(rt, alloc, case);
    let mut ports = Vec::new(alloc);
    ports.push(port).expect(rt, "room");
    ports
}

fn desk(rt: &impl Abort, alloc: Global, case: &Case) -> ScriptDesk {
    let opens = first_calls(rt, alloc, case.desk_opens);
    let nexts = first_calls(rt, alloc, case.nexts);
    ScriptDesk::make(
        alloc,
        Vec::new(alloc),
        opens,
        nexts,
        Vec::new(alloc),
        100,
        100,
    )
    .expect(rt, "a desk")
}

/// Ends the test where something else comes of a case.
fn expect_case<R: Threads + Abort + Sync>(rt: &R, alloc: Global, case: &Case) {
    let mut files = one_file(rt, alloc, case.text);
    let failing = one_number(rt, alloc, case.write);
    let mut out = MemSink::make(alloc, 1000, failing).expect(rt, "a sink");
    let mut ports = one_port(rt, alloc, case);
    let mut desk = desk(rt, alloc, case);
    let status = run_file(
        rt,
        alloc,
        NAME,
        &mut files,
        &mut out,
        ports.as_mut_slice(),
        &mut desk,
    );
    assert_eq!(rt; status, case.status);
    assert_eq!(rt; out.written(), case.written);
    let_go(files, out, ports, desk);
}

fn let_go(_files: MemFiles, _out: MemSink, _ports: Vec<ScriptPort>, _desk: ScriptDesk) {}

#[test]
fn a_run_in_which_nothing_fails_ends_with_0_and_its_report(rt: HostRuntime) {
    expect_case(&rt, rt.alloc(), &WELL);
}

#[test]
fn a_spent_budget_is_told_behind_the_report(rt: HostRuntime) {
    expect_case(
        &rt,
        rt.alloc(),
        &Case {
            text: "locals = [\"192.0.2.10:862\"]\nworkers = 1\nturns = 3\n[configs.edge]\n",
            status: 11,
            written: b"worker 0 taken 0 sent 0 nosession 0 short 0 badhmac 0 changed 0 noreply 0 sendfault 0 recvfault 0 budget\ndesk events 1 faults 0 end\nsessions live 0 closed 0 expired 0\nstampd: budget spent\n",
            ..WELL
        },
    );
}

#[test]
fn sixty_four_receives_that_fail_in_a_row_end_a_run_and_63_do_not(rt: HostRuntime) {
    expect_case(
        &rt,
        rt.alloc(),
        &Case {
            receives: 64,
            status: 9,
            written: b"worker 0 taken 0 sent 0 nosession 0 short 0 badhmac 0 changed 0 noreply 0 sendfault 0 recvfault 64 port\ndesk events 1 faults 0 end\nsessions live 0 closed 0 expired 0\nstampd: port failed\n",
            ..WELL
        },
    );
    expect_case(
        &rt,
        rt.alloc(),
        &Case {
            is_asked: true,
            receives: 63,
            written: b"worker 0 taken 1 sent 0 nosession 1 short 0 badhmac 0 changed 0 noreply 0 sendfault 0 recvfault 63 end\ndesk events 1 faults 0 end\nsessions live 0 closed 0 expired 0\n",
            ..WELL
        },
    );
}

#[test]
fn sixty_four_failures_of_the_desk_in_a_row_are_told_before_a_port_and_63_are_no_end(
    rt: HostRuntime,
) {
    expect_case(
        &rt,
        rt.alloc(),
        &Case {
            nexts: 64,
            receives: 64,
            status: 10,
            written: b"worker 0 taken 0 sent 0 nosession 0 short 0 badhmac 0 changed 0 noreply 0 sendfault 0 recvfault 64 port\ndesk events 0 faults 64 desk\nsessions live 0 closed 0 expired 0\nstampd: desk failed\n",
            ..WELL
        },
    );
    expect_case(
        &rt,
        rt.alloc(),
        &Case {
            nexts: 63,
            written: b"worker 0 taken 0 sent 0 nosession 0 short 0 badhmac 0 changed 0 noreply 0 sendfault 0 recvfault 0 end\ndesk events 1 faults 63 end\nsessions live 0 closed 0 expired 0\n",
            ..WELL
        },
    );
}

#[test]
fn what_fails_to_open_is_told_without_a_report(rt: HostRuntime) {
    let closed_port = Case {
        opens: 1,
        status: 9,
        written: b"stampd: port failed\n",
        ..WELL
    };
    let closed_desk = Case {
        desk_opens: 1,
        status: 10,
        written: b"stampd: desk failed\n",
        ..WELL
    };
    expect_case(&rt, rt.alloc(), &closed_port);
    expect_case(&rt, rt.alloc(), &closed_desk);
}

#[test]
fn a_file_with_a_fault_or_too_many_workers_serves_nothing(rt: HostRuntime) {
    let empty = Case {
        text: "",
        status: 3,
        written: b"stampd: configuration: missing locals\n",
        ..WELL
    };
    let crowded = Case {
        text: "locals = [\"192.0.2.10:862\"]\nworkers = 2\n[configs.edge]\n",
        status: 3,
        written: b"stampd: configuration: limit workers\n",
        ..WELL
    };
    expect_case(&rt, rt.alloc(), &empty);
    expect_case(&rt, rt.alloc(), &crowded);
}

#[test]
fn a_report_that_cannot_be_written_ends_with_8_whatever_failed(rt: HostRuntime) {
    let alloc = rt.alloc();
    let unwritten = Case {
        write: 1,
        status: 8,
        written: b"",
        ..WELL
    };
    expect_case(&rt, alloc, &unwritten);
    expect_case(
        &rt,
        alloc,
        &Case {
            nexts: 64,
            receives: 64,
            ..unwritten
        },
    );
}

#[test]
fn a_budget_that_is_spent_with_the_64th_failure_is_told(rt: HostRuntime) {
    expect_case(
        &rt,
        rt.alloc(),
        &Case {
            text: "locals = [\"192.0.2.10:862\"]\nworkers = 1\nturns = 64\n[configs.edge]\n",
            receives: 64,
            status: 11,
            written: b"worker 0 taken 0 sent 0 nosession 0 short 0 badhmac 0 changed 0 noreply 0 sendfault 0 recvfault 64 budget\ndesk events 1 faults 0 end\nsessions live 0 closed 0 expired 0\nstampd: budget spent\n",
            ..WELL
        },
    );
}
