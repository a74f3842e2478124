//! Runs over scripts, and over ports and a desk that wait for one another.

mod changes;
mod desk_side;
mod ends;
mod gates;
mod order;
mod packets;
mod play;
mod port_side;

use conf_text::read_conf;
use control_desk::DeskEnd;
use gates::{Counter, GatedDesk, GatedPort, META};
use net_io::{Desk, Port, PortDeed, PortItem, ScriptDesk, ScriptPort};
use receive_worker::{Tally, WorkEnd};
use refl_types::{Address, Endpoint, Meta};
use reflector_serve::{Report, ServeFault, serve};
use std::alloc::Global;
use std::marker::Model;
use std::process::Abort;
use std::thread::Threads;

/// One session and two workers.
const TWO: &str =
    "locals = [\"192.0.2.10:862\"]\nworkers = 2\nslots = 4\nrows = 1\n[configs.edge]\n[[sessions]]\npeer = \"198.51.100.1:5000\"\nconfig = \"edge\"\n";

/// The same with one worker.
const ONE: &str =
    "locals = [\"192.0.2.10:862\"]\nslots = 4\nrows = 1\n[configs.edge]\n[[sessions]]\npeer = \"198.51.100.1:5000\"\nconfig = \"edge\"\n";

/// Serves by a file's text.
fn run<R: Threads + Sync + Abort, P: Port + Send, D: Desk>(
    rt: &R,
    alloc: Global,
    text: &str,
    ports: &mut [P],
    desk: &mut D,
) -> Result<Report, ServeFault> {
    let Ok(conf) = read_conf(alloc, text.as_bytes()) else {
        panic!(rt; "the file is refused");
    };
    assert!(rt; conf.workers() as usize <= ports.len());
    serve(rt, alloc, &conf, ports, desk)
}

/// What a port is to give, and then its end.
#[derive(Drop)]
struct Script {
    alloc: Global,
    items: Vec<PortItem>,
}

impl Model for Script {
    ghost use Rattle.std.specs.Prelude.{All, List, map};
    ghost use Rattle.net_io.specs.Port.{PortEntry};
    ghost use Rattle.net_io.specs.ScriptPort.{IsWhole, item_entry};

    ghost Value = { List PortEntry };

    ghost view = { λ s. map item_entry s.items.items };

    ghost invariant = { λ s. All IsWhole s.items.items };
}

impl Script {
    fn new(alloc: Global) -> Script {
        Script {
            alloc,
            items: Vec::new(alloc),
        }
    }

    /// A datagram of a sender to a local address, of which there is no more to tell.
    fn give(&mut self, rt: &impl Abort, local: u16, peer: &Endpoint, octets: &[u8]) {
        assert!(rt; octets.len() <= 65_507);
        let meta = Meta {
            local,
            peer: *peer,
            len: octets.len(),
            ttl: None,
            arrival: 1_000_000_000,
        };
        let octets = Vec::from_slice(self.alloc, octets).expect(rt, "octets");
        self.items
            .push(PortItem::Datagram { meta, octets })
            .expect(rt, "room");
    }

    /// The port, which fails in these calls.
    fn port(
        self,
        rt: &impl Abort,
        fail_open: &[u64],
        fail_share: &[u64],
        fail_send: &[u64],
    ) -> ScriptPort {
        let Script { alloc, items } = self;
        ScriptPort::make(
            alloc,
            items,
            Vec::from_slice(alloc, &[1_000, 2_000]).expect(rt, "moments"),
            Vec::from_slice(alloc, fail_open).expect(rt, "numbers"),
            Vec::from_slice(alloc, fail_share).expect(rt, "numbers"),
            Vec::new(alloc),
            Vec::from_slice(alloc, fail_send).expect(rt, "numbers"),
            64,
            8_192,
        )
        .expect(rt, "a port")
    }
}

/// A port that gives so many datagrams of the one session, and fails in these calls.
fn port(
    rt: &impl Abort,
    alloc: Global,
    count: usize,
    fail_open: &[u64],
    fail_share: &[u64],
    fail_send: &[u64],
) -> ScriptPort {
    let mut script = Script::new(alloc);
    for _time in 0..count {
        script.give(rt, 0, &META.peer, &[0; 44]);
    }
    script.port(rt, fail_open, fail_share, fail_send)
}

/// A desk that gives its end, and fails in these calls to open.
fn desk(rt: &impl Abort, alloc: Global, fail_open: &[u64]) -> ScriptDesk {
    ScriptDesk::make(
        alloc,
        Vec::new(alloc),
        Vec::from_slice(alloc, fail_open).expect(rt, "numbers"),
        Vec::new(alloc),
        Vec::new(alloc),
        16,
        1_024,
    )
    .expect(rt, "a desk")
}

/// Whether the entry at this place of a port's log is this deed.
fn has_done(port: &ScriptPort, at: usize, deed: PortDeed) -> bool {
    match port.entry(at) {
        Some((done, _)) => done == deed,
        None => false,
    }
}

/// The number of the reply that was sent at this place of a port's log.
fn number_sent(port: &ScriptPort, at: usize) -> Option<u8> {
    match port.entry(at) {
        Some((PortDeed::Sent { .. }, octets)) => octets.get(3).copied(),
        _ => None,
    }
}

/// The tally of a worker that took nothing, up to the end of its port.
const NOTHING: Tally = Tally {
    taken: 0,
    sent: 0,
    no_session: 0,
    short: 0,
    bad_hmac: 0,
    changed: 0,
    no_reply: 0,
    send_fault: 0,
    recv_fault: 0,
    end: WorkEnd::End,
};

/// The tally of a worker that answered so many datagrams, up to the end of its port.
fn answered(count: u64) -> Tally {
    Tally {
        taken: count,
        sent: count,
        ..NOTHING
    }
}

/// Whether there are so many workers, each of which answered so many datagrams, a desk that gave its end alone, and so many
/// sessions that are live.
fn is_report(report: &Report, workers: usize, count: u64, live: u32) -> bool {
    for tally in report.workers.as_slice() {
        if *tally != answered(count) {
            return false;
        }
    }
    report.workers.len() == workers
        && report.desk.events == 1
        && report.desk.end == DeskEnd::End
        && report.live == live
}

fn let_go<A: Drop, B: Drop, C: Drop>(_a: A, _b: B, _c: C) {}

#[test]
fn the_first_ports_have_workers_and_the_others_stay_as_they_are(rt: HostRuntime) {
    let alloc = rt.alloc();
    let mut ports = [
        port(&rt, alloc, 1, &[], &[], &[]),
        port(&rt, alloc, 1, &[], &[], &[]),
        port(&rt, alloc, 1, &[], &[], &[]),
    ];
    let mut desk = desk(&rt, alloc, &[]);
    let report = run(&rt, alloc, TWO, &mut ports, &mut desk).expect(&rt, "a report");
    assert!(rt; is_report(&report, 2, 1, 1));
    assert!(rt; has_done(&ports[0], 0, PortDeed::Read(1_000)));
    assert!(rt; has_done(&ports[1], 0, PortDeed::Took(META)));
    assert!(rt; ports[2].entry(0).is_none());
    let_go(report, ports, desk);
}

/// Why nothing was served.
fn fault_of(outcome: Result<Report, ServeFault>) -> Option<ServeFault> {
    match outcome {
        Ok(_report) => None,
        Err(fault) => Some(fault),
    }
}

/// What is answered where these openings fail, if the first port's log has its one moment, and the second's nothing.
fn refused<R: Threads + Sync + Abort>(
    rt: &R,
    alloc: Global,
    fail_open: &[u64],
    fail_share: &[u64],
    fail_desk: &[u64],
) -> Option<ServeFault> {
    let mut ports = [
        port(rt, alloc, 1, fail_open, &[], &[]),
        port(rt, alloc, 1, &[], fail_share, &[]),
    ];
    let mut desk = desk(rt, alloc, fail_desk);
    let fault = fault_of(run(rt, alloc, TWO, &mut ports, &mut desk));
    let is_quiet = has_done(&ports[0], 0, PortDeed::Read(1_000))
        && ports[0].entry(1).is_none()
        && ports[1].entry(0).is_none();
    let_go(ports, desk, ());
    if is_quiet { fault } else { None }
}

#[test]
fn a_port_or_a_desk_that_does_not_open_is_told(rt: HostRuntime) {
    let cases: [(&[u64], &[u64], &[u64], ServeFault); 3] = [
        (&[1], &[], &[], ServeFault::PortOpen),
        (&[], &[1], &[], ServeFault::PortOpen),
        (&[], &[], &[1], ServeFault::DeskOpen),
    ];
    for (fail_open, fail_share, fail_desk, want) in cases {
        assert!(rt; refused(&rt, rt.alloc(), fail_open, fail_share, fail_desk) == Some(want));
    }
}

#[test]
fn a_reply_that_is_lost_has_spent_its_number(rt: HostRuntime) {
    let alloc = rt.alloc();
    let mut ports = [port(&rt, alloc, 3, &[], &[], &[2])];
    let mut desk = desk(&rt, alloc, &[]);
    let report = run(&rt, alloc, ONE, &mut ports, &mut desk).expect(&rt, "a report");
    let tally = Tally {
        send_fault: 1,
        taken: 3,
        ..answered(2)
    };
    assert_eq!(rt; report.workers.as_slice(), [tally].as_slice());
    for (at, number) in [(3, Some(0)), (6, None), (9, Some(2))] {
        assert!(rt; number_sent(&ports[0], at) == number, "at {at}");
    }
    let_go(report, ports, desk);
}

/// How many replies each worker sent.
fn sent_by(report: &Report, worker: usize) -> u64 {
    match report.workers.get(worker) {
        Some(tally) => tally.sent,
        None => 0,
    }
}

#[test]
fn workers_wait_for_one_another(rt: HostRuntime) {
    let alloc = rt.alloc();
    let (first, second) = (Counter::new(&rt, alloc), Counter::new(&rt, alloc));
    let of_first = second.gates(&rt, alloc, &[1]);
    let of_second = first.gates(&rt, alloc, &[1, 0]);
    let mut ports = [
        GatedPort::new(alloc, of_first, first),
        GatedPort::new(alloc, of_second, second),
    ];
    let mut desk = desk(&rt, alloc, &[]);
    let report = run(&rt, alloc, TWO, &mut ports, &mut desk).expect(&rt, "a report");
    assert!(rt; sent_by(&report, 0) == 1);
    assert!(rt; sent_by(&report, 1) == 2);
    let_go(report, ports, desk);
}

#[test]
fn the_desk_waits_for_a_worker_and_the_worker_for_the_desk(rt: HostRuntime) {
    let alloc = rt.alloc();
    let (sent, told) = (Counter::new(&rt, alloc), Counter::new(&rt, alloc));
    let of_port = told.gates(&rt, alloc, &[1, 0]);
    let of_desk = sent.gates(&rt, alloc, &[1]);
    let mut ports = [GatedPort::new(alloc, of_port, sent)];
    let mut desk = GatedDesk::new(of_desk, told);
    let report = run(&rt, alloc, ONE, &mut ports, &mut desk).expect(&rt, "a report");
    assert!(rt; sent_by(&report, 0) == 2);
    assert!(rt; report.desk.events == 2);
    let_go(report, ports, desk);
}

/// A file of four workers and forty sessions, each of a sender of its own.
fn forty_sessions(rt: &impl Abort, alloc: Global) -> String {
    let head =
        "locals = [\"192.0.2.10:862\", \"192.0.2.11:862\"]\nworkers = 4\n[configs.edge]\n[configs.core]\nformat = \"ptp\"\noffset = 37\n[configs.secure]\nkey = \"00112233\"\n";
    let mut text = String::from_str(alloc, head).expect(rt, "a text");
    for session in 0..40u32 {
        let local = session % 2;
        let peer = session + 1;
        let config = if session < 20 { "edge" } else { "core" };
        let table = format!(in alloc;
            "[[sessions]]\nlocal = {local}\npeer = \"198.51.100.{peer}:5000\"\nssid = {session}\nconfig = \"{config}\"\n"
        ).expect(rt, "a text");
        text.push_str(&table).expect(rt, "room");
    }
    text
}

/// A port that gives a datagram of 300 octets of each of ten of these sessions: a base packet and an Extra Padding TLV.
fn port_of_ten(rt: &impl Abort, alloc: Global, first: u8) -> ScriptPort {
    let mut script = Script::new(alloc);
    for session in first..first.saturating_add(10) {
        let mut octets = [0; 300];
        octets[15] = session;
        octets[44..48].copy_from_slice(&[0x80, 1, 0, 252]);
        let peer = Endpoint {
            address: Address::V4([198, 51, 100, session.saturating_add(1)]),
            port: 5000,
        };
        script.give(rt, u16::from(session % 2), &peer, &octets);
    }
    script.port(rt, &[], &[], &[])
}

#[test]
fn four_workers_serve_forty_sessions(rt: HostRuntime) {
    let alloc = rt.alloc();
    let text = forty_sessions(&rt, alloc);
    let mut ports = [
        port_of_ten(&rt, alloc, 0),
        port_of_ten(&rt, alloc, 10),
        port_of_ten(&rt, alloc, 20),
        port_of_ten(&rt, alloc, 30),
    ];
    let mut desk = desk(&rt, alloc, &[]);
    let report = run(&rt, alloc, &text, &mut ports, &mut desk).expect(&rt, "a report");
    assert!(rt; is_report(&report, 4, 10, 40));
    let_go(report, ports, desk);
}
