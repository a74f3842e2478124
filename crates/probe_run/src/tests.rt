//! Measurements over scripted ports, where memory is ample. Values are worked out by hand.

ghost use Rattle.std.specs.Prelude.{◌≡◌, All};
ghost use Rattle.net_io.specs.ScriptPort.{IsWhole};

use crate::{Probe, run_probe};
use net_io::{Got, Port, PortDeed, PortItem, ScriptPort};
use port_io::{Failed, MemSink};
use refl_types::{Address, Endpoint, LocalAddr, Meta};
use std::alloc::Global;
use std::process::Abort;

const LOCAL: Endpoint = Endpoint {
    address: Address::V4([192, 0, 2, 20]),
    port: 6000,
};

const PEER: Endpoint = Endpoint {
    address: Address::V4([192, 0, 2, 10]),
    port: 862,
};

/// As the peer, but for its port.
const OTHER: Endpoint = Endpoint {
    address: Address::V4([192, 0, 2, 10]),
    port: 863,
};

const PROBE: Probe = Probe {
    local: LOCAL,
    peer: PEER,
    ssid: 7,
    count: 1,
};

/// A reply to the request of number 0 that was sent at moment 0: received a quarter of a second later, sent half a second later.
const REPLY: [u8; 44] = [
    0, 0, 0, 0, 0x83, 0xAA, 0x7E, 0x80, 0x80, 0, 0, 0, 0, 1, 0, 7, 0x83, 0xAA, 0x7E, 0x80, 0x40, 0,
    0, 0, 0, 0, 0, 0, 0x83, 0xAA, 0x7E, 0x80, 0, 0, 0, 0, 0, 1, 0, 0, 0xFF, 0, 0, 0,
];

fn meta(peer: Endpoint) -> Meta
    ensures { result.len ≡ 44 }
{
    Meta {
        local: 0,
        peer,
        len: 44,
        ttl: None,
        arrival: 1_000_000_000,
    }
}

/// The reply from a peer at second 1.
fn reply_from(stop: &impl Abort, alloc: Global, peer: Endpoint) -> Vec<PortItem>
    ensures { All IsWhole result.items }
{
    let octets = Vec::from_slice(alloc, &REPLY).expect(stop, "octets");
    let item = PortItem::Datagram {
        meta: meta(peer),
        octets,
    };
    let mut items = Vec::new(alloc);
    items.push(item).expect(stop, "room");
    items
}

/// Calls of a port that fail: of each kind so many, from the first on.
#[derive(Clone, Copy)]
struct Failing {
    opens: u64,
    sends: u64,
    receives: u64,
}

const NONE: Failing = Failing {
    opens: 0,
    sends: 0,
    receives: 0,
};

fn up_to(stop: &impl Abort, alloc: Global, last: u64) -> Vec<u64> {
    let mut calls = Vec::new(alloc);
    for call in 1..=last {
        calls.push(call).expect(stop, "room");
    }
    calls
}

/// The clock says second 0 at first, and second 2 at the second turn.
const CLOCK: [u64; 3] = [0, 0, 2_000_000_000];

/// A port that gives these items, and then its end. Its clock says these moments, and then the last again.
fn port_at(
    stop: &impl Abort,
    alloc: Global,
    clock: &[u64],
    items: Vec<PortItem>,
    failing: Failing,
) -> ScriptPort
    requires { All IsWhole items.items }
{
    let moments = Vec::from_slice(alloc, clock).expect(stop, "moments");
    let opens = up_to(stop, alloc, failing.opens);
    let receives = up_to(stop, alloc, failing.receives);
    let sends = up_to(stop, alloc, failing.sends);
    ScriptPort::make(
        alloc,
        items,
        moments,
        opens,
        Vec::new(alloc),
        receives,
        sends,
        1_000,
        10_000,
    )
    .expect(stop, "a port")
}

/// A port at which nothing comes before its end.
fn quiet_port(stop: &impl Abort, alloc: Global, clock: &[u64], failing: Failing) -> ScriptPort {
    port_at(stop, alloc, clock, Vec::new(alloc), failing)
}

fn sink(stop: &impl Abort, alloc: Global, room: usize) -> MemSink {
    MemSink::make(alloc, room, Vec::new(alloc)).expect(stop, "a sink")
}

fn one_port(stop: &impl Abort, alloc: Global, port: ScriptPort) -> Vec<ScriptPort> {
    let mut ports = Vec::new(alloc);
    ports.push(port).expect(stop, "room");
    ports
}

/// Measures at ports, and ends the test where another status comes of it or anything else is written than this.
fn expect_probed<P: Port + Drop>(
    stop: &impl Abort,
    alloc: Global,
    ports: &mut [P],
    room: usize,
    status: u8,
    written: &[u8],
) {
    let mut out = sink(stop, alloc, room);
    let got = run_probe(alloc, &PROBE, &mut out, ports);
    assert_eq!(stop; got, status);
    assert_eq!(stop; out.written(), written);
    let_go_sink(out);
}

/// The same at one port.
fn expect_at(stop: &impl Abort, alloc: Global, port: ScriptPort, status: u8, written: &[u8]) {
    let mut ports = one_port(stop, alloc, port);
    expect_probed(stop, alloc, ports.as_mut_slice(), 1_000, status, written);
    let_go_ports(ports);
}

fn let_go_sink(_out: MemSink) {}

fn let_go_ports(_ports: Vec<ScriptPort>) {}

const MEASURED: &[u8] =
    b"sent 1\nreceived 1\ndoubles 0\nstrangers 0\nforward lost 0\nbackward lost 0\nforward delay 1073741824 1073741824\nbackward delay 2147483648 2147483648\n";

/// What is told of the reply from the peer.
const OF_PEER: Meta = Meta {
    local: 0,
    peer: PEER,
    len: 44,
    ttl: None,
    arrival: 1_000_000_000,
};

/// What a port does for a request and its reply.
const DEEDS: [PortDeed; 6] = [
    PortDeed::Read(0),
    PortDeed::Read(0),
    PortDeed::Sent { from: 0, to: PEER },
    PortDeed::Took(OF_PEER),
    PortDeed::Read(2_000_000_000),
    PortDeed::Done,
];

/// Ends the test where a port did anything else.
fn expect_deeds(stop: &impl Abort, ports: &[ScriptPort]) {
    assert_eq!(stop; ports.len(), 1);
    let port = &ports[0];
    for at in 0..DEEDS.len() {
        assert_eq!(stop; port.entry(at).map(|entry| entry.0), Some(DEEDS[at]));
    }
    assert!(stop; port.entry(DEEDS.len()).is_none());
}

#[test]
fn a_reply_is_counted_and_measured(rt: HostRuntime) {
    let alloc = rt.alloc();
    let items = reply_from(&rt, alloc, PEER);
    let port = port_at(&rt, alloc, &CLOCK, items, NONE);
    let mut ports = one_port(&rt, alloc, port);
    expect_probed(&rt, alloc, ports.as_mut_slice(), 1_000, 0, MEASURED);
    expect_deeds(&rt, &ports);
    let_go_ports(ports);
}

/// What is written where only the request was sent, and so many datagrams of others came.
const LOST: &[u8] =
    b"sent 1\nreceived 0\ndoubles 0\nstrangers 0\nforward lost 1\nbackward lost 0\nforward delay none none\nbackward delay none none\n";

const STRANGE: &[u8] =
    b"sent 1\nreceived 0\ndoubles 0\nstrangers 1\nforward lost 1\nbackward lost 0\nforward delay none none\nbackward delay none none\n";

#[test]
fn a_reply_from_another_port_is_a_stranger(rt: HostRuntime) {
    let alloc = rt.alloc();
    let items = reply_from(&rt, alloc, OTHER);
    let port = port_at(&rt, alloc, &CLOCK, items, NONE);
    expect_at(&rt, alloc, port, 0, STRANGE);
}

#[test]
fn a_request_whose_sending_failed_is_sent(rt: HostRuntime) {
    let failing = Failing { sends: 1, ..NONE };
    let port = quiet_port(&rt, rt.alloc(), &CLOCK, failing);
    expect_at(&rt, rt.alloc(), port, 0, LOST);
}

const NOT_OPENED: &[u8] = b"stampd: port failed\n";

#[test]
fn a_port_that_fails_to_open_is_told(rt: HostRuntime) {
    let failing = Failing { opens: 1, ..NONE };
    let port = quiet_port(&rt, rt.alloc(), &CLOCK, failing);
    expect_at(&rt, rt.alloc(), port, 9, NOT_OPENED);
}

const NO_PORT: &[u8] = b"stampd: configuration: limit workers\n";

#[test]
fn without_a_port_the_limit_is_told(rt: HostRuntime) {
    let mut ports: Vec<ScriptPort> = Vec::new(rt.alloc());
    expect_probed(&rt, rt.alloc(), ports.as_mut_slice(), 1_000, 3, NO_PORT);
    let_go_ports(ports);
}

const NOTHING: &[u8] = b"";

#[test]
fn lines_that_find_no_room_are_lost(rt: HostRuntime) {
    let alloc = rt.alloc();
    let port = quiet_port(&rt, alloc, &CLOCK, NONE);
    let mut ports = one_port(&rt, alloc, port);
    expect_probed(&rt, alloc, ports.as_mut_slice(), 10, 8, NOTHING);
    let_go_ports(ports);
}

const FAILED: &[u8] =
    b"sent 1\nreceived 0\ndoubles 0\nstrangers 0\nforward lost 1\nbackward lost 0\nforward delay none none\nbackward delay none none\nstampd: port failed\n";

#[test]
fn a_port_fails_with_the_64th_failure_in_a_row(rt: HostRuntime) {
    for (receives, status, written) in [(63, 0, LOST), (64, 9, FAILED)] {
        let failing = Failing { receives, ..NONE };
        let port = quiet_port(&rt, rt.alloc(), &[0], failing);
        expect_at(&rt, rt.alloc(), port, status, written);
    }
}

/// A port at which nothing ever comes.
#[derive(Drop)]
struct Silent {
    port: ScriptPort,
}

impl Port for Silent {
    ghost use Rattle.std.specs.Prelude.{None};

    type Setup = ();

    ghost shown = { λ s. record { bound = s.port.bound; coming = None; log = None; made = tt; faults = s.port.faults } };

    fn open(&mut self, locals: &[LocalAddr]) -> Result<(), Failed> {
        self.port.open(locals)
    }

    fn share(&mut self, first: &Self) -> Result<(), Failed> {
        self.port.share(&first.port)
    }

    fn recv(&mut self, _buf: &mut [u8]) -> Result<Got, Failed> {
        Ok(Got::Nothing)
    }

    fn now(&mut self) -> u64 {
        self.port.now()
    }

    fn send(&mut self, from: u16, to: &Endpoint, octets: &[u8]) -> Result<(), Failed> {
        self.port.send(from, to, octets)
    }

    fn done(&mut self) {
        self.port.done();
    }
}

const SPENT: &[u8] =
    b"sent 1\nreceived 0\ndoubles 0\nstrangers 0\nforward lost 1\nbackward lost 0\nforward delay none none\nbackward delay none none\nstampd: budget spent\n";

fn let_go_silent(_ports: Vec<Silent>) {}

#[test]
fn a_clock_that_stands_still_spends_the_budget(rt: HostRuntime) {
    let alloc = rt.alloc();
    let port = quiet_port(&rt, alloc, &[0], NONE);
    let mut ports = Vec::new(alloc);
    ports.push(Silent { port }).expect(&rt, "room");
    expect_probed(&rt, alloc, ports.as_mut_slice(), 1_000, 11, SPENT);
    let_go_silent(ports);
}
