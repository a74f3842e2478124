//! Four workers and forty sessions.

ghost use Rattle.std.specs.Prelude.{◌≡◌, ◌<◌, All, length};
ghost use Rattle.net_io.specs.ScriptPort.{IsWhole};

use super::{NAME, one_file};
use file_service::run_file;
use net_io::{PortItem, ScriptDesk, ScriptPort};
use port_io::{MemFiles, MemSink};
use refl_types::{Address, Endpoint, Meta};
use std::alloc::Global;
use std::process::Abort;

const OPERATORS: &str =
    "locals = [\"192.0.2.10:862\", \"192.0.2.11:862\"]\nworkers = 4\n[configs.edge]\n[configs.core]\nformat = \"ptp\"\noffset = 37\n[configs.secure]\nkey = \"000102030405060708090a0b0c0d0e0f\"\n";

const OPERATORS_REPORT: &[u8] =
    b"worker 0 taken 10 sent 10 nosession 0 short 0 badhmac 0 changed 0 noreply 0 sendfault 0 recvfault 0 end\nworker 1 taken 10 sent 10 nosession 0 short 0 badhmac 0 changed 0 noreply 0 sendfault 0 recvfault 0 end\nworker 2 taken 10 sent 10 nosession 0 short 0 badhmac 0 changed 0 noreply 0 sendfault 0 recvfault 0 end\nworker 3 taken 10 sent 10 nosession 0 short 0 badhmac 0 changed 0 noreply 0 sendfault 0 recvfault 0 end\ndesk events 1 faults 0 end\nsessions live 40 closed 0 expired 0\n";

/// The lines of a session, each of its own peer.
fn session_lines(rt: &impl Abort, alloc: Global, session: u32) -> String
    requires { session < 40 }
{
    let local = session % 2;
    let host = session + 1;
    let config = if session < 20 { "edge" } else { "core" };
    format!(in alloc;
        "[[sessions]]\nlocal = {local}\npeer = \"198.51.100.{host}:5000\"\nssid = {session}\nconfig = \"{config}\"\n"
    ).expect(rt, "lines")
}

/// A file with forty sessions.
fn operators_file(rt: &impl Abort, alloc: Global) -> String {
    let mut text = String::from_str(alloc, OPERATORS).expect(rt, "a text");
    for session in 0..40u32 {
        let lines = session_lines(rt, alloc, session);
        text.push_str(&lines).expect(rt, "room");
    }
    text
}

/// The octets of a datagram of a session: a base packet and padding.
fn padded(rt: &impl Abort, alloc: Global, session: u8) -> Vec<u8>
    ensures { length result.items ≡ 300 }
{
    let mut octets = vec![in alloc; 0u8; 300].expect(rt, "octets");
    octets[15] = session;
    octets[44] = 0x80;
    octets[45] = 1;
    octets[47] = 252;
    octets
}

/// A datagram of 300 octets of a session.
fn datagram(rt: &impl Abort, alloc: Global, session: u8) -> PortItem
    requires { session < 40 }
    ensures { IsWhole result }
{
    let octets = padded(rt, alloc, session);
    PortItem::Datagram {
        meta: Meta {
            local: (session % 2) as u16,
            peer: Endpoint {
                address: Address::V4([198, 51, 100, session + 1]),
                port: 5000,
            },
            len: 300,
            ttl: Some(64),
            arrival: 1_000_000_000,
        },
        octets,
    }
}

/// The datagrams of ten sessions.
fn ten_datagrams(rt: &impl Abort, alloc: Global, worker: u8) -> Vec<PortItem>
    requires { worker < 4 }
    ensures { All IsWhole result.items }
{
    let mut items = Vec::new(alloc);
    for place in 0..10u8 {
        let item = datagram(rt, alloc, 10 * worker + place);
        items.push(item).expect(rt, "room");
    }
    items
}

/// The datagrams of ten sessions, and then the end.
fn busy_port(rt: &impl Abort, alloc: Global, worker: u8) -> ScriptPort
    requires { worker < 4 }
{
    let items = ten_datagrams(rt, alloc, worker);
    ScriptPort::make(
        alloc,
        items,
        Vec::new(alloc),
        Vec::new(alloc),
        Vec::new(alloc),
        Vec::new(alloc),
        Vec::new(alloc),
        100,
        10_000,
    )
    .expect(rt, "a port")
}

fn busy_ports(rt: &impl Abort, alloc: Global) -> Vec<ScriptPort> {
    let mut ports = Vec::new(alloc);
    for worker in 0..4u8 {
        let port = busy_port(rt, alloc, worker);
        ports.push(port).expect(rt, "room");
    }
    ports
}

fn quiet_desk(rt: &impl Abort, alloc: Global) -> ScriptDesk {
    ScriptDesk::make(
        alloc,
        Vec::new(alloc),
        Vec::new(alloc),
        Vec::new(alloc),
        Vec::new(alloc),
        100,
        100,
    )
    .expect(rt, "a desk")
}

#[test]
fn four_workers_answer_the_datagrams_of_forty_sessions(rt: HostRuntime) {
    let alloc = rt.alloc();
    let text = operators_file(&rt, alloc);
    let mut files = one_file(&rt, alloc, text.as_str());
    let mut out = MemSink::make(alloc, 1000, Vec::new(alloc)).expect(&rt, "a sink");
    let mut ports = busy_ports(&rt, alloc);
    let mut desk = quiet_desk(&rt, alloc);
    let status = run_file(
        &rt,
        alloc,
        NAME,
        &mut files,
        &mut out,
        ports.as_mut_slice(),
        &mut desk,
    );
    assert_eq!(rt; status, 0);
    assert_eq!(rt; out.written(), OPERATORS_REPORT);
    let_go(text, files, out, ports, desk);
}

fn let_go(
    _text: String,
    _files: MemFiles,
    _out: MemSink,
    _ports: Vec<ScriptPort>,
    _desk: ScriptDesk,
) {}
