//! One worker works over a learning port, then the desk runs over a learning desk.

ghost use Rattle.std.specs.Prelude.{◌<◌};
ghost use Rattle.net_io.specs.ScriptPort.{IsWhole};

use crate::count_left;
use conf_text::{Conf, read_conf};
use control_desk::{DeskEnd, DeskRoom, run_desk};
use learned_sessions::{LearnDesk, LearnPass, LearnPort, LearnQueue, LearnRoom, Prefix};
use net_io::{Desk, Port, PortItem, ScriptDesk, ScriptPort};
use receive_worker::{Buffers, WorkEnd, work};
use refl_types::{Address, Endpoint, Meta};
use session_desk::DeskBook;
use session_rule::{Table, TableSize, open_table};
use std::alloc::Global;
use std::process::Abort;
use std::sync::Wait;
use text_forms::Name;

/// One worker, a configuration `edge`, and no session.
const FILE: &str = "locals = [\"192.0.2.10:862\"]\nslots = 4\nrows = 1\n[configs.edge]\n";

const PREFIX: Prefix = Prefix {
    bits: [198, 51, 100, 0],
    len: 24,
};

/// P: sequence number 5, timestamp, Error Estimate 1, SSID 7, and 28 octets 0.
const P: [u8; 44] = [
    0, 0, 0, 5, 0x11, 0x22, 0x33, 0x44, 0x55, 0x66, 0x77, 0x88, 0, 1, 0, 7, 0, 0, 0, 0, 0, 0, 0, 0,
    0, 0, 0, 0, 0, 0, 0, 0, 0, 0, 0, 0, 0, 0, 0, 0, 0, 0, 0, 0,
];

const LINE: &[u8] = b"open 0 198.51.100.1:5000 plain 7 edge 10\n";

/// P of 198.51.100.1:5000 twice, and of 203.0.113.1:5000 once.
fn port<R: Abort>(rt: &R, alloc: Global) -> ScriptPort {
    let mut items = Vec::new(alloc);
    items
        .push(datagram(rt, alloc, [198, 51, 100, 1]))
        .expect(rt, "room");
    items
        .push(datagram(rt, alloc, [198, 51, 100, 1]))
        .expect(rt, "room");
    items
        .push(datagram(rt, alloc, [203, 0, 113, 1]))
        .expect(rt, "room");
    let (a, b, c) = (Vec::new(alloc), Vec::new(alloc), Vec::new(alloc));
    let (d, e) = (Vec::new(alloc), Vec::new(alloc));
    ScriptPort::make(alloc, items, a, b, c, d, e, 100, 10_000).expect(rt, "a port")
}

/// P, as it comes from port 5000 of an address.
fn datagram<R: Abort>(rt: &R, alloc: Global, from: [u8; 4]) -> PortItem
    ensures { IsWhole result }
{
    let peer = Endpoint {
        address: Address::V4(from),
        port: 5000,
    };
    let meta = Meta {
        local: 0,
        peer,
        len: 44,
        ttl: None,
        arrival: 1_000_000_000,
    };
    let octets = Vec::from_slice(alloc, &P).expect(rt, "room");
    PortItem::Datagram { meta, octets }
}

fn let_go(_table: Table, _book: DeskBook, _conf: Conf, _buffers: Buffers, _port: ScriptPort) {}

fn let_go_desk(
    _queue: LearnQueue,
    _passes: (LearnPass, LearnPass),
    _desk: ScriptDesk,
    _room: DeskRoom,
) {}

/// What came of it: opened, refused, left and full.
fn learned<R: Wait + Abort + Sync>(rt: &R, alloc: Global, places: usize) -> (u64, u64, u64, u64)
    requires { 0 < places }
{
    let conf = read_conf(alloc, FILE.as_bytes()).expect(rt, "a file");
    let size = TableSize {
        slots: 4,
        rows: 1,
        workers: 1,
    };
    let (table, seat) = open_table(alloc, size).expect(rt, "a table");
    let mut book = DeskBook::make(alloc, seat, size).expect(rt, "a book");
    let mut seat = book.split(&table).expect(rt, "a seat");
    let mut buffers = Buffers::make(alloc).expect(rt, "buffers");

    let (queue, mut main) = LearnQueue::make(alloc, places).expect(rt, "a queue");
    let of_port = queue.split(rt, &mut main).expect(rt, "a pass");
    let of_desk = queue.split(rt, &mut main).expect(rt, "a pass");

    let mut wrapped = LearnPort::new(port(rt, alloc), PREFIX, of_port, &queue, rt);
    let opened = wrapped.open(conf.locals());
    assert!(rt; opened.is_ok());
    let tally = work(
        &table,
        &mut seat,
        &mut wrapped,
        conf.locals(),
        0,
        100,
        &mut buffers,
    );
    assert_eq!(rt; tally.no_session, 3);
    assert_eq!(rt; tally.end, WorkEnd::End);
    let (port, of_port, full) = wrapped.back();

    let name = Name::make(b"edge").expect(rt, "a name");
    let (a, b) = (Vec::new(alloc), Vec::new(alloc));
    let mut script = ScriptDesk::make(
        alloc,
        Vec::new(alloc),
        a,
        b,
        Vec::new(alloc),
        10,
        100,
    ).expect(rt, "a desk");
    let mut kept = LearnRoom::make(alloc, &name, 10, of_desk).expect(rt, "room");
    let mut room = DeskRoom::make(alloc, &conf).expect(rt, "room");
    let mut desk = LearnDesk::new(&mut script, &mut kept, &queue, rt);
    let opened = desk.open(None, None);
    assert!(rt; opened.is_ok());
    let tally = run_desk(&table, &mut book, &mut room, &mut desk, 100);
    assert_eq!(rt; tally.end, DeskEnd::End);
    // Opened, a line for each candidate that the queue took, End.
    assert_eq!(rt; tally.events, if places == 1 { 3 } else { 4 });
    let LearnDesk {
        desk: _,
        room: _,
        queue: _,
        rt: _,
    } = desk;
    // the deeds of the room's log: Gave LINE, Sent `ok`, Gave LINE, Sent `refused duplicate` (needs `LearnRoom::log`, for tests)
    let (of_desk, opened, refused) = kept.back();

    book.join(&table, seat);
    assert_eq!(rt; book.live_len(), 1);
    queue.join(rt, &mut main, of_port);
    let left = count_left(rt, &queue, &mut main);
    let_go(table, book, conf, buffers, port);
    let_go_desk(queue, (main, of_desk), script, room);
    (opened, refused, left, full)
}

#[test]
fn a_second_candidate_of_a_peer_is_refused(rt: HostRuntime) {
    assert_eq!(rt; learned(&rt, rt.alloc(), 1_024), (1, 1, 0, 0));
}

#[test]
fn a_candidate_that_finds_the_queue_full_is_counted(rt: HostRuntime) {
    assert_eq!(rt; learned(&rt, rt.alloc(), 1), (1, 0, 0, 1));
}
