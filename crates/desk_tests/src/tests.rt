//! Runs of a desk over a script. The octets and lines are written out from the standards and from the lines' own table.

ghost use Rattle.std.specs.Prelude.{◌≡◌, All, IsTrue};
ghost use Rattle.net_io.specs.Desk.{octet_count};
ghost use Rattle.net_io.specs.ScriptDesk.{IsWhole};
ghost use Rattle.session_desk.specs.Book.{IsBookOf};

mod clients;
mod operators;
mod runs;

use conf_text::{Conf, read_conf};
use control_desk::{DeskEnd, DeskRoom, DeskTally, run_desk};
use net_io::{ConnKind, Desk, DeskDeed, DeskEvent, DeskItem, PIECE_ROOM, ScriptDesk};
use refl_types::Address;
use session_desk::DeskBook;
use session_rule::{Table, TableSize, open_table};
use std::alloc::Global;
use std::process::Abort;

const FILE: &str = "locals = [\"192.0.2.10:862\"]\ntwamp = \"edge\"\n[configs.edge]\n";

const CLIENT: Address = Address::V4([192, 0, 2, 1]);

const SERVER: Address = Address::V4([192, 0, 2, 10]);

/// What happens at a desk.
#[derive(Clone, Copy)]
enum Happens<'a> {
    Opens(u32, ConnKind),
    Gives(u32, &'a [u8]),
    Closes(u32),
    Ticks,
}

/// What is still to come.
#[derive(Drop)]
struct Script {
    items: Vec<DeskItem>,
    ghost whole: { All IsWhole items.items },
}

impl Script {
    fn new(alloc: Global) -> Script {
        Script {
            items: Vec::new(alloc),
        }
    }

    fn gives(&mut self, stop: &impl Abort, alloc: Global, moment: u64, conn: u32, octets: &[u8]) {
        assert!(stop; octets.len() <= PIECE_ROOM);
        let item = DeskItem {
            moment,
            event: DeskEvent::Bytes {
                conn,
                len: octets.len(),
            },
            octets: Vec::from_slice(alloc, octets).expect(stop, "octets"),
        };
        self.items.push(item).expect(stop, "room");
    }

    /// Adds an event that comes without octets.
    fn tells(&mut self, stop: &impl Abort, alloc: Global, moment: u64, event: DeskEvent)
        requires { octet_count event ≡ 0 }
    {
        let item = DeskItem {
            moment,
            event,
            octets: Vec::new(alloc),
        };
        self.items.push(item).expect(stop, "room");
    }

    fn add(&mut self, stop: &impl Abort, alloc: Global, moment: u64, happens: &Happens) {
        match *happens {
            Happens::Opens(conn, kind) => {
                let event = DeskEvent::Opened {
                    conn,
                    kind,
                    peer: CLIENT,
                    local: SERVER,
                };
                self.tells(stop, alloc, moment, event)
            }
            Happens::Gives(conn, octets) => self.gives(stop, alloc, moment, conn, octets),
            Happens::Closes(conn) => self.tells(stop, alloc, moment, DeskEvent::Closed { conn }),
            Happens::Ticks => self.tells(stop, alloc, moment, DeskEvent::Tick),
        }
    }
}

/// A desk after its run, and how many sessions are live.
#[derive(Drop)]
struct Played {
    tally: DeskTally,
    desk: ScriptDesk,
    live: u32,
}

/// A table of as many slots, with four rows and no worker of its own, and its book.
fn table_of(stop: &impl Abort, alloc: Global, slots: u32) -> (Table, DeskBook)
    ensures { IsBookOf result.0 result.1 }
{
    let size = TableSize {
        slots,
        rows: 4,
        workers: 1,
    };
    let (table, seat) = open_table(alloc, size).expect(stop, "a table");
    let book = DeskBook::make(alloc, seat, size).expect(stop, "a book");
    (table, book)
}

/// Calls of a desk that fail, counted from 1, and how many calls for the next event there are.
#[derive(Clone, Copy)]
struct Limits<'a> {
    fail_next: &'a [u64],
    fail_send: &'a [u64],
    turns: u64,
}

/// Nothing fails, and the desk comes to its end.
const NO_LIMITS: Limits = Limits {
    fail_next: &[],
    fail_send: &[],
    turns: 10_000,
};

/// The file of a desk, the slots of its table, and what fails.
#[derive(Clone, Copy)]
struct Setup<'a> {
    file: &'a str,
    slots: u32,
    limits: Limits<'a>,
}

/// A table of one slot, and nothing fails.
const ONE_SLOT: Setup = Setup {
    file: FILE,
    slots: 1,
    limits: NO_LIMITS,
};

fn room_of(stop: &impl Abort, alloc: Global, file: &str) -> DeskRoom {
    let Ok(conf) = read_conf(alloc, file.as_bytes()) else {
        panic!(stop; "a file");
    };
    let room = DeskRoom::make(alloc, &conf).expect(stop, "a room");
    let_conf_go(conf);
    room
}

fn let_conf_go(_conf: Conf) {}

/// A desk that is open and tells what happens at these moments.
fn desk_of(
    stop: &impl Abort,
    alloc: Global,
    limits: &Limits,
    events: &[(u64, Happens)],
) -> ScriptDesk
    ensures { IsTrue result.is_open }
{
    let mut script = Script::new(alloc);
    for (moment, happens) in events {
        script.add(stop, alloc, *moment, happens);
    }
    let fail_next = Vec::from_slice(alloc, limits.fail_next).expect(stop, "numbers");
    let fail_send = Vec::from_slice(alloc, limits.fail_send).expect(stop, "numbers");
    let mut desk = ScriptDesk::make(
        alloc,
        script.items,
        Vec::new(alloc),
        fail_next,
        fail_send,
        4_000,
        200_000,
    )
    .expect(stop, "a desk");
    desk.open(None, None).expect(stop, "open");
    desk
}

fn let_table_go(_table: Table, _book: DeskBook, _room: DeskRoom) {}

/// Runs a desk over what happens at these moments.
fn play(stop: &impl Abort, alloc: Global, setup: &Setup, events: &[(u64, Happens)]) -> Played {
    let (table, mut book) = table_of(stop, alloc, setup.slots);
    let mut room = room_of(stop, alloc, setup.file);
    let mut desk = desk_of(stop, alloc, &setup.limits, events);
    let turns = setup.limits.turns;
    let tally = run_desk(&table, &mut book, &mut room, &mut desk, turns);
    let live = book.live_len();
    let_table_go(table, book, room);
    Played { tally, desk, live }
}

/// The octets that were sent on a connection, in a row.
fn sent(stop: &impl Abort, alloc: Global, played: &Played, conn: u32) -> Vec<u8> {
    let mut all = Vec::new(alloc);
    for at in 0..4_000 {
        if let Some((deed, octets)) = played.desk.entry(at) {
            if deed == (DeskDeed::Sent { conn }) {
                all.extend_from_slice(octets).expect(stop, "room");
            }
        }
    }
    all
}

/// How often a connection was hung up.
fn hang_ups(played: &Played, conn: u32) -> u32 {
    let mut count = 0u32;
    for at in 0..4_000 {
        if let Some((deed, _)) = played.desk.entry(at) {
            if deed == (DeskDeed::HungUp { conn }) {
                count = count.saturating_add(1);
            }
        }
    }
    count
}

/// What a run has to come to.
#[derive(Clone, Copy)]
enum Wanted<'a> {
    /// These octets were sent on this connection.
    Sent(u32, &'a [u8]),
    /// This connection was hung up as often.
    HungUp(u32, u64),
    /// So many sessions are live, were closed, and have expired.
    Sessions(u32, u64, u64),
    /// So many events were taken.
    Events(u64),
    /// So many calls of the desk failed.
    Faults(u64),
    /// The desk ended so.
    Ends(DeskEnd),
}

fn expect_sent(
    stop: &impl Abort,
    alloc: Global,
    played: &Played,
    conn: u32,
    octets: &[u8],
    case: usize,
) {
    let all = sent(stop, alloc, played, conn);
    assert_eq!(stop; all.as_slice(), octets, "case {case}");
}

fn expect_number(stop: &impl Abort, found: u64, wanted: u64, case: usize) {
    assert_eq!(stop; found, wanted, "case {case}");
}

fn expect_sessions(stop: &impl Abort, played: &Played, wanted: (u32, u64, u64), case: usize) {
    let found = (played.live, played.tally.closed, played.tally.expired);
    assert_eq!(stop; found, wanted, "case {case}");
}

fn expect_end(stop: &impl Abort, found: DeskEnd, wanted: DeskEnd, case: usize) {
    assert_eq!(stop; found, wanted, "case {case}");
}

/// Ends a test where a run has come to something else.
fn expect(stop: &impl Abort, alloc: Global, played: &Played, wanted: &Wanted, case: usize) {
    match *wanted {
        Wanted::Sent(conn, octets) => expect_sent(stop, alloc, played, conn, octets, case),
        Wanted::HungUp(conn, count) => {
            expect_number(stop, u64::from(hang_ups(played, conn)), count, case)
        }
        Wanted::Sessions(live, closed, expired) => {
            expect_sessions(stop, played, (live, closed, expired), case)
        }
        Wanted::Events(count) => expect_number(stop, played.tally.events, count, case),
        Wanted::Faults(count) => expect_number(stop, played.tally.faults, count, case),
        Wanted::Ends(end) => expect_end(stop, played.tally.end, end, case),
    }
}

fn let_run_go(_played: Played) {}

/// Runs a desk, and ends the test where the run comes to anything else.
fn expect_run(
    stop: &impl Abort,
    alloc: Global,
    setup: &Setup,
    events: &[(u64, Happens)],
    wanted: &[Wanted],
    case: usize,
) {
    let played = play(stop, alloc, setup, events);
    for wanted in wanted {
        expect(stop, alloc, &played, wanted, case);
    }
    let_run_go(played);
}

/// A second, in nanoseconds.
const SECOND: u64 = 1_000_000_000;

/// Octets from a place to another.
fn part<'a>(stop: &impl Abort, octets: &'a [u8], from: usize, to: usize) -> &'a [u8] {
    assert!(stop; from <= to && to <= octets.len());
    &octets[from..to]
}

/// Set-Up-Response, Request-TW-Session, Start-Sessions and Stop-Sessions of a client that has one session, of port 6000,
/// with a Timeout of two seconds.
fn client_octets() -> [u8; 340] {
    let mut octets = [0; 340];
    octets[3] = 97;
    octets[164] = 5;
    octets[165] = 4;
    octets[176] = 0x17;
    octets[177] = 0x70;
    octets[178] = 0x13;
    octets[179] = 0x89;
    octets[243] = 2;
    octets[276] = 2;
    octets[308] = 3;
    octets[315] = 1;
    octets
}

/// Server Greeting, Server-Start, Accept-Session and Start-Ack, of a desk that was started at moment 0 and asked at second 5.
fn server_octets() -> [u8; 192] {
    let mut octets = [0; 192];
    octets[15] = 0x61;
    octets[50] = 0x04;
    octets[96] = 0x83;
    octets[97] = 0xAA;
    octets[98] = 0x7E;
    octets[99] = 0x80;
    octets[114] = 0x03;
    octets[115] = 0x5E;
    octets[123] = 1;
    octets[127] = 1;
    octets[128] = 0x2A;
    octets[129] = 0x05;
    octets[130] = 0xF2;
    octets
}

/// What happens where octets come one by one behind an event, at one moment.
fn one_by_one<'a>(
    stop: &impl Abort,
    alloc: Global,
    first: (u64, Happens<'a>),
    moment: u64,
    conn: u32,
    octets: &'a [u8],
) -> Vec<(u64, Happens<'a>)> {
    let mut events = Vec::new(alloc);
    events.push(first).expect(stop, "room");
    for at in 0..octets.len() {
        let piece = &octets[at..at + 1];
        events
            .push((moment, Happens::Gives(conn, piece)))
            .expect(stop, "room");
    }
    events
}
