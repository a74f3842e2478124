//! What the tests do with a table.

ghost use Rattle.std.specs.Prelude.{◌≡◌};
ghost use Rattle.session_rule.specs.Seats.{IsWorkerOf, worker_steps};
ghost use Rattle.session_desk.specs.Book.{IsBookOf};
ghost use Rattle.session_table.specs.Holding.{HoldsNothing};

use refl_types::{Address, Clock, Config, ConfigParts, Endpoint, Extra, Key, Meta, Mode};
use session_desk::DeskBook;
use session_rule::{Table, TableSize, WorkerSeat, open_table};
use session_table::{
    Drawn, DrawnRow, Found, KnownRows, Seen, draw, draw_by, find, find_by, retire,
};
use std::alloc::Global;
use std::process::Abort;

const SENDER: Address = Address::V4([192, 0, 2, 1]);

pub const NO_EXTRA: Extra = Extra {
    symmetrical: false,
    reflect: 0,
};

/// The key of a session with a port of 192.0.2.1.
pub fn key(mode: Mode, port: u16, ssid: u16) -> Key
    ensures { result.mode ≡ mode }
{
    Key {
        local: 0,
        peer: Endpoint {
            address: SENDER,
            port,
        },
        mode,
        ssid,
    }
}

/// A stateful configuration without a key, with a Multiplier of its own.
pub fn config(rt: &impl Abort, multiplier: u8) -> Config {
    let parts = ConfigParts {
        stateful: true,
        clock: Clock::Ntp,
        offset: 0,
        synced: false,
        scale: 0,
        multiplier,
        info: [0; 4],
        tlvs: 0,
        key: None,
    };
    Config::make(parts).expect(rt, "a configuration")
}

/// What is told of a datagram of 192.0.2.1 of 16 octets.
fn meta(port: u16) -> Meta {
    Meta {
        local: 0,
        peer: Endpoint {
            address: SENDER,
            port,
        },
        len: 16,
        ttl: None,
        arrival: 0,
    }
}

/// A table of 16 slots, 4 rows and 2 workers, its book, and both workers.
pub fn begin(rt: &impl Abort, alloc: Global) -> (Table, DeskBook, WorkerSeat, WorkerSeat)
    ensures book { IsBookOf result.0 result.1 }
    ensures first { IsWorkerOf result.0 result.2 × HoldsNothing (worker_steps result.2) }
    ensures second { IsWorkerOf result.0 result.3 × HoldsNothing (worker_steps result.3) }
{
    let size = TableSize {
        slots: 16,
        rows: 4,
        workers: 2,
    };
    let (table, seat) = open_table(alloc, size).expect(rt, "a table");
    let mut book = DeskBook::make(alloc, seat, size).expect(rt, "a book");
    let first = book.split(&table).expect(rt, "a worker");
    let second = book.split(&table).expect(rt, "a worker");
    (table, book, first, second)
}

/// Reserves and starts a session, and answers its slot and generation.
pub fn open(
    rt: &impl Abort,
    table: &Table,
    book: &mut DeskBook,
    key: &Key,
    config: &Config,
) -> (u32, u32)
    requires same { IsBookOf table.now book.old }
    requires plain { key.now.mode ≡ Mode.Plain }
    ensures { IsBookOf table.now book.new }
{
    let place = book
        .reserve(table, key, &NO_EXTRA, config, 0)
        .expect(rt, "a slot");
    book.start(table, &place, 0)
        .expect(rt, "a reserved session");
    (place.slot, place.generation)
}

/// What a turn came to: how many slots were looked at, and the number and row that were drawn.
pub type Outcome = (u32, Option<(u32, u32)>);

/// Looks a session up for a datagram, and draws where there is one. The words of its row are loaded each time.
pub fn turn(table: &Table, worker: &mut WorkerSeat, port: u16, ssid: u8) -> Outcome
    requires same { IsWorkerOf table.now worker.old }
    requires nothing { HoldsNothing (worker_steps worker.old) }
    ensures same { IsWorkerOf table.now worker.new }
    ensures nothing { HoldsNothing (worker_steps worker.new) }
{
    let mut octets = [0; 16];
    octets[15] = ssid;
    match find(table, worker, &meta(port), &octets) {
        Found::Held(look) => {
            let drawn = draw(table, worker, &look);
            retire(table, worker);
            match drawn {
                Drawn::Number { n, row, .. } => (look.passed, Some((n, row))),
                Drawn::NoSession => (look.passed, None),
            }
        }
        Found::NoSession { passed } => (passed, None),
    }
}

/// The same, with rows that are kept.
pub fn turn_by(
    table: &Table,
    worker: &mut WorkerSeat,
    known: &mut KnownRows,
    port: u16,
    ssid: u8,
) -> Outcome
    requires same { IsWorkerOf table.now worker.old }
    requires nothing { HoldsNothing (worker_steps worker.old) }
    ensures same { IsWorkerOf table.now worker.new }
    ensures nothing { HoldsNothing (worker_steps worker.new) }
{
    let mut octets = [0; 16];
    octets[15] = ssid;
    match find_by(table, worker, known, &meta(port), &octets) {
        Seen::Held(sight) => {
            let drawn = draw_by(table, worker, known, &sight);
            retire(table, worker);
            match drawn {
                DrawnRow::Number { n, row } => (sight.passed, Some((n, row))),
                DrawnRow::NoSession => (sight.passed, None),
            }
        }
        Seen::NoSession { passed } => (passed, None),
    }
}

/// Looks a session up, has its configuration changed, and draws. Answers the row that was seen, and the number, row and
/// Multiplier that were drawn.
pub fn turn_while_set(
    rt: &impl Abort,
    table: &Table,
    book: &mut DeskBook,
    worker: &mut WorkerSeat,
    key: &Key,
    config: &Config,
) -> Option<(u32, u32, u32, u8)>
    requires book { IsBookOf table.now book.old }
    requires same { IsWorkerOf table.now worker.old }
    requires nothing { HoldsNothing (worker_steps worker.old) }
    ensures book { IsBookOf table.now book.new }
    ensures same { IsWorkerOf table.now worker.new }
    ensures nothing { HoldsNothing (worker_steps worker.new) }
{
    let mut octets = [0; 16];
    octets[14..].copy_from_slice(&key.ssid.to_be_bytes());
    match find(table, worker, &meta(key.peer.port), &octets) {
        Found::Held(look) => {
            book.set(table, key, config).expect(rt, "a live session");
            let drawn = draw(table, worker, &look);
            retire(table, worker);
            match drawn {
                Drawn::Number { n, row, config } => {
                    Some((look.row, n, row, config.as_parts().multiplier))
                }
                Drawn::NoSession => None,
            }
        }
        Found::NoSession { .. } => None,
    }
}

/// Looks a session up, has it closed, and draws. Answers the count at its closing, and whether a number was drawn.
pub fn turn_while_closed(
    rt: &impl Abort,
    table: &Table,
    book: &mut DeskBook,
    worker: &mut WorkerSeat,
    key: &Key,
) -> Option<(u32, bool)>
    requires book { IsBookOf table.now book.old }
    requires same { IsWorkerOf table.now worker.old }
    requires nothing { HoldsNothing (worker_steps worker.old) }
    ensures book { IsBookOf table.now book.new }
    ensures same { IsWorkerOf table.now worker.new }
    ensures nothing { HoldsNothing (worker_steps worker.new) }
{
    let mut octets = [0; 16];
    octets[14..].copy_from_slice(&key.ssid.to_be_bytes());
    match find(table, worker, &meta(key.peer.port), &octets) {
        Found::Held(look) => {
            let count = book.close(table, key).expect(rt, "a live session");
            let drawn = draw(table, worker, &look);
            retire(table, worker);
            match drawn {
                Drawn::Number { .. } => Some((count, true)),
                Drawn::NoSession => Some((count, false)),
            }
        }
        Found::NoSession { .. } => None,
    }
}

/// Joins both workers, and lets all go.
pub fn let_go(table: Table, mut book: DeskBook, first: WorkerSeat, second: WorkerSeat)
    requires book { IsBookOf table book }
    requires first { IsWorkerOf table first }
    requires second { IsWorkerOf table second }
{
    book.join(&table, first);
    book.join(&table, second);
}
