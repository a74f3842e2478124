//! A table with its desk and two workers.

ghost use Rattle.std.specs.Prelude.{◌<◌, length};
ghost use Rattle.session_rule.specs.Seats.{IsWorkerOf, worker_steps};
ghost use Rattle.session_desk.specs.Book.{IsBookOf};
ghost use Rattle.session_table.specs.Holding.{HoldsNothing};

use super::requests::REQUEST;
use super::script::{LOCAL, Script, sender};
use net_io::{Got, ScriptPort};
use receive_worker::{Buffers, Tally, WorkEnd, turn, work};
use refl_types::{Clock, Config, ConfigParts, Endpoint, Extra, Key, Meta, Mode, Unanswered};
use reflect_core::{Judged, judge};
use session_desk::DeskBook;
use session_rule::{Table, TableSize, WorkerSeat, open_table};
use session_table::{
    Drawn, DrawnRow, Found, KnownRows, Seen, draw, draw_by, find, find_by, retire,
};
use std::alloc::Global;
use std::process::Abort;

const NO_EXTRA: Extra = Extra {
    symmetrical: false,
    reflect: 0,
};

/// The TLV types 3 and 5, as bits.
pub const USUAL_TLVS: u32 = 1 << 3 | 1 << 5;

/// The tally of a worker whose port ended at once.
pub const NOTHING: Tally = Tally {
    taken: 0,
    sent: 0,
    no_session: 0,
    short: 0,
    bad_hmac: 0,
    changed: 0,
    no_reply: 0,
    send_fault: 0,
    recv_fault: 0,
    end: WorkEnd::End,
};

/// The key of a session.
pub fn key(peer: Endpoint, mode: Mode, ssid: u16) -> Key {
    Key {
        local: 0,
        peer,
        mode,
        ssid,
    }
}

/// The key of the plain session 7 of the first sender.
pub fn plain_key() -> Key {
    key(sender(5000), Mode::Plain, 7)
}

/// A stateful configuration that supports these TLV types, with an HMAC key or without.
pub fn config(rt: &impl Abort, tlvs: u32, key: Option<[u8; 64]>) -> Config {
    let parts = ConfigParts {
        stateful: true,
        clock: Clock::Ntp,
        offset: 0,
        synced: false,
        scale: 0,
        multiplier: 1,
        info: [0; 4],
        tlvs,
        key,
    };
    Config::make(parts).expect(rt, "a configuration")
}

/// What is told of a datagram of a session.
pub fn meta_of(key: &Key, octets: &[u8]) -> Meta {
    Meta {
        local: key.local,
        peer: key.peer,
        len: octets.len(),
        ttl: None,
        arrival: 0,
    }
}

/// The row that a worker met, and what its configuration makes of a datagram.
#[derive(Clone, Copy, Debug, PartialEq, Eq)]
pub struct Met {
    pub row: u32,
    pub judged: Judged,
}

impl Met {
    fn new(rt: &impl Abort, key: &Key, row: u32, config: &Config, octets: &[u8]) -> Met {
        assert!(rt; config.as_parts().key.is_some());
        Met {
            row,
            judged: judge(key, config, octets),
        }
    }
}

#[derive(Drop)]
pub struct Stage {
    table: Table,
    book: DeskBook,
    first: WorkerSeat,
    second: WorkerSeat,
    buffers: Buffers,
    ghost desk: { IsBookOf table book },
    ghost one: { IsWorkerOf table first },
    ghost other: { IsWorkerOf table second },
    ghost idle: { HoldsNothing (worker_steps first) },
    ghost still: { HoldsNothing (worker_steps second) },
}

impl Stage {
    pub fn new(rt: &impl Abort, alloc: Global, slots: u32) -> Stage {
        let size = TableSize {
            slots,
            rows: 4,
            workers: 2,
        };
        let (table, seat) = open_table(alloc, size).expect(rt, "a table");
        let mut book = DeskBook::make(alloc, seat, size).expect(rt, "a book");
        let first = book.split(&table).expect(rt, "a worker");
        let second = book.split(&table).expect(rt, "a worker");
        let buffers = Buffers::make(alloc).expect(rt, "buffers");
        Stage {
            table,
            book,
            first,
            second,
            buffers,
        }
    }

    /// Opens a session.
    pub fn open(&mut self, rt: &impl Abort, key: &Key, config: &Config) {
        assert!(rt; key.is_sound(&NO_EXTRA));
        let place = self
            .book
            .reserve(&self.table, key, &NO_EXTRA, config, 0)
            .expect(rt, "a slot");
        self.book
            .start(&self.table, &place, 0)
            .expect(rt, "a reserved session");
    }

    /// Gives a session another configuration.
    pub fn set(&mut self, rt: &impl Abort, key: &Key, config: &Config) {
        self.book
            .set(&self.table, key, config)
            .expect(rt, "a live session");
    }

    /// Closes a session, and says how many numbers were drawn.
    pub fn close(&mut self, rt: &impl Abort, key: &Key) -> u32 {
        self.book
            .close(&self.table, key)
            .expect(rt, "a live session")
    }

    /// Looks the session of a request up, draws, and lets it go. Answers the number.
    #[inline(never)]
    pub fn look_up(&mut self, known: &mut KnownRows, meta: &Meta, octets: &[u8]) -> Option<u32> {
        let Seen::Held(sight) = find_by(&self.table, &mut self.first, known, meta, octets) else {
            return None;
        };
        let drawn = draw_by(&self.table, &mut self.first, known, &sight);
        retire(&self.table, &mut self.first);
        match drawn {
            DrawnRow::Number { n, .. } => Some(n),
            DrawnRow::NoSession => None,
        }
    }

    /// Looks the session of a request up, gives it another configuration, and draws. Answers what was met at both.
    pub fn turn_while_set(
        &mut self,
        rt: &impl Abort,
        key: &Key,
        config: &Config,
        octets: &[u8],
    ) -> (Met, Met) {
        let meta = meta_of(key, octets);
        let Found::Held(look) = find(&self.table, &mut self.first, &meta, octets) else {
            panic!(rt; "no session");
        };
        let seen = Met::new(rt, key, look.row, &look.config, octets);
        self.book
            .set(&self.table, key, config)
            .expect(rt, "a live session");
        let drawn = draw(&self.table, &mut self.first, &look);
        retire(&self.table, &mut self.first);
        let Drawn::Number { row, config, .. } = drawn else {
            panic!(rt; "a session that was closed");
        };
        (seen, Met::new(rt, key, row, &config, octets))
    }

    /// The first worker's work.
    pub fn work(&mut self, port: &mut ScriptPort, limit: u64, turns: u64) -> Tally
        requires { 0 < length port.old.bound }
        ensures { 0 < length port.new.bound }
    {
        let (seat, buffers) = (&mut self.first, &mut self.buffers);
        work(&self.table, seat, port, &[LOCAL], limit, turns, buffers)
    }

    /// The second worker's work.
    pub fn work_beside(&mut self, port: &mut ScriptPort, limit: u64, turns: u64) -> Tally
        requires { 0 < length port.old.bound }
        ensures { 0 < length port.new.bound }
    {
        let (seat, buffers) = (&mut self.second, &mut self.buffers);
        work(&self.table, seat, port, &[LOCAL], limit, turns, buffers)
    }

    /// The first worker's work up to the end of what a port is to give.
    pub fn work_out(&mut self, rt: &impl Abort, script: Script) -> Tally {
        let mut port = script.port(rt, &[], &[], &[]);
        let tally = self.work(&mut port, 0, 10_000);
        let_go_port(port);
        tally
    }

    /// One turn of the first worker, where its port gives a datagram.
    pub fn turn(&mut self, port: &mut ScriptPort) -> Result<(), Unanswered>
        requires { 0 < length port.old.bound }
        ensures { 0 < length port.new.bound }
    {
        let Ok(Got::Datagram(meta)) = self.buffers.recv(port) else {
            return Ok(());
        };
        let (seat, buffers) = (&mut self.first, &mut self.buffers);
        turn(&self.table, seat, port, &[LOCAL], &meta, buffers)
    }
}

/// What a worker of one session does with what a port gives.
fn served(
    rt: &impl Abort,
    alloc: Global,
    session: &Key,
    config: &Config,
    port: &mut ScriptPort,
) -> Tally
    requires { 0 < length port.old.bound }
{
    let mut stage = Stage::new(rt, alloc, 4);
    stage.open(rt, session, config);
    let tally = stage.work(port, 0, 1_000);
    let_go_stage(stage);
    tally
}

pub fn let_go_stage(_stage: Stage) {}

pub fn let_go_port(_port: ScriptPort) {}

/// What a plain session's worker does with five requests.
pub fn five(
    rt: &impl Abort,
    alloc: Global,
    moments: &[u64],
    fail_recv: &[u64],
    fail_send: &[u64],
) -> (ScriptPort, Tally) {
    let mut script = Script::new(alloc);
    script.give_often(rt, 5, &sender(5000), &REQUEST);
    let mut port = script.port(rt, moments, fail_recv, fail_send);
    let usual = config(rt, USUAL_TLVS, None);
    let tally = served(rt, alloc, &plain_key(), &usual, &mut port);
    (port, tally)
}

/// What a session's worker does with each front of a request.
pub fn fronts(
    rt: &impl Abort,
    alloc: Global,
    session: &Key,
    config: &Config,
    whole: &[u8],
) -> (ScriptPort, Tally) {
    let mut script = Script::new(alloc);
    script.give_fronts(rt, whole);
    let mut port = script.port(rt, &[], &[], &[]);
    let tally = served(rt, alloc, session, config, &mut port);
    (port, tally)
}

/// The port of a plain session's worker that took one datagram.
pub fn one_of(rt: &impl Abort, alloc: Global, config: &Config, octets: &[u8]) -> ScriptPort {
    let mut script = Script::new(alloc);
    script.give(rt, &sender(5000), octets);
    let mut port = script.port(rt, &[], &[], &[]);
    let tally = served(rt, alloc, &plain_key(), config, &mut port);
    assert!(rt; tally.taken == 1);
    port
}
