//! Turns over a table with its desk: each kind that one thread can bring about, and a configuration that is set between a look
//! and its draw, where the calls of a turn are made one by one.

ghost use Rattle.session_rule.specs.Seats.{IsWorkerOf, worker_steps};
ghost use Rattle.session_desk.specs.Book.{IsBookOf};
ghost use Rattle.session_table.specs.Holding.{HoldsNothing};

use crate::judging::Verdict;
use crate::turning::{Drawn, judge_again, take_turn};
use refl_types::{
    Address, Clock, Config, ConfigParts, Endpoint, Extra, Key, Meta, Mode, Unanswered,
};
use session_desk::DeskBook;
use session_rule::{Table, TableSize, WorkerSeat, open_table};
use session_table::{DrawnRow, KnownRows, Seen, draw_row, find_by};
use std::alloc::Global;
use std::process::Abort;

const EXTRA: Extra = Extra {
    symmetrical: false,
    reflect: 0,
};

/// An HMAC key in block form.
const BLOCK: [u8; 64] = [0xA1; 64];

/// The HMAC under it of the 96 octets of `signed`, by another implementation.
const MAC: [u8; 16] = [
    0x72, 0xE7, 0x1B, 0x1A, 0xC1, 0x49, 0x77, 0xB7, 0x6B, 0xD6, 0xC3, 0x34, 0xBA, 0x6B, 0x2A, 0x06,
];

/// An unauthenticated request of session 7.
const PLAIN: [u8; 44] = [
    0, 0, 0, 5, 0x11, 0x22, 0x33, 0x44, 0x55, 0x66, 0x77, 0x88, 0, 1, 0, 7, 0, 0, 0, 0, 0, 0, 0, 0,
    0, 0, 0, 0, 0, 0, 0, 0, 0, 0, 0, 0, 0, 0, 0, 0, 0, 0, 0, 0,
];

/// An authenticated one.
fn signed() -> [u8; 112] {
    let mut octets = [0; 112];
    octets[3] = 5;
    octets[27] = 7;
    octets[96..].copy_from_slice(&MAC);
    octets
}

/// The key of session 7 of 192.0.2.1.
fn key(mode: Mode) -> Key {
    Key {
        local: 0,
        peer: Endpoint {
            address: Address::V4([192, 0, 2, 1]),
            port: 5000,
        },
        mode,
        ssid: 7,
    }
}

/// A stateful configuration that is told by its Multiplier.
fn config(rt: &impl Abort, multiplier: u8, key: Option<[u8; 64]>) -> Config {
    let parts = ConfigParts {
        stateful: true,
        clock: Clock::Ntp,
        offset: 0,
        synced: false,
        scale: 0,
        multiplier,
        info: [0; 4],
        tlvs: 0,
        key,
    };
    Config::make(parts).expect(rt, "a configuration")
}

/// What is told of a datagram of a session.
fn meta_of(key: &Key, octets: &[u8]) -> Meta {
    Meta {
        local: key.local,
        peer: key.peer,
        len: octets.len(),
        ttl: None,
        arrival: 0,
    }
}

/// What was drawn.
fn drawn(mode: Mode, row: u32, number: u32) -> Result<Drawn, Unanswered> {
    Ok(Drawn {
        mode,
        extra: EXTRA,
        row,
        number,
    })
}

/// A table with its desk and a worker.
#[derive(Drop)]
struct Stage {
    table: Table,
    book: DeskBook,
    worker: WorkerSeat,
    known: KnownRows,
    ghost desk: { IsBookOf table book },
    ghost one: { IsWorkerOf table worker },
    ghost idle: { HoldsNothing (worker_steps worker) },
}

impl Stage {
    /// One with a session.
    fn with(rt: &impl Abort, alloc: Global, key: &Key, config: &Config) -> Stage {
        let size = TableSize {
            slots: 4,
            rows: 4,
            workers: 1,
        };
        let (table, seat) = open_table(alloc, size).expect(rt, "a table");
        let mut book = DeskBook::make(alloc, seat, size).expect(rt, "a book");
        let worker = book.split(&table).expect(rt, "a worker");
        let known = KnownRows::make(alloc).expect(rt, "rows");
        assert!(rt; key.is_sound(&EXTRA));
        let place = book
            .reserve(&table, key, &EXTRA, config, 0)
            .expect(rt, "a slot");
        book.start(&table, &place, 0)
            .expect(rt, "a reserved session");
        Stage {
            table,
            book,
            worker,
            known,
        }
    }

    /// Gives a session another configuration.
    fn set(&mut self, rt: &impl Abort, key: &Key, config: &Config) {
        self.book
            .set(&self.table, key, config)
            .expect(rt, "a live session");
    }

    /// Closes a session, and says how many numbers were drawn.
    fn close(&mut self, rt: &impl Abort, key: &Key) -> u32 {
        self.book
            .close(&self.table, key)
            .expect(rt, "a live session")
    }

    /// The turn of a datagram.
    fn turn(&mut self, key: &Key, octets: &[u8]) -> Result<Drawn, Unanswered> {
        let meta = meta_of(key, octets);
        take_turn(
            &self.table,
            &mut self.worker,
            &mut self.known,
            &meta,
            octets,
        )
    }

    /// Looks the session of a datagram up, gives it another configuration, and draws. Answers the row seen, the number and the
    /// row drawn, and what is made of the datagram then.
    fn turn_while_set(
        &mut self,
        rt: &impl Abort,
        key: &Key,
        config: &Config,
        octets: &[u8],
    ) -> (u32, u32, u32, Verdict) {
        let meta = meta_of(key, octets);
        let (table, worker, known) = (&self.table, &mut self.worker, &mut self.known);
        let Seen::Held(sight) = find_by(table, worker, known, &meta, octets) else {
            panic!(rt; "no session");
        };
        self.book
            .set(table, key, config)
            .expect(rt, "a live session");
        let DrawnRow::Number { n, row } = draw_row(table, worker, &sight) else {
            panic!(rt; "a session that was closed");
        };
        let verdict = judge_again(table, worker, known, sight.key.mode, row, octets);
        (sight.row, n, row, verdict)
    }
}

#[test]
fn turns_draw_one_number_after_the_other(rt: HostRuntime) {
    let session = key(Mode::Plain);
    let mut stage = Stage::with(&rt, rt.alloc(), &session, &config(&rt, 1, None));
    for number in 0..3 {
        assert!(rt; stage.turn(&session, &PLAIN) == drawn(Mode::Plain, 1, number));
    }
    stage.set(&rt, &session, &config(&rt, 2, None));
    assert!(rt; stage.turn(&session, &PLAIN) == drawn(Mode::Plain, 2, 3));
    assert!(rt; stage.close(&rt, &session) == 4);
    assert!(rt; stage.turn(&session, &PLAIN) == Err(Unanswered::NoSession));
}

#[test]
fn a_silent_datagram_draws_no_number(rt: HostRuntime) {
    let session = key(Mode::Plain);
    let mut stage = Stage::with(&rt, rt.alloc(), &session, &config(&rt, 1, None));
    assert!(rt; stage.turn(&session, &PLAIN[..43]) == Err(Unanswered::Short));
    assert!(rt; stage.turn(&session, &[0; 44]) == Err(Unanswered::NoSession));
    assert!(rt; stage.turn(&session, &PLAIN) == drawn(Mode::Plain, 1, 0));
}

#[test]
fn an_authenticated_datagram_needs_its_hmac(rt: HostRuntime) {
    let session = key(Mode::Auth);
    let mut stage = Stage::with(&rt, rt.alloc(), &session, &config(&rt, 1, Some(BLOCK)));
    let mut changed = signed();
    changed[0] = 1;
    assert!(rt; stage.turn(&session, &changed) == Err(Unanswered::BadHmac));
    assert!(rt; stage.turn(&session, &signed()) == drawn(Mode::Auth, 1, 0));
    stage.set(&rt, &session, &config(&rt, 1, Some([0xB2; 64])));
    assert!(rt; stage.turn(&session, &signed()) == Err(Unanswered::BadHmac));
    assert!(rt; stage.close(&rt, &session) == 1);
}

#[test]
fn a_row_that_changes_behind_the_look_is_judged_again(rt: HostRuntime) {
    let session = key(Mode::Auth);
    let mut stage = Stage::with(&rt, rt.alloc(), &session, &config(&rt, 1, Some(BLOCK)));
    let same_key = config(&rt, 2, Some(BLOCK));
    let other_key = config(&rt, 2, Some([0xB2; 64]));
    let request = signed();
    let still = stage.turn_while_set(&rt, &session, &same_key, &request);
    assert!(rt; still == (1, 0, 2, Verdict::Reflect));
    let no_more = stage.turn_while_set(&rt, &session, &other_key, &request);
    assert!(rt; no_more == (2, 1, 3, Verdict::BadHmac));
    assert!(rt; stage.close(&rt, &session) == 2);
}
