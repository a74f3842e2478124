//! Calls of the desk's book with their answers, worked out by hand.

ghost use Rattle.std.specs.Prelude.{◌≡◌, false, []};
ghost use Rattle.session_world.specs.Desk.{is_split};
ghost use Rattle.session_rule.specs.Seats.{size_of, IsWorkerOf, worker_steps};
ghost use Rattle.session_desk.specs.Book.{IsBookOf, steps_of};

use crate::shared::{NO_EXTRA, config, key};
use refl_types::{Address, Endpoint, Key, Mode};
use session_desk::{DeskBook, NoSuch, Place, ReserveFault, RowsFull, SetFault, Ticked};
use session_rule::{
    Table, TableSize, WorkerSeat, announce, draw_slot, load_key_word, look, open_table,
    retire_announcement,
};
use session_world::Query;
use std::alloc::Global;
use std::process::Abort;
use std::test::Fail;

/// A table of as many slots, with two rows and two workers, and its book.
fn open(rt: &impl Abort, alloc: Global, slots: u32) -> (Table, DeskBook)
    ensures same { IsBookOf result.0 result.1 }
    ensures free { is_split (steps_of result.1) 1 ≡ false }
    ensures workers { (size_of result.0).workers ≡ 2 }
    ensures slots { (size_of result.0).slots ≡ slots }
{
    let size = TableSize {
        slots,
        rows: 2,
        workers: 2,
    };
    let (table, seat) = open_table(alloc, size).expect(rt, "a table");
    let book = DeskBook::make(alloc, seat, size).expect(rt, "a book");
    (table, book)
}

fn reserve(
    rt: &impl Abort,
    table: &Table,
    book: &mut DeskBook,
    key: &Key,
    wait: u64,
) -> Result<Place, ReserveFault>
    requires { IsBookOf table.now book.old }
    ensures { IsBookOf table.now book.new }
{
    assert!(rt; key.is_sound(&NO_EXTRA));
    book.reserve(table, key, &NO_EXTRA, &config(rt, 1), wait)
}

/// Reserves and starts a session at the moment 0.
fn open_session(rt: &impl Abort, table: &Table, book: &mut DeskBook, key: &Key, wait: u64) -> Place
    requires { IsBookOf table.now book.old }
    ensures { IsBookOf table.now book.new }
{
    let place = reserve(rt, table, book, key, wait).expect(rt, "a place");
    book.start(table, &place, 0).expect(rt, "a session");
    place
}

/// The datagrams of the session with port 5000 and SSID 7.
const QUERY: Query = Query {
    local: 0,
    peer: Endpoint {
        address: Address::V4([192, 0, 2, 1]),
        port: 5000,
    },
    plain: Some(7),
    auth: None,
};

/// A worker that has made no step finds that session in the one slot of the table, under generation 1 and row 1, and draws
/// its first number. The words are written out from their layout.
fn draw_first(rt: &impl Abort, table: &Table, worker: &mut WorkerSeat)
    requires same { IsWorkerOf table.now worker.old }
    requires first { worker_steps worker.old ≡ [] }
    requires slots { (size_of table.now).slots ≡ 1 }
    ensures { IsWorkerOf table.now worker.new }
{
    announce(table, worker, 0);
    let seen = look(table, worker, 0, &QUERY);
    assert!(rt; seen == 0x4002);
    let first = load_key_word(table, worker, 0, 1);
    assert!(rt; first == 0xC000_0201_0000_0000);
    let second = load_key_word(table, worker, 0, 2);
    assert!(rt; second == 0);
    let third = load_key_word(table, worker, 0, 3);
    assert!(rt; third == 0x1388_0007_0000_0000);
    let fourth = load_key_word(table, worker, 0, 4);
    assert!(rt; fourth == 0);
    let drawn = draw_slot(table, worker, 0);
    assert!(rt; drawn == 0x4002);
    retire_announcement(table, worker);
}

fn let_go(_table: Table, _book: DeskBook) {}

#[test]
fn a_slot_is_used_again_under_its_next_generation(rt: HostRuntime) {
    let (table, mut book) = open(&rt, rt.alloc(), 1);
    let session = key(Mode::Plain, 5000, 7);
    for generation in 1..=2 {
        let place = open_session(&rt, &table, &mut book, &session, 0);
        assert_eq!(rt;
            place,
            Place {
                slot: 0,
                generation
            }
        );
        assert_eq!(rt; book.count(&table, &session), Ok(0));
        assert_eq!(rt; book.close(&table, &session), Ok(0));
        assert_eq!(rt; book.close(&table, &session), Err(NoSuch));
    }
    let_go(table, book);
}

#[test]
fn a_slot_that_a_worker_has_announced_is_not_used_again(rt: HostRuntime) -> Result<(), Fail> {
    let (table, mut book) = open(&rt, rt.alloc(), 1);
    let mut worker = book.split(&table).expect(&rt, "a worker");
    let first = key(Mode::Plain, 5000, 7);
    let second = key(Mode::Plain, 5001, 7);
    open_session(&rt, &table, &mut book, &first, 0);
    announce(&table, &mut worker, 0);
    assert_eq!(rt; book.close(&table, &first), Ok(0));
    let full = ReserveFault::Full {
        live: 0,
        reserved: 0,
        retired: 0,
        held: 1,
    };
    assert_eq!(rt; reserve(&rt, &table, &mut book, &second, 0), Err(full));
    retire_announcement(&table, &mut worker);
    let place = open_session(&rt, &table, &mut book, &second, 0);
    assert_eq!(rt;
        place,
        Place {
            slot: 0,
            generation: 2
        }
    );
    book.join(&table, worker);
    let_go(table, book);
    Ok(())
}

#[test]
fn another_slot_is_used_while_a_worker_holds_one(rt: HostRuntime) -> Result<(), Fail> {
    let (table, mut book) = open(&rt, rt.alloc(), 2);
    let mut worker = book.split(&table).expect(&rt, "a worker");
    let first = open_session(&rt, &table, &mut book, &key(Mode::Plain, 5001, 1), 0);
    assert_eq!(rt;
        first,
        Place {
            slot: 0,
            generation: 1
        }
    );
    announce(&table, &mut worker, 0);
    assert_eq!(rt; book.close(&table, &key(Mode::Plain, 5001, 1)), Ok(0));
    let second = reserve(&rt, &table, &mut book, &key(Mode::Plain, 5001, 2), 0);
    assert_eq!(rt;
        second,
        Ok(Place {
            slot: 1,
            generation: 1
        })
    );
    let full = ReserveFault::Full {
        live: 0,
        reserved: 1,
        retired: 0,
        held: 1,
    };
    let third = reserve(&rt, &table, &mut book, &key(Mode::Plain, 5001, 3), 0);
    assert_eq!(rt; third, Err(full));
    let_go(table, book);
    Ok(())
}

#[test]
fn a_draw_is_counted_and_lets_a_session_live_on(rt: HostRuntime) -> Result<(), Fail> {
    let (table, mut book) = open(&rt, rt.alloc(), 1);
    let mut worker = book.split(&table).expect(&rt, "a worker");
    let session = key(Mode::Plain, 5000, 7);
    open_session(&rt, &table, &mut book, &session, 10);
    draw_first(&rt, &table, &mut worker);
    assert_eq!(rt; book.count(&table, &session), Ok(1));
    assert_eq!(rt;
        book.tick(&table, 10),
        Ticked {
            closed: 0,
            expired: 0
        }
    );
    assert_eq!(rt;
        book.tick(&table, 20),
        Ticked {
            closed: 0,
            expired: 1
        }
    );
    assert_eq!(rt; book.count(&table, &session), Err(NoSuch));
    book.join(&table, worker);
    let_go(table, book);
    Ok(())
}

#[test]
fn a_session_whose_word_changed_is_noted_anew_and_expires_later(rt: HostRuntime) {
    let (table, mut book) = open(&rt, rt.alloc(), 2);
    let changed = key(Mode::Plain, 5000, 7);
    let idle = key(Mode::Plain, 5000, 8);
    open_session(&rt, &table, &mut book, &changed, 10);
    open_session(&rt, &table, &mut book, &idle, 11);
    assert_eq!(rt; book.set(&table, &changed, &config(&rt, 2)), Ok(()));
    for (now, closed, expired) in [(10, 0, 0), (11, 0, 1), (19, 0, 0), (20, 0, 1), (21, 0, 0)] {
        assert_eq!(rt; book.tick(&table, now), Ticked { closed, expired });
    }
    assert_eq!(rt; book.count(&table, &changed), Err(NoSuch));
    let_go(table, book);
}

#[test]
fn a_session_is_closed_at_its_closing_moment(rt: HostRuntime) {
    let (table, mut book) = open(&rt, rt.alloc(), 1);
    let session = key(Mode::Twamp, 5000, 0);
    open_session(&rt, &table, &mut book, &session, 0);
    assert_eq!(rt; book.close_at(&session, 9), Ok(()));
    assert_eq!(rt;
        book.tick(&table, 8),
        Ticked {
            closed: 0,
            expired: 0
        }
    );
    assert_eq!(rt;
        book.tick(&table, 9),
        Ticked {
            closed: 1,
            expired: 0
        }
    );
    assert_eq!(rt; book.close_at(&session, 9), Err(NoSuch));
    let_go(table, book);
}

#[test]
fn a_slot_is_retired_after_all_its_generations(rt: HostRuntime) {
    let (table, mut book) = open(&rt, rt.alloc(), 1);
    let session = key(Mode::Plain, 5000, 7);
    for generation in 1..=262_143 {
        let place = open_session(&rt, &table, &mut book, &session, 0);
        assert_eq!(rt; place.generation, generation);
        assert_eq!(rt; book.close(&table, &session), Ok(0));
    }
    let full = ReserveFault::Full {
        live: 0,
        reserved: 0,
        retired: 1,
        held: 0,
    };
    assert_eq!(rt; reserve(&rt, &table, &mut book, &session, 0), Err(full));
    let_go(table, book);
}

#[test]
fn a_refusal_names_its_cause(rt: HostRuntime) {
    let (table, mut book) = open(&rt, rt.alloc(), 4);
    let live = key(Mode::Plain, 5000, 7);
    open_session(&rt, &table, &mut book, &live, 0);
    let faults = [
        (live, ReserveFault::Duplicate(live)),
        (key(Mode::Auth, 5000, 7), ReserveFault::ModeClash(live)),
        (key(Mode::Auth, 5001, 7), ReserveFault::NoKey),
    ];
    for (key, fault) in faults {
        assert_eq!(rt; reserve(&rt, &table, &mut book, &key, 0), Err(fault));
    }
    assert_eq!(rt; book.set(&table, &live, &config(&rt, 2)), Ok(()));
    assert_eq!(rt;
        book.set(&table, &live, &config(&rt, 3)),
        Err(SetFault::RowsFull)
    );
    assert_eq!(rt; book.keep_row(&table, &config(&rt, 3)), Err(RowsFull));
    assert_eq!(rt;
        book.admits(&key(Mode::Plain, 5000, 8), &config(&rt, 1)),
        Ok(())
    );
    let_go(table, book);
}

#[test]
fn sessions_lie_from_their_place_on_and_are_listed_in_the_order_of_starting(rt: HostRuntime) {
    let (table, mut book) = open(&rt, rt.alloc(), 16);
    let first = key(Mode::Plain, 5000, 7);
    let second = key(Mode::Plain, 5000, 8);
    let early = reserve(&rt, &table, &mut book, &first, 0).expect(&rt, "a place");
    assert_eq!(rt;
        early,
        Place {
            slot: 5,
            generation: 1
        }
    );
    let late = open_session(&rt, &table, &mut book, &second, 0);
    assert_eq!(rt;
        late,
        Place {
            slot: 6,
            generation: 1
        }
    );
    assert_eq!(rt; book.start(&table, &early, 0), Ok(()));
    assert_eq!(rt; book.abandon(&early), Err(NoSuch));
    assert_eq!(rt; book.live_len(), 2);
    assert_eq!(rt; book.live_at(0), Some(second));
    assert_eq!(rt; book.live_at(1), Some(first));
    assert_eq!(rt; book.live_place(&first), Some(early));
    let_go(table, book);
}

#[test]
fn a_full_table_is_opened_passed_and_closed(rt: HostRuntime) {
    let (table, mut book) = open(&rt, rt.alloc(), 16_384);
    for port in 0..16_384 {
        open_session(&rt, &table, &mut book, &key(Mode::Plain, port, 7), 1);
    }
    assert_eq!(rt; book.live_len(), 16_384);
    assert_eq!(rt;
        book.tick(&table, 0),
        Ticked {
            closed: 0,
            expired: 0
        }
    );
    for port in 0..16_384 {
        assert_eq!(rt; book.close(&table, &key(Mode::Plain, port, 7)), Ok(0));
    }
    assert_eq!(rt; book.live_len(), 0);
    let_go(table, book);
}
