//! Worked examples, read as schedules.
use crate::plain::{Answer, Event, Move, Stop, answers, gives, is_legal, play};
use crate::{Actor, Query, Step, TableSize};
use refl_types::{Address, Endpoint, Extra, Key, Memory, Mode};
use slot_word::Fields;
use std::alloc::Global;
use std::test::Fail;

const PEER: Endpoint = Endpoint {
    address: Address::V4([192, 0, 2, 1]),
    port: 5001,
};

fn key(mode: Mode, ssid: u16) -> Key {
    Key {
        local: 0,
        peer: PEER,
        mode,
        ssid,
    }
}

fn query(ssid: u16) -> Query {
    Query {
        local: 0,
        peer: PEER,
        plain: Some(ssid),
        auth: Some(ssid),
    }
}

fn event(by: Actor, answer: Answer) -> Event {
    Event { by, answer }
}

// A plan that is being written.
#[derive(Drop)]
struct Plan {
    moves: Vec<Move>,
}

impl Plan {
    fn add(&mut self, actor: Actor, step: Step) -> Result<(), Memory> {
        if self.moves.push(Move { actor, step }).is_err() {
            return Err(Memory);
        }
        Ok(())
    }

    // The desk writes a row whose first word is this one.
    fn row(&mut self, row: u32, head: u64) -> Result<(), Memory> {
        for index in 1..13 {
            let word = if index == 1 { head } else { 0 };
            self.add(0, Step::WriteRow { row, index, word })?;
        }
        Ok(())
    }

    fn key(&mut self, slot: u32, key: &Key) -> Result<(), Memory> {
        let extra = Extra {
            symmetrical: false,
            reflect: 0,
        };
        let words = session_key::key_words(key, &extra);
        self.add(
            0,
            Step::WriteKey {
                slot,
                index: 1,
                word: words[0],
            },
        )?;
        self.add(
            0,
            Step::WriteKey {
                slot,
                index: 2,
                word: words[1],
            },
        )?;
        self.add(
            0,
            Step::WriteKey {
                slot,
                index: 3,
                word: words[2],
            },
        )?;
        self.add(
            0,
            Step::WriteKey {
                slot,
                index: 4,
                word: words[3],
            },
        )
    }

    // The desk opens a session in a new slot.
    fn session(&mut self, slot: u32, key: &Key, row: u32) -> Result<(), Memory> {
        self.key(slot, key)?;
        self.add(0, Step::ReserveNew { slot, row })?;
        self.add(0, Step::Start { slot, read: 0 })
    }

    fn split(&mut self, worker: u32) -> Result<(), Memory> {
        self.add(0, Step::Split { worker, read: 0 })
    }

    fn scan(&mut self, worker: u32) -> Result<(), Memory> {
        self.add(0, Step::Scan { worker, read: 0 })
    }

    // A worker announces a slot, looks at it and loads its key words.
    fn find(&mut self, worker: u32, slot: u32, query: Query) -> Result<(), Memory> {
        self.add(worker, Step::Announce { slot })?;
        self.add(
            worker,
            Step::Look {
                slot,
                query,
                read: 0,
            },
        )?;
        for index in 1..5 {
            self.add(
                worker,
                Step::LoadKey {
                    slot,
                    index,
                    read: 0,
                },
            )?;
        }
        Ok(())
    }

    fn draw(&mut self, worker: u32, slot: u32) -> Result<(), Memory> {
        self.add(worker, Step::Draw { slot, read: 0 })
    }
}

fn begin(alloc: Global) -> Plan {
    Plan {
        moves: Vec::new(alloc),
    }
}

const ONE: TableSize = TableSize {
    slots: 1,
    rows: 2,
    workers: 1,
};

// The first word of a configuration, with an HMAC key or without one.
const WITH_KEY: u64 = 1 << 26 | 1 << 24 | 1;

const OTHER_WITH_KEY: u64 = 1 << 26 | 1 << 24 | 2;

const PLAIN: u64 = 1 << 24 | 1;

// Whether the events are legal, and give just what the desk and the first worker answered in the plan.
fn explains(alloc: Global, size: &TableSize, plan: &Plan, events: &[Event]) -> Result<bool, Stop> {
    let moves = play(alloc, size, &plan.moves)?;
    let desk = answers(alloc, size, &moves, 0)?;
    let worker = answers(alloc, size, &moves, 1)?;
    Ok(is_legal(alloc, events)? && gives(events, 0, &desk) && gives(events, 1, &worker))
}

#[test]
fn a_configuration_may_change_between_a_sight_and_its_draw(rt: HostRuntime) -> Result<(), Fail> {
    let k = key(Mode::Auth, 7);
    let mut plan = begin(rt.alloc());
    plan.row(1, WITH_KEY)?;
    plan.row(2, OTHER_WITH_KEY)?;
    plan.session(0, &k, 1)?;
    plan.split(1)?;
    plan.find(1, 0, query(7))?;
    plan.add(
        0,
        Step::Reconfigure {
            slot: 0,
            old: 1,
            new: 2,
            read: 0,
        },
    )?;
    plan.draw(1, 0)?;
    let history = [
        event(0, Answer::Opened { key: k, row: 1 }),
        event(
            1,
            Answer::Seen {
                query: query(7),
                key: k,
                row: 1,
            },
        ),
        event(0, Answer::Configured { key: k, row: 2 }),
        event(
            1,
            Answer::Drew {
                key: k,
                number: 0,
                row: 2,
            },
        ),
    ];
    assert_eq!(rt; explains(rt.alloc(), &ONE, &plan, &history), Ok(true));
    Ok(())
}

#[test]
fn a_slot_that_is_held_after_its_closing_is_not_reserved_until_it_is_let_go(
    rt: HostRuntime,
) -> Result<(), Fail> {
    let size = TableSize {
        slots: 1,
        rows: 1,
        workers: 2,
    };
    let (first, second) = (key(Mode::Plain, 1), key(Mode::Plain, 2));
    let mut plan = begin(rt.alloc());
    plan.row(1, PLAIN)?;
    plan.session(0, &first, 1)?;
    plan.split(1)?;
    plan.split(2)?;
    plan.find(1, 0, query(1))?;
    plan.add(0, Step::Close { slot: 0, read: 0 })?;
    let held = plan.moves.len();
    plan.scan(1)?;
    plan.scan(2)?;
    plan.key(0, &second)?;
    assert_eq!(rt;
        play(rt.alloc(), &size, &plan.moves).err(),
        Some(Stop::Refused(held + 2))
    );

    plan.moves.truncate(held);
    plan.draw(1, 0)?;
    plan.add(1, Step::Retire)?;
    plan.scan(1)?;
    plan.scan(2)?;
    plan.key(0, &second)?;
    plan.add(
        0,
        Step::ReserveUsed {
            slot: 0,
            generation: 2,
            row: 1,
        },
    )?;
    plan.add(0, Step::Start { slot: 0, read: 0 })?;
    plan.find(1, 0, query(2))?;
    plan.draw(1, 0)?;
    let history = [
        event(0, Answer::Opened { key: first, row: 1 }),
        event(
            1,
            Answer::Seen {
                query: query(1),
                key: first,
                row: 1,
            },
        ),
        event(
            0,
            Answer::Closed {
                key: first,
                count: 0,
            },
        ),
        event(1, Answer::Late { query: query(1) }),
        event(
            0,
            Answer::Opened {
                key: second,
                row: 1,
            },
        ),
        event(
            1,
            Answer::Seen {
                query: query(2),
                key: second,
                row: 1,
            },
        ),
        event(
            1,
            Answer::Drew {
                key: second,
                number: 0,
                row: 1,
            },
        ),
    ];
    assert_eq!(rt; explains(rt.alloc(), &size, &plan, &history), Ok(true));
    Ok(())
}

#[test]
fn a_session_that_stands_still_between_two_peeks_expires(rt: HostRuntime) -> Result<(), Fail> {
    let k = key(Mode::Plain, 1);
    let mut plan = begin(rt.alloc());
    plan.row(1, PLAIN)?;
    plan.session(0, &k, 1)?;
    plan.split(1)?;
    plan.find(1, 0, query(1))?;
    plan.draw(1, 0)?;
    plan.add(0, Step::Peek { slot: 0, read: 0 })?;
    plan.add(0, Step::Peek { slot: 0, read: 0 })?;
    let fields = Fields {
        sequence: 1,
        generation: 1,
        row: 1,
        closed: false,
    };
    let stale = Fields {
        sequence: 0,
        generation: 1,
        row: 1,
        closed: false,
    };
    plan.add(
        0,
        Step::Expire {
            slot: 0,
            expected: slot_word::pack(&stale),
            read: 0,
        },
    )?;
    plan.add(
        0,
        Step::Expire {
            slot: 0,
            expected: slot_word::pack(&fields),
            read: 0,
        },
    )?;
    let counted = event(
        0,
        Answer::Counted {
            key: k,
            count: 1,
            row: 1,
        },
    );
    let history = [
        event(0, Answer::Opened { key: k, row: 1 }),
        event(
            1,
            Answer::Seen {
                query: query(1),
                key: k,
                row: 1,
            },
        ),
        event(
            1,
            Answer::Drew {
                key: k,
                number: 0,
                row: 1,
            },
        ),
        counted,
        counted,
        counted,
        event(
            0,
            Answer::Expired {
                key: k,
                count: 1,
                row: 1,
            },
        ),
    ];
    assert_eq!(rt; explains(rt.alloc(), &ONE, &plan, &history), Ok(true));
    let last = plan.moves.len();
    plan.add(0, Step::Peek { slot: 0, read: 0 })?;
    assert_eq!(rt;
        play(rt.alloc(), &ONE, &plan.moves).err(),
        Some(Stop::Refused(last))
    );
    Ok(())
}

#[test]
fn the_next_slot_is_reserved_while_the_first_is_held(rt: HostRuntime) -> Result<(), Fail> {
    let size = TableSize {
        slots: 2,
        rows: 1,
        workers: 1,
    };
    let mut plan = begin(rt.alloc());
    plan.row(1, PLAIN)?;
    plan.session(0, &key(Mode::Plain, 1), 1)?;
    plan.split(1)?;
    plan.find(1, 0, query(1))?;
    plan.add(0, Step::Close { slot: 0, read: 0 })?;
    plan.scan(1)?;
    plan.key(1, &key(Mode::Plain, 2))?;
    plan.add(0, Step::ReserveNew { slot: 1, row: 1 })?;
    assert!(rt; play(rt.alloc(), &size, &plan.moves).is_ok());
    let next = plan.moves.len();
    plan.scan(1)?;
    plan.key(0, &key(Mode::Plain, 3))?;
    assert_eq!(rt;
        play(rt.alloc(), &size, &plan.moves).err(),
        Some(Stop::Refused(next + 1))
    );

    // The walk for these keys begins at slot 0, so slot 1 isn't reserved before it.
    let mut other = begin(rt.alloc());
    other.row(1, PLAIN)?;
    other.key(1, &key(Mode::Plain, 2))?;
    let at = other.moves.len();
    other.add(0, Step::ReserveNew { slot: 1, row: 1 })?;
    assert_eq!(rt;
        play(rt.alloc(), &size, &other.moves).err(),
        Some(Stop::Refused(at))
    );
    Ok(())
}

#[test]
fn steps_that_no_definition_allows_are_refused(rt: HostRuntime) -> Result<(), Fail> {
    let mut plan = begin(rt.alloc());
    plan.row(1, PLAIN)?;
    plan.session(0, &key(Mode::Plain, 1), 1)?;
    plan.split(1)?;
    let seen = plan.moves.len() + 6;
    let wrong = [
        // a look at a slot that isn't announced, a second split, a start of what is open, a row that no word names
        Move {
            actor: 1,
            step: Step::Look {
                slot: 0,
                query: query(1),
                read: 0,
            },
        },
        Move {
            actor: 0,
            step: Step::Split { worker: 1, read: 0 },
        },
        Move {
            actor: 0,
            step: Step::Start { slot: 0, read: 0 },
        },
        Move {
            actor: 1,
            step: Step::LoadRow {
                row: 1,
                index: 1,
                read: 0,
            },
        },
        Move {
            actor: 1,
            step: Step::Draw { slot: 0, read: 0 },
        },
    ];
    for m in &wrong {
        let at = plan.moves.len();
        plan.add(m.actor, m.step)?;
        assert_eq!(rt;
            play(rt.alloc(), &ONE, &plan.moves).err(),
            Some(Stop::Refused(at))
        );
        plan.moves.truncate(at);
    }
    // a second draw on one sight
    plan.find(1, 0, query(1))?;
    plan.draw(1, 0)?;
    plan.draw(1, 0)?;
    assert_eq!(rt;
        play(rt.alloc(), &ONE, &plan.moves).err(),
        Some(Stop::Refused(seen + 1))
    );
    Ok(())
}

#[test]
fn a_miss_of_a_bound_session_is_explained_by_no_order(rt: HostRuntime) -> Result<(), Fail> {
    let k = key(Mode::Plain, 1);
    let opened = event(0, Answer::Opened { key: k, row: 1 });
    let missed = event(1, Answer::Missed { query: query(1) });
    let drew = event(
        1,
        Answer::Drew {
            key: k,
            number: 0,
            row: 1,
        },
    );
    assert_eq!(rt; is_legal(rt.alloc(), &[missed, opened]), Ok(true));
    assert_eq!(rt; is_legal(rt.alloc(), &[opened, missed]), Ok(false));
    assert_eq!(rt; is_legal(rt.alloc(), &[opened, drew, drew]), Ok(false));

    // A walk past a slot that was never used misses, though the session is opened before the next one.
    let mut plan = begin(rt.alloc());
    plan.row(1, PLAIN)?;
    plan.split(1)?;
    plan.find(1, 0, query(1))?;
    plan.moves.truncate(15);
    plan.session(0, &k, 1)?;
    assert_eq!(rt;
        explains(rt.alloc(), &ONE, &plan, &[missed, opened]),
        Ok(true)
    );
    assert_eq!(rt;
        explains(rt.alloc(), &ONE, &plan, &[opened, missed]),
        Ok(false)
    );
    Ok(())
}
