//! Tests: below, workers that take turns with the desk's book.

mod book;

use crate::shared::{
    begin, config, key, let_go, open, turn, turn_by, turn_while_closed, turn_while_set,
};
use refl_types::Mode;
use session_table::KnownRows;

#[test]
fn sessions_lie_at_their_places_and_walks_end_at_slots_that_were_never_used(rt: HostRuntime) {
    let (table, mut book, mut first, second) = begin(&rt, rt.alloc());
    let edge = config(&rt, 1);
    assert_eq!(rt;
        open(&rt, &table, &mut book, &key(Mode::Plain, 5000, 7), &edge),
        (5, 1)
    );
    assert_eq!(rt;
        open(&rt, &table, &mut book, &key(Mode::Plain, 5000, 8), &edge),
        (6, 1)
    );
    assert_eq!(rt; turn(&table, &mut first, 5000, 8), (2, Some((0, 1))));
    assert_eq!(rt; turn(&table, &mut first, 5000, 9), (3, None));
    assert_eq!(rt; turn(&table, &mut first, 5001, 7), (1, None));
    let_go(table, book, first, second);
}

#[test]
fn a_draw_takes_the_configuration_that_was_set_since_the_look(rt: HostRuntime) {
    let (table, mut book, mut first, second) = begin(&rt, rt.alloc());
    let session = key(Mode::Plain, 5000, 7);
    let (old, new) = (config(&rt, 1), config(&rt, 2));
    let _place = open(&rt, &table, &mut book, &session, &old);
    let changed = turn_while_set(&rt, &table, &mut book, &mut first, &session, &new);
    assert_eq!(rt; changed, Some((1, 0, 2, 2)));
    assert_eq!(rt; turn(&table, &mut first, 5000, 7), (1, Some((1, 2))));
    let_go(table, book, first, second);
}

#[test]
fn two_workers_draw_one_after_the_other_until_the_desk_closes_the_session(rt: HostRuntime) {
    let (table, mut book, mut first, mut second) = begin(&rt, rt.alloc());
    let session = key(Mode::Plain, 5000, 7);
    let _place = open(&rt, &table, &mut book, &session, &config(&rt, 1));
    let mut known = KnownRows::make(rt.alloc()).expect(&rt, "rows");
    assert_eq!(rt; turn(&table, &mut first, 5000, 7), (1, Some((0, 1))));
    assert_eq!(rt;
        turn_by(&table, &mut second, &mut known, 5000, 7),
        (1, Some((1, 1)))
    );
    assert_eq!(rt; turn(&table, &mut first, 5000, 7), (1, Some((2, 1))));
    assert_eq!(rt;
        turn_by(&table, &mut second, &mut known, 5000, 7),
        (1, Some((3, 1)))
    );
    let late = turn_while_closed(&rt, &table, &mut book, &mut first, &session);
    assert_eq!(rt; late, Some((4, false)));
    assert_eq!(rt;
        turn_by(&table, &mut second, &mut known, 5000, 7),
        (2, None)
    );
    let_go(table, book, first, second);
}
