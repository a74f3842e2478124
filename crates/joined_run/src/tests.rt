//! Clients that are joined to a desk: what they are granted.

ghost use Rattle.std.specs.Prelude.{◌≡◌, ◌<◌, ◌≤◌};
ghost use Rattle.session_desk.specs.Book.{IsBookOf};

use conf_text::{Conf, read_conf};
use control_desk::{DeskEnd, DeskRoom, run_desk};
use control_msgs::is_open_mode;
use joined_desk::JoinDesk;
use refl_types::Address;
use session_desk::DeskBook;
use session_rule::{Table, TableSize, open_table};
use std::alloc::Global;
use std::process::Abort;
use twamp_client::{Client, ClientState, Grant, Wish};

const FILE: &str = "locals = [\"192.0.2.10:862\"]\nslots = 16\ntwamp = \"edge\"\n[configs.edge]\n";

const ONE_SLOT: &str =
    "locals = [\"192.0.2.10:862\"]\nslots = 1\ntwamp = \"edge\"\n[configs.edge]\n";

const NO_TWAMP: &str = "locals = [\"192.0.2.10:862\"]\nslots = 16\n[configs.edge]\n";

const SERVER: Address = Address::V4([192, 0, 2, 10]);

fn table_of(rt: &impl Abort, alloc: Global, conf: &Conf) -> (Table, DeskBook)
    ensures { IsBookOf result.0 result.1 }
{
    let size = TableSize {
        slots: conf.slots(),
        rows: conf.rows(),
        workers: 1,
    };
    let (table, seat) = open_table(alloc, size).expect(rt, "a table");
    let book = DeskBook::make(alloc, seat, size).expect(rt, "a book");
    (table, book)
}

const FIRST: Wish = Wish {
    v6: false,
    sender_port: 6_000,
    receiver_port: 862,
    timeout: [0, 0, 0, 2, 0, 0, 0, 0],
    octets: [0; 2],
    reflect: 0,
};

const SECOND: Wish = Wish {
    sender_port: 6_001,
    ..FIRST
};

/// What two wishes come to.
fn joined(
    rt: &impl Abort,
    alloc: Global,
    file: &str,
    piece: usize,
) -> (ClientState, [Option<Grant>; 3], DeskEnd, u32)
    requires some { 0 < piece }
    requires most { piece ≤ 4096 }
{
    assert!(rt; is_open_mode(97));
    let client = Client::make(alloc, 97, &[FIRST, SECOND]).expect(rt, "a client");
    let Ok(conf) = read_conf(alloc, file.as_bytes()) else {
        panic!(rt; "a file");
    };
    let (table, mut book) = table_of(rt, alloc, &conf);
    let mut room = DeskRoom::make(alloc, &conf).expect(rt, "a room");
    let mut desk = JoinDesk::make(alloc, client, SERVER, piece).expect(rt, "a desk");
    let tally = run_desk(
        &table,
        &mut book,
        &mut room,
        &mut desk,
        9_223_372_036_854_775_807,
    );
    let client = desk.client();
    (
        client.state(),
        [client.grant(0), client.grant(1), client.grant(2)],
        tally.end,
        book.live_len(),
    )
}

#[test]
fn each_wish_is_granted_where_there_is_room(rt: HostRuntime) {
    for piece in [1usize, 7, 48, 112, 164, 4_096] {
        let (state, grants, end, live) = joined(&rt, rt.alloc(), FILE, piece);
        assert_eq!(rt; state, ClientState::Stopped, "piece {piece}");
        assert_eq!(rt; end, DeskEnd::End, "piece {piece}");
        let sids = [
            [0, 0, 0, 9, 0, 0, 0, 1, 0, 0, 0, 0, 0, 0, 0, 0],
            [0, 0, 0, 6, 0, 0, 0, 1, 0, 0, 0, 0, 0, 0, 0, 0],
        ];
        assert_eq!(rt;
            grants[0],
            Some(Grant::Granted {
                port: 862,
                sid: sids[0]
            }),
            "piece {piece}"
        );
        assert_eq!(rt;
            grants[1],
            Some(Grant::Granted {
                port: 862,
                sid: sids[1]
            }),
            "piece {piece}"
        );
        assert_eq!(rt; grants[2], None, "piece {piece}");
        assert_eq!(rt; live, 0, "piece {piece}");
    }
}

#[test]
fn a_second_wish_is_refused_where_there_is_one_slot(rt: HostRuntime) {
    for piece in [1usize, 4_096] {
        let (state, grants, end, live) = joined(&rt, rt.alloc(), ONE_SLOT, piece);
        assert_eq!(rt; state, ClientState::Stopped, "piece {piece}");
        assert_eq!(rt; end, DeskEnd::End, "piece {piece}");
        let sid = [0, 0, 0, 0, 0, 0, 0, 1, 0, 0, 0, 0, 0, 0, 0, 0];
        assert_eq!(rt;
            grants[0],
            Some(Grant::Granted { port: 862, sid }),
            "piece {piece}"
        );
        assert_eq!(rt; grants[1], Some(Grant::Refused(5)), "piece {piece}");
        assert_eq!(rt; live, 0, "piece {piece}");
    }
}

#[test]
fn nothing_comes_of_a_client_where_no_sessions_are_negotiated(rt: HostRuntime) {
    let (state, grants, end, live) = joined(&rt, rt.alloc(), NO_TWAMP, 1);
    assert_eq!(rt; state, ClientState::Greeting);
    assert_eq!(rt; end, DeskEnd::End);
    assert_eq!(rt; grants[0], Some(Grant::Waiting));
    assert_eq!(rt; live, 0);
}
