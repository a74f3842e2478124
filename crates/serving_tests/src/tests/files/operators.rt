//! Operators in a run, alone and beside a client of TWAMP-Control.

use super::messages::{
    START_ACK, acceptance, greeting, request, server_start, set_up, start, stop,
};
use super::talk::{Talk, run};
use crate::shared::SECOND;
use net_io::ConnKind;
use refl_types::{Address, Endpoint};

const ONE_SLOT: &str = "locals = [\"192.0.2.10:862\"]\nslots = 1\n[configs.edge]\n";

const OK_LINE: &[u8] = b"ok\n";

const OK_0_LINE: &[u8] = b"ok 0\n";

const DUPLICATE: &[u8] = b"refused duplicate\n";

const MODE_CLASH: &[u8] = b"refused mode clash\n";

const NO_LOCAL: &[u8] = b"refused local\n";

const NO_SUCH: &[u8] = b"refused no such\n";

const PLAIN_ROW: &[u8] = b"0 192.0.2.1:5000 plain 7 0\n";

const OK_1_LINE: &[u8] = b"ok 1\n";

const NO_LINE: &[u8] = b"refused line\n";

const BYE: &[u8] = b"bye\n";

const LIST: &[u8] = b"list\n";

const LIST_AND_OPEN: &[u8] = b"list\nopen 0 192.0.2.1:6000 twamp 0 edge 0\n";

const OPEN_FOR_10: &[u8] = b"open 0 192.0.2.1:5000 plain 7 edge 10\n";

const SET_AND_LIST: &[u8] = b"set 0 192.0.2.1:6000 twamp 0 core\nlist\n";

const TWAMP_ROW: &[u8] = b"0 192.0.2.1:6000 twamp 0 0\n";

const OK_2_LINE: &[u8] = b"ok 2\n";

const LIST_AND_QUIT: &[u8] = b"list\nquit\nlist\n";

const LONG_LINE: &[u8] = &[b'a'; 600];

const ELEVEN_LINES: &[u8] = b"open 0 192.0.2.1:5000 plain 7 edge 0\n\
        count 0 192.0.2.1:5000 plain 7\n\
        open 0 192.0.2.1:5000 plain 7 edge 0\n\
        open 0 192.0.2.1:5000 auth 7 edge 0\n\
        open 1 192.0.2.1:5000 plain 8 edge 0\n\
        set 0 192.0.2.1:5000 plain 8 edge\n\
        list\n\
        close 0 192.0.2.1:5000 plain 7\n\
        open 0 192.0.2.1:5000 plain 7 edge 0\n\
        frob\n\
        quit\n";

const ANSWERED: &[u8] = b"desk events 2 faults 0 quit\nsessions live 1 closed 1 expired 0\n";

const HUNG_UP: &[u8] = b"desk events 3 faults 0 end\nsessions live 0 closed 0 expired 0\n";

const FULL: &[u8] = b"desk events 35 faults 0 end\nsessions live 0 closed 0 expired 0\n";

const LIVES: &[u8] = b"desk events 2 faults 0 end\nsessions live 1 closed 0 expired 0\n";

const EXPIRES: &[u8] = b"desk events 3 faults 0 end\nsessions live 0 closed 0 expired 1\n";

const CHANGED: &[u8] = b"desk events 14 faults 0 quit\nsessions live 0 closed 1 expired 1\n";

#[test]
fn an_operator_is_answered_line_by_line(rt: HostRuntime) {
    let alloc = rt.alloc();
    let mut talk = Talk::new(&rt, alloc, None, None);
    talk.opens(&rt, 0, 3, ConnKind::Operator);
    talk.gives(&rt, 0, 3, ELEVEN_LINES);
    talk.is_sent(&rt, 3, OK_LINE);
    talk.is_sent(&rt, 3, OK_0_LINE);
    talk.is_sent(&rt, 3, DUPLICATE);
    talk.is_sent(&rt, 3, MODE_CLASH);
    talk.is_sent(&rt, 3, NO_LOCAL);
    talk.is_sent(&rt, 3, NO_SUCH);
    talk.is_sent(&rt, 3, PLAIN_ROW);
    talk.is_sent(&rt, 3, OK_1_LINE);
    talk.is_sent(&rt, 3, OK_0_LINE);
    talk.is_sent(&rt, 3, OK_LINE);
    talk.is_sent(&rt, 3, NO_LINE);
    talk.is_sent(&rt, 3, BYE);
    run(&rt, alloc, ONE_SLOT, talk, ANSWERED);
}

#[test]
fn a_line_of_600_octets_is_refused_and_its_connection_hung_up(rt: HostRuntime) {
    let alloc = rt.alloc();
    let mut talk = Talk::new(&rt, alloc, None, None);
    talk.opens(&rt, 0, 3, ConnKind::Operator);
    talk.gives(&rt, 0, 3, LONG_LINE);
    talk.is_sent(&rt, 3, NO_LINE);
    talk.is_hung_up(&rt, 3);
    talk.ends(&rt, 0);
    run(&rt, alloc, ONE_SLOT, talk, HUNG_UP);
}

#[test]
fn a_33rd_connection_is_hung_up_at_once(rt: HostRuntime) {
    let alloc = rt.alloc();
    let mut talk = Talk::new(&rt, alloc, None, None);
    for conn in 0..32 {
        talk.opens(&rt, 0, conn, ConnKind::Operator);
    }
    talk.opens(&rt, 0, 32, ConnKind::Operator);
    talk.is_hung_up(&rt, 32);
    talk.gives(&rt, 0, 31, LIST);
    talk.is_sent(&rt, 31, OK_0_LINE);
    talk.ends(&rt, 0);
    run(&rt, alloc, ONE_SLOT, talk, FULL);
}

const WAITING: &str =
    "locals = [\"192.0.2.10:862\"]\n[configs.edge]\n[[sessions]]\npeer = \"198.51.100.1:5000\"\nconfig = \"edge\"\nwait = 10\n";

#[test]
fn a_session_expires_at_the_tick_by_which_its_wait_has_passed(rt: HostRuntime) {
    let alloc = rt.alloc();
    let mut talk = Talk::new(&rt, alloc, None, None);
    talk.ticks(&rt, 15 * SECOND - 1);
    talk.ends(&rt, 15 * SECOND - 1);
    run(&rt, alloc, WAITING, talk, LIVES);

    let mut talk = Talk::new(&rt, alloc, None, None);
    talk.ticks(&rt, 15 * SECOND - 1);
    talk.ticks(&rt, 15 * SECOND);
    talk.ends(&rt, 15 * SECOND);
    run(&rt, alloc, WAITING, talk, EXPIRES);
}

/// A file for clients and operators.
const BOTH: &str =
    "locals = [\"192.0.2.10:862\"]\nslots = 4\ncontrol = \"192.0.2.10:862\"\noperator = \"127.0.0.1:8620\"\ntwamp = \"edge\"\n[configs.edge]\n[configs.core]\nformat = \"ptp\"\n";

const CONTROL: Endpoint = Endpoint {
    address: Address::V4([192, 0, 2, 10]),
    port: 862,
};

const OPERATOR: Endpoint = Endpoint {
    address: Address::V4([127, 0, 0, 1]),
    port: 8620,
};

#[test]
fn an_operator_sees_and_changes_the_sessions_of_a_client(rt: HostRuntime) {
    let alloc = rt.alloc();
    let mut talk = Talk::new(&rt, alloc, Some(CONTROL), Some(OPERATOR));
    talk.opens(&rt, 0, 3, ConnKind::Operator);
    talk.opens(&rt, 0, 7, ConnKind::Control);
    talk.is_sent(&rt, 7, &greeting());
    talk.gives(&rt, 0, 7, &set_up());
    talk.is_sent(&rt, 7, &server_start());
    talk.gives(&rt, 5 * SECOND, 7, &request(0));
    talk.is_sent(&rt, 7, &acceptance(1));
    talk.gives(&rt, 5 * SECOND, 3, LIST_AND_OPEN);
    talk.is_sent(&rt, 3, OK_0_LINE);
    talk.is_sent(&rt, 3, DUPLICATE);
    talk.gives(&rt, 5 * SECOND, 3, OPEN_FOR_10);
    talk.is_sent(&rt, 3, OK_LINE);
    talk.gives(&rt, 6 * SECOND, 7, &start());
    talk.is_sent(&rt, 7, &START_ACK);
    talk.gives(&rt, 6 * SECOND, 3, SET_AND_LIST);
    talk.is_sent(&rt, 3, OK_LINE);
    talk.is_sent(&rt, 3, PLAIN_ROW);
    talk.is_sent(&rt, 3, TWAMP_ROW);
    talk.is_sent(&rt, 3, OK_2_LINE);
    talk.gives(&rt, 7 * SECOND, 7, &stop(1));
    talk.closes(&rt, 7 * SECOND, 7);
    talk.ticks(&rt, 9 * SECOND);
    talk.gives(&rt, 9 * SECOND, 3, LIST);
    talk.is_sent(&rt, 3, PLAIN_ROW);
    talk.is_sent(&rt, 3, OK_1_LINE);
    talk.ticks(&rt, 15 * SECOND);
    talk.gives(&rt, 15 * SECOND, 3, LIST_AND_QUIT);
    talk.is_sent(&rt, 3, OK_0_LINE);
    talk.is_sent(&rt, 3, BYE);
    run(&rt, alloc, BOTH, talk, CHANGED);
}
