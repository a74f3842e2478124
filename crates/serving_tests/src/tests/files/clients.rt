//! Clients of TWAMP-Control in a run: their messages one by one, their sessions, and their ends.

ghost use Rattle.std.specs.Prelude.{◌<◌};

use super::messages::{
    START_ACK, acceptance, greeting, refusal, request, server_start, set_up, start, stop,
};
use super::talk::{Talk, run};
use crate::shared::SECOND;
use net_io::ConnKind;
use std::alloc::Global;
use std::process::Abort;

const ONE_SLOT: &str =
    "locals = [\"192.0.2.10:862\"]\nslots = 1\ntwamp = \"edge\"\n[configs.edge]\n";

const TWO_SLOTS: &str =
    "locals = [\"192.0.2.10:862\"]\nslots = 2\ntwamp = \"edge\"\n[configs.edge]\n";

const STOPPED_LIVES: &[u8] = b"desk events 7 faults 0 end\nsessions live 1 closed 0 expired 0\n";

const STOPPED_ENDS: &[u8] = b"desk events 8 faults 0 end\nsessions live 0 closed 1 expired 0\n";

const RESERVED_ENDS: &[u8] = b"desk events 9 faults 0 end\nsessions live 0 closed 1 expired 0\n";

const SILENT: &[u8] = b"desk events 4 faults 0 end\nsessions live 0 closed 0 expired 0\n";

const STARTED_LIVES: &[u8] = b"desk events 6 faults 0 end\nsessions live 1 closed 0 expired 0\n";

const STARTED_EXPIRES: &[u8] = b"desk events 7 faults 0 end\nsessions live 0 closed 0 expired 1\n";

const ANEW: &[u8] = b"close 0 192.0.2.1:6000 twamp 0\nopen 0 192.0.2.1:6000 twamp 0 edge 0\n";

const OPENED_ANEW_LIVES: &[u8] =
    b"desk events 8 faults 0 end\nsessions live 1 closed 1 expired 0\n";

const GREETED_CLOSES: &[u8] = b"desk events 4 faults 0 end\nsessions live 0 closed 0 expired 0\n";

const RESERVED_CLOSES: &[u8] = b"desk events 6 faults 0 end\nsessions live 0 closed 0 expired 0\n";

const STARTED_CLOSES: &[u8] = b"desk events 7 faults 0 end\nsessions live 0 closed 1 expired 0\n";

const STOPPED_CLOSES: &[u8] = b"desk events 8 faults 0 end\nsessions live 1 closed 0 expired 0\n";

const STOPPED_CLOSES_LATE: &[u8] =
    b"desk events 8 faults 0 end\nsessions live 0 closed 1 expired 0\n";

const STOPPED_TWICE: &[u8] = b"desk events 6 faults 0 end\nsessions live 1 closed 0 expired 0\n";

const RESERVED_HUNG_UP: &[u8] = b"desk events 5 faults 0 end\nsessions live 0 closed 0 expired 0\n";

const STARTED_HUNG_UP: &[u8] = b"desk events 6 faults 0 end\nsessions live 0 closed 1 expired 0\n";

const UNGREETED: &[u8] = b"desk events 2 faults 1 end\nsessions live 0 closed 0 expired 0\n";

const UNSTARTED: &[u8] = b"desk events 3 faults 1 end\nsessions live 0 closed 0 expired 0\n";

const UNRESERVED: &[u8] = b"desk events 4 faults 1 end\nsessions live 0 closed 0 expired 0\n";

const UNTOLD: &[u8] = b"desk events 5 faults 1 end\nsessions live 0 closed 1 expired 0\n";

const ANSWER_OK: &[u8] = b"ok\n";

const ANSWER_OK_0: &[u8] = b"ok 0\n";

/// A message of a type that there isn't.
const UNKNOWN: &[u8] = b"\x06";

/// The connection of a client that is greeted at moment 0.
fn greeted(rt: &impl Abort, alloc: Global) -> Talk {
    let mut talk = Talk::new(rt, alloc, None, None);
    talk.opens(rt, 0, 7, ConnKind::Control);
    talk.is_sent(rt, 7, &greeting());
    talk
}

/// One that has chosen its mode, too.
fn set_up_at_0(rt: &impl Abort, alloc: Global) -> Talk {
    let mut talk = greeted(rt, alloc);
    talk.gives(rt, 0, 7, &set_up());
    talk.is_sent(rt, 7, &server_start());
    talk
}

/// One that has a session in this slot, reserved at second 5.
fn reserved(rt: &impl Abort, alloc: Global, slot: u8) -> Talk {
    let mut talk = set_up_at_0(rt, alloc);
    talk.gives(rt, 5 * SECOND, 7, &request(0));
    talk.is_sent(rt, 7, &acceptance(slot));
    talk
}

/// One whose session has started.
fn started(rt: &impl Abort, alloc: Global, slot: u8) -> Talk {
    let mut talk = reserved(rt, alloc, slot);
    talk.gives(rt, 5 * SECOND, 7, &start());
    talk.is_sent(rt, 7, &START_ACK);
    talk
}

/// One whose session was stopped at second 7, so that it ends at second 9.
fn stopped(rt: &impl Abort, alloc: Global) -> Talk {
    let mut talk = started(rt, alloc, 0);
    talk.gives(rt, 7 * SECOND, 7, &stop(1));
    talk
}

#[test]
fn a_stopped_session_lives_for_its_timeout(rt: HostRuntime) {
    let alloc = rt.alloc();
    let mut talk = stopped(&rt, alloc);
    talk.ticks(&rt, 9 * SECOND - 1);
    talk.ends(&rt, 9 * SECOND - 1);
    run(&rt, alloc, ONE_SLOT, talk, STOPPED_LIVES);

    let mut talk = stopped(&rt, alloc);
    talk.ticks(&rt, 9 * SECOND - 1);
    talk.ticks(&rt, 9 * SECOND);
    talk.ends(&rt, 9 * SECOND);
    run(&rt, alloc, ONE_SLOT, talk, STOPPED_ENDS);
}

#[test]
fn a_key_that_is_reserved_and_a_full_table_are_told_alike(rt: HostRuntime) {
    let alloc = rt.alloc();
    let mut talk = reserved(&rt, alloc, 0);
    talk.gives(&rt, 5 * SECOND, 7, &request(0));
    talk.is_sent(&rt, 7, &refusal());
    talk.gives(&rt, 5 * SECOND, 7, &request(1));
    talk.is_sent(&rt, 7, &refusal());
    talk.gives(&rt, 5 * SECOND, 7, &start());
    talk.is_sent(&rt, 7, &START_ACK);
    talk.gives(&rt, 7 * SECOND, 7, &stop(1));
    talk.ticks(&rt, 9 * SECOND);
    talk.ends(&rt, 9 * SECOND);
    run(&rt, alloc, ONE_SLOT, talk, RESERVED_ENDS);
}

#[test]
fn a_silent_client_is_hung_up_after_900_seconds(rt: HostRuntime) {
    let alloc = rt.alloc();
    let mut talk = greeted(&rt, alloc);
    talk.ticks(&rt, 900 * SECOND - 1);
    talk.ticks(&rt, 900 * SECOND);
    talk.is_hung_up(&rt, 7);
    talk.ends(&rt, 900 * SECOND);
    run(&rt, alloc, ONE_SLOT, talk, SILENT);
}

#[test]
fn a_started_session_without_a_datagram_expires_after_900_seconds(rt: HostRuntime) {
    let alloc = rt.alloc();
    let mut talk = started(&rt, alloc, 0);
    talk.ticks(&rt, 905 * SECOND - 1);
    talk.ends(&rt, 905 * SECOND - 1);
    run(&rt, alloc, ONE_SLOT, talk, STARTED_LIVES);

    let mut talk = started(&rt, alloc, 0);
    talk.ticks(&rt, 905 * SECOND - 1);
    talk.ticks(&rt, 905 * SECOND);
    talk.ends(&rt, 905 * SECOND);
    run(&rt, alloc, ONE_SLOT, talk, STARTED_EXPIRES);
}

#[test]
fn a_session_that_an_operator_opened_anew_outlives_its_client(rt: HostRuntime) {
    let alloc = rt.alloc();
    let mut talk = started(&rt, alloc, 1);
    talk.opens(&rt, 5 * SECOND, 3, ConnKind::Operator);
    talk.gives(&rt, 5 * SECOND, 3, ANEW);
    talk.is_sent(&rt, 3, ANSWER_OK_0);
    talk.is_sent(&rt, 3, ANSWER_OK);
    talk.closes(&rt, 5 * SECOND, 7);
    talk.ends(&rt, 5 * SECOND);
    run(&rt, alloc, TWO_SLOTS, talk, OPENED_ANEW_LIVES);
}

/// A client goes away, and time passes.
fn goes_away(rt: &impl Abort, mut talk: Talk, second: u64) -> Talk
    requires { second < 1000 }
{
    talk.closes(rt, 7 * SECOND, 7);
    talk.ticks(rt, second * SECOND);
    talk.ends(rt, second * SECOND);
    talk
}

#[test]
fn a_connection_that_closes_ends_its_sessions(rt: HostRuntime) {
    let alloc = rt.alloc();
    let talk = goes_away(&rt, greeted(&rt, alloc), 8);
    run(&rt, alloc, ONE_SLOT, talk, GREETED_CLOSES);
    let talk = goes_away(&rt, reserved(&rt, alloc, 0), 8);
    run(&rt, alloc, ONE_SLOT, talk, RESERVED_CLOSES);
    let talk = goes_away(&rt, started(&rt, alloc, 0), 8);
    run(&rt, alloc, ONE_SLOT, talk, STARTED_CLOSES);
    let talk = goes_away(&rt, stopped(&rt, alloc), 8);
    run(&rt, alloc, ONE_SLOT, talk, STOPPED_CLOSES);
    let talk = goes_away(&rt, stopped(&rt, alloc), 9);
    run(&rt, alloc, ONE_SLOT, talk, STOPPED_CLOSES_LATE);
}

/// A client is hung up for its last message.
fn hung_up(rt: &impl Abort, mut talk: Talk, message: &[u8]) -> Talk {
    talk.gives(rt, 7 * SECOND, 7, message);
    talk.is_hung_up(rt, 7);
    talk.ends(rt, 7 * SECOND);
    talk
}

#[test]
fn a_message_out_of_turn_ends_the_connection_and_its_sessions(rt: HostRuntime) {
    let alloc = rt.alloc();
    let talk = hung_up(&rt, started(&rt, alloc, 0), &stop(2));
    run(&rt, alloc, ONE_SLOT, talk, STOPPED_TWICE);
    let talk = hung_up(&rt, reserved(&rt, alloc, 0), &stop(1));
    run(&rt, alloc, ONE_SLOT, talk, RESERVED_HUNG_UP);
    let talk = hung_up(&rt, started(&rt, alloc, 0), &request(0));
    run(&rt, alloc, ONE_SLOT, talk, STARTED_HUNG_UP);
    let talk = hung_up(&rt, reserved(&rt, alloc, 0), UNKNOWN);
    run(&rt, alloc, ONE_SLOT, talk, RESERVED_HUNG_UP);
}

#[test]
fn a_message_that_cannot_be_sent_ends_the_connection(rt: HostRuntime) {
    let alloc = rt.alloc();
    let mut talk = Talk::new(&rt, alloc, None, None);
    talk.opens(&rt, 0, 7, ConnKind::Control);
    talk.is_lost(&rt, 7, &greeting());
    talk.is_hung_up(&rt, 7);
    talk.ends(&rt, 0);
    run(&rt, alloc, ONE_SLOT, talk, UNGREETED);

    let mut talk = greeted(&rt, alloc);
    talk.gives(&rt, 0, 7, &set_up());
    talk.is_lost(&rt, 7, &server_start());
    talk.is_hung_up(&rt, 7);
    talk.ends(&rt, 0);
    run(&rt, alloc, ONE_SLOT, talk, UNSTARTED);

    let mut talk = set_up_at_0(&rt, alloc);
    talk.gives(&rt, 5 * SECOND, 7, &request(0));
    talk.is_lost(&rt, 7, &acceptance(0));
    talk.is_hung_up(&rt, 7);
    talk.ends(&rt, 5 * SECOND);
    run(&rt, alloc, ONE_SLOT, talk, UNRESERVED);

    let mut talk = reserved(&rt, alloc, 0);
    talk.gives(&rt, 5 * SECOND, 7, &start());
    talk.is_lost(&rt, 7, &START_ACK);
    talk.is_hung_up(&rt, 7);
    talk.ends(&rt, 5 * SECOND);
    run(&rt, alloc, ONE_SLOT, talk, UNTOLD);
}
