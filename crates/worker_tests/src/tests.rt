//! Whole works over a scripted port, where memory is ample.

mod often;
mod requests;
mod script;
mod stage;

ghost use Rattle.std.specs.Prelude.{◌<◌, length};

use net_io::ScriptPort;
use receive_worker::{Tally, WorkEnd};
use refl_types::{Key, Mode, Silent, Unanswered};
use reflect_core::Judged;
use requests::{PLAIN, REQUEST, filled, request, signed, with_tail};
use script::{Script, has_each_number_once, reply_at, sender, sendings};
use stage::{
    NOTHING, Stage, USUAL_TLVS, config, five, fronts, key, let_go_port, let_go_stage, one_of,
    plain_key,
};
use std::alloc::Global;
use std::process::Abort;

fn let_go(_stage: Stage, _port: ScriptPort) {}

fn let_go_both(_port: ScriptPort, _whole: Vec<u8>) {}

#[test]
fn five_datagrams_of_which_one_send_fails(rt: HostRuntime) {
    let lost = Tally {
        taken: 5,
        sent: 4,
        send_fault: 1,
        ..NOTHING
    };
    for failing in 1..6u64 {
        let (port, tally) = five(&rt, rt.alloc(), &[], &[], &[failing]);
        assert!(rt; tally == lost);
        assert!(rt; has_each_number_once(&port));
        let_go_port(port);
    }
}

#[test]
fn five_datagrams_of_which_one_receive_fails(rt: HostRuntime) {
    let failed = Tally {
        taken: 5,
        sent: 5,
        recv_fault: 1,
        ..NOTHING
    };
    for failing in 1..6u64 {
        let (port, tally) = five(&rt, rt.alloc(), &[], &[failing], &[]);
        assert!(rt; tally == failed);
        assert!(rt; has_each_number_once(&port));
        let_go_port(port);
    }
}

#[test]
fn a_clock_that_goes_back_is_read_as_it_is(rt: HostRuntime) {
    let (port, _) = five(&rt, rt.alloc(), &[2_000_000_000, 1_000_000_000], &[], &[]);
    assert!(rt; reply_at(&port, 2).starts_with(b"\0\0\0\0\x83\xAA\x7E\x82\0\0\0\0"));
    assert!(rt; reply_at(&port, 5).starts_with(b"\0\0\0\x01\x83\xAA\x7E\x81\0\0\0\0"));
    let_go_port(port);
}

#[test]
fn plain_requests_are_cut_at_each_length(rt: HostRuntime) {
    let whole = with_tail([0x80, 1, 0, 8, 9, 9, 9, 9, 9, 9, 9, 9]);
    let usual = config(&rt, USUAL_TLVS, None);
    let (port, tally) = fronts(&rt, rt.alloc(), &plain_key(), &usual, &whole);
    let wanted = Tally {
        taken: 57,
        no_session: 16,
        short: 28,
        sent: 13,
        ..NOTHING
    };
    assert!(rt; tally == wanted);
    for (place, len, first) in [
        (49, 45, 0x80),
        (52, 46, 0x80),
        (55, 47, 0x80),
        (58, 48, 0x40),
        (61, 49, 0x40),
        (64, 50, 0x40),
        (67, 51, 0x40),
        (70, 52, 0x40),
        (73, 53, 0x40),
        (76, 54, 0x40),
        (79, 55, 0x40),
        (82, 56, 0),
    ] {
        let reply = reply_at(&port, place);
        assert!(rt; reply.len() == len);
        assert!(rt; reply.get(PLAIN) == Some(&first));
    }
    let_go_port(port);
}

#[test]
fn signed_requests_are_cut_at_each_length(rt: HostRuntime) {
    let block = [0xA1; 64];
    let session = key(sender(5000), Mode::Auth, 7);
    let keyed = config(&rt, USUAL_TLVS, Some(block));
    let (port, tally) = fronts(&rt, rt.alloc(), &session, &keyed, &signed(&block));
    let wanted = Tally {
        taken: 113,
        no_session: 28,
        short: 84,
        sent: 1,
        ..NOTHING
    };
    assert!(rt; tally == wanted);
    let_go_port(port);
}

#[test]
fn twamp_requests_are_cut_at_each_length(rt: HostRuntime) {
    let session = key(sender(5000), Mode::Twamp, 0);
    let usual = config(&rt, USUAL_TLVS, None);
    let (port, tally) = fronts(&rt, rt.alloc(), &session, &usual, &REQUEST[..20]);
    let wanted = Tally {
        taken: 21,
        short: 14,
        sent: 7,
        ..NOTHING
    };
    assert!(rt; tally == wanted);
    let_go_port(port);
}

#[test]
fn one_tlv_fills_a_datagram(rt: HostRuntime) {
    let usual = config(&rt, USUAL_TLVS, None);
    let whole = filled(&rt, rt.alloc(), &[0x80, 1, 0xFF, 0xB3], 1);
    let port = one_of(&rt, rt.alloc(), &usual, &whole);
    let reply = reply_at(&port, 2);
    assert!(rt; reply.len() == 65_507);
    assert!(rt; reply.get(PLAIN) == Some(&0));
    let_go_both(port, whole);
}

#[test]
fn many_tlvs_fill_a_datagram(rt: HostRuntime) {
    let usual = config(&rt, USUAL_TLVS, None);
    let whole = filled(&rt, rt.alloc(), &[0x80, 0xC8, 0, 0], 16_365);
    let port = one_of(&rt, rt.alloc(), &usual, &whole);
    let reply = reply_at(&port, 2);
    assert!(rt; reply.len() == 65_507);
    assert!(rt; reply.get(PLAIN..) == whole.get(PLAIN..));
    let_go_both(port, whole);
}

/// What 63 or 64 failures in a row lead to.
fn after_failures(rt: &impl Abort, alloc: Global, count: u64) -> Tally {
    let mut failing = Vec::new(alloc);
    for call in 1..65u64 {
        if call <= count {
            failing.push(call).expect(rt, "room");
        }
    }
    let (port, tally) = five(rt, alloc, &[], &failing, &[]);
    let_go_port(port);
    tally
}

#[test]
fn sixty_three_failures_in_a_row_are_borne(rt: HostRuntime) {
    let wanted = Tally {
        taken: 5,
        sent: 5,
        recv_fault: 63,
        ..NOTHING
    };
    assert!(rt; after_failures(&rt, rt.alloc(), 63) == wanted);
}

#[test]
fn sixty_four_failures_in_a_row_end_a_worker(rt: HostRuntime) {
    let wanted = Tally {
        recv_fault: 64,
        end: WorkEnd::PortFault,
        ..NOTHING
    };
    assert!(rt; after_failures(&rt, rt.alloc(), 64) == wanted);
}

/// A port that gives a request that asks for no reply, and then one that doesn't.
fn two_asks(rt: &impl Abort, alloc: Global) -> ScriptPort
    ensures { 0 < length result.bound }
{
    let mut script = Script::new(alloc);
    script.give(rt, &sender(5000), &with_tail(NO_REPLY_TAIL));
    script.give(rt, &sender(5000), &REQUEST);
    script.port(rt, &[], &[], &[])
}

/// A Reflected Control TLV that asks for no reply, and padding.
const NO_REPLY_TAIL: [u8; 12] = [0x80, 10, 0, 8, 0x80, 1, 0, 4, 0, 0, 0, 0];

#[test]
fn who_asks_for_no_reply_gets_none(rt: HostRuntime) {
    let mut stage = opened(&rt, rt.alloc(), &plain_key(), 1 << 10, None);
    let mut port = two_asks(&rt, rt.alloc());
    let wanted = Tally {
        taken: 2,
        no_reply: 1,
        sent: 1,
        ..NOTHING
    };
    assert!(rt; stage.work(&mut port, 0, 100) == wanted);
    assert!(rt; sendings(&port, 0) == 1);
    let_go(stage, port);
}

/// A stage with this one session.
fn opened(rt: &impl Abort, alloc: Global, key: &Key, tlvs: u32, block: Option<[u8; 64]>) -> Stage {
    let mut stage = Stage::new(rt, alloc, 4);
    stage.open(rt, key, &config(rt, tlvs, block));
    stage
}

/// What a worker takes under a limit and a budget, and how it ends.
fn ended(stage: &mut Stage, port: &mut ScriptPort, limit: u64, turns: u64) -> (u64, WorkEnd)
    requires { 0 < length port.old.bound }
    ensures { 0 < length port.new.bound }
{
    let tally = stage.work(port, limit, turns);
    (tally.taken, tally.end)
}

#[test]
fn a_worker_ends_by_the_first_end_that_is_due(rt: HostRuntime) {
    let mut stage = Stage::new(&rt, rt.alloc(), 4);
    let mut port = Script::with_pauses(&rt, rt.alloc(), 3, 3);
    assert!(rt; ended(&mut stage, &mut port, 0, 0) == (0, WorkEnd::Budget));
    assert!(rt; ended(&mut stage, &mut port, 0, 3) == (0, WorkEnd::Budget));
    assert!(rt; ended(&mut stage, &mut port, 2, 2) == (2, WorkEnd::Limit));
    assert!(rt; ended(&mut stage, &mut port, 1, 5) == (1, WorkEnd::Limit));
    assert!(rt; ended(&mut stage, &mut port, 1, 1) == (0, WorkEnd::End));
    let_go(stage, port);
}

#[test]
fn sessions_are_found_by_their_sender_and_ssid(rt: HostRuntime) {
    let usual = config(&rt, USUAL_TLVS, None);
    let mut stage = Stage::new(&rt, rt.alloc(), 16);
    stage.open(&rt, &plain_key(), &usual);
    stage.open(&rt, &key(sender(5000), Mode::Plain, 8), &usual);
    let mut script = Script::new(rt.alloc());
    script.give(&rt, &sender(5000), &request(8));
    script.give(&rt, &sender(5000), &request(9));
    script.give(&rt, &sender(5001), &request(7));
    let tally = stage.work_out(&rt, script);
    assert!(rt; tally.sent == 1);
    assert!(rt; tally.no_session == 2);
    let_go_stage(stage);
}

#[test]
fn a_request_is_judged_under_the_key_of_the_day(rt: HostRuntime) {
    let (old, new) = ([0xA1; 64], [0xB2; 64]);
    let session = key(sender(5000), Mode::Auth, 7);
    let mut stage = Stage::new(&rt, rt.alloc(), 4);
    stage.open(&rt, &session, &config(&rt, USUAL_TLVS, Some(old)));
    let mut script = Script::new(rt.alloc());
    script.give_often(&rt, 2, &sender(5000), &signed(&old));
    script.give(&rt, &sender(5000), &signed(&new));
    let mut port = script.port(&rt, &[], &[], &[]);
    assert!(rt; stage.work(&mut port, 1, 100).sent == 1);
    stage.set(&rt, &session, &config(&rt, USUAL_TLVS, Some(new)));
    let wanted = Tally {
        taken: 2,
        bad_hmac: 1,
        sent: 1,
        ..NOTHING
    };
    assert!(rt; stage.work(&mut port, 0, 100) == wanted);
    assert!(rt; sendings(&port, 0) == 1);
    assert!(rt; sendings(&port, 1) == 1);
    let_go(stage, port);
}

/// Two HMAC keys.
const OLD: [u8; 64] = [0xA1; 64];

const NEW: [u8; 64] = [0xB2; 64];

#[test]
fn a_number_drawn_under_another_key_than_that_of_the_look_is_spent(rt: HostRuntime) {
    let session = key(sender(5000), Mode::Auth, 7);
    let mut stage = opened(&rt, rt.alloc(), &session, USUAL_TLVS, Some(OLD));
    let keyed = config(&rt, USUAL_TLVS, Some(NEW));
    let (seen, drawn) = stage.turn_while_set(&rt, &session, &keyed, &signed(&OLD));
    assert!(rt; seen.row == 1 && seen.judged == Judged::Reflect);
    assert!(rt; drawn.row == 2 && drawn.judged == Judged::Silent(Silent::BadHmac));
    assert!(rt; stage.close(&rt, &session) == 1);
    let_go_stage(stage);
}

/// The first worker takes a request, and the second the next.
fn take_one_each(rt: &impl Abort, stage: &mut Stage, port: &mut ScriptPort)
    requires { 0 < length port.old.bound }
    ensures { 0 < length port.new.bound }
{
    assert!(rt; stage.work(port, 1, 100).sent == 1);
    assert!(rt; stage.work_beside(port, 1, 100).sent == 1);
}

#[test]
fn two_workers_and_a_desk_serve_one_table(rt: HostRuntime) {
    let mut stage = opened(&rt, rt.alloc(), &plain_key(), USUAL_TLVS, None);
    let mut port = Script::with_pauses(&rt, rt.alloc(), 0, 5);
    take_one_each(&rt, &mut stage, &mut port);
    take_one_each(&rt, &mut stage, &mut port);
    assert!(rt; stage.close(&rt, &plain_key()) == 4);
    assert!(rt; stage.work(&mut port, 0, 100).no_session == 1);
    for number in 0..4 {
        assert!(rt; sendings(&port, number) == 1);
    }
    let_go(stage, port);
}

#[test]
fn a_turn_says_what_became_of_a_datagram(rt: HostRuntime) {
    let mut stage = Stage::new(&rt, rt.alloc(), 4);
    stage.open(&rt, &plain_key(), &config(&rt, USUAL_TLVS, None));
    let mut script = Script::new(rt.alloc());
    script.give(&rt, &sender(5000), &REQUEST);
    script.give(&rt, &sender(5000), &REQUEST[..43]);
    script.give(&rt, &sender(5000), &request(8));
    script.give(&rt, &sender(5000), &REQUEST);
    let mut port = script.port(&rt, &[], &[], &[2]);
    assert!(rt; stage.turn(&mut port) == Ok(()));
    assert!(rt; stage.turn(&mut port) == Err(Unanswered::Short));
    assert!(rt; stage.turn(&mut port) == Err(Unanswered::NoSession));
    assert!(rt; stage.turn(&mut port) == Err(Unanswered::SendFault));
    let_go(stage, port);
}
