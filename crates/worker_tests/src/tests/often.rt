//! Turns and look-ups so often that `bench/turns` can count their instructions.

use super::requests::{REQUEST, signed};
use super::script::{Script, sender};
use super::stage::{Stage, USUAL_TLVS, config, key, meta_of, plain_key};
use refl_types::{Address, Config, Endpoint, Key, Mode};
use session_table::KnownRows;
use std::alloc::Global;
use std::process::Abort;

/// How often a request is answered, and its session looked up.
const TIMES: u32 = 2_000;

/// A table in which a session lies behind others of its sender.
fn stage_of(rt: &impl Abort, alloc: Global, session: &Key, config: &Config, others: u16) -> Stage {
    let mut stage = Stage::new(rt, alloc, 256);
    for ssid in 0..others {
        let other = key(session.peer, session.mode, ssid.wrapping_add(1_000));
        stage.open(rt, &other, config);
    }
    stage.open(rt, session, config);
    stage
}

/// Answers a session's request so often, and then looks it up as often.
fn answer_often(
    rt: &impl Abort,
    alloc: Global,
    session: &Key,
    config: &Config,
    octets: &[u8],
    others: u16,
) {
    let mut stage = stage_of(rt, alloc, session, config, others);
    let mut script = Script::new(alloc);
    script.give_often(rt, TIMES, &session.peer, octets);
    assert!(rt; stage.work_out(rt, script).sent == u64::from(TIMES));
    let mut known = KnownRows::make(alloc).expect(rt, "rows");
    let meta = meta_of(session, octets);
    for time in 0..TIMES {
        let number = stage.look_up(&mut known, &meta, octets);
        assert!(rt; number == Some(time.wrapping_add(TIMES)));
    }
}

#[test]
fn plain_requests_are_answered_often(rt: HostRuntime) {
    let usual = config(&rt, USUAL_TLVS, None);
    answer_often(&rt, rt.alloc(), &plain_key(), &usual, &REQUEST, 0);
}

#[test]
fn plain_requests_of_ipv6_are_answered_often(rt: HostRuntime) {
    let peer = Endpoint {
        address: Address::V6([0x20, 1, 0x0D, 0xB8, 0, 0, 0, 0, 0, 0, 0, 0, 0, 0, 0, 1]),
        port: 5000,
    };
    let usual = config(&rt, USUAL_TLVS, None);
    let session = key(peer, Mode::Plain, 7);
    answer_often(&rt, rt.alloc(), &session, &usual, &REQUEST, 0);
}

#[test]
fn signed_requests_are_answered_often(rt: HostRuntime) {
    let block = [0xA1; 64];
    let session = key(sender(5000), Mode::Auth, 7);
    let keyed = config(&rt, USUAL_TLVS, Some(block));
    answer_often(&rt, rt.alloc(), &session, &keyed, &signed(&block), 0);
}

#[test]
fn requests_of_a_session_behind_others_are_answered_often(rt: HostRuntime) {
    let usual = config(&rt, USUAL_TLVS, None);
    answer_often(&rt, rt.alloc(), &plain_key(), &usual, &REQUEST, 64);
}
