//! A whole talk for every cut of its octets, and each row of the table.

use super::{Ask, DeskAnswer, Machine, Message, Stage, Stepped};
use control_msgs::Accept;
use refl_types::Place;
use std::process::Abort;

/// The octets that a client sends in the talk: mode 97, one request, a start, and a stop of one session.
fn talk() -> [u8; 340] {
    let mut octets = [0; 340];
    octets[3] = 97;
    octets[164] = 5;
    octets[165] = 4;
    octets[176] = 0x17;
    octets[177] = 0x70;
    octets[178] = 0x13;
    octets[179] = 0x89;
    octets[243] = 2;
    octets[276] = 2;
    octets[308] = 3;
    octets[315] = 1;
    octets
}

/// The messages of the talk.
fn said(at: usize) -> Option<Message> {
    let mut request = [0; 112];
    request[0] = 5;
    request[1] = 4;
    request[12] = 0x17;
    request[13] = 0x70;
    request[14] = 0x13;
    request[15] = 0x89;
    request[79] = 2;
    match at {
        0 => Some(Message::SetUp { mode: 97 }),
        1 => Some(Message::Request(request)),
        2 => Some(Message::Start),
        3 => Some(Message::Stop { number: 1 }),
        _ => None,
    }
}

/// Reads a piece to its end, and compares its messages with those of the talk from `next` on.
fn hear(rt: &impl Abort, machine: &mut Machine, piece: &[u8], next: usize) -> usize {
    let mut rest = piece;
    let mut next = next;
    for _ in 0..5 {
        let (taken, message) = machine.feed(rest);
        if message.is_none() {
            assert_eq!(rt; taken, rest.len());
            return next;
        }
        assert_eq!(rt; message, said(next));
        assert!(rt; next < 4);
        next += 1;
        rest = &rest[taken..];
    }
    next
}

#[test]
fn a_talk_cut_in_two_anywhere_has_the_same_messages(rt: HostRuntime) {
    let octets = talk();
    for at in 0..341 {
        let mut machine = Machine::new(0);
        let first = hear(&rt, &mut machine, &octets[..at], 0);
        assert_eq!(rt;
            hear(&rt, &mut machine, &octets[at..], first),
            4,
            "cut at {at}"
        );
    }
}

#[test]
fn a_talk_octet_by_octet_has_the_same_messages(rt: HostRuntime) {
    let mut machine = Machine::new(0);
    let mut next = 0;
    for octet in &talk() {
        next = hear(&rt, &mut machine, &[*octet], next);
    }
    assert_eq!(rt; next, 4);
}

/// A step at one moment.
fn step(
    machine: &mut Machine,
    message: &Message,
    answer: &DeskAnswer,
    out: &mut [u8; 64],
) -> Stepped {
    machine.step(message, answer, 5_000_000_000, out)
}

const RESERVED: DeskAnswer = DeskAnswer::Reserved {
    place: Place {
        slot: 7,
        generation: 1,
    },
    port: 862,
};

/// A connection in a stage: with a session in stage Started, and with none before.
fn connection(stage: Stage, mode: u32) -> Machine {
    let mut machine = Machine::new(0);
    let mut out = [0; 64];
    if stage == Stage::SettingUp {
        return machine;
    }
    step(
        &mut machine,
        &Message::SetUp { mode },
        &DeskAnswer::Done,
        &mut out,
    );
    if stage == Stage::Idle {
        return machine;
    }
    step(&mut machine, &request(), &RESERVED, &mut out);
    step(&mut machine, &Message::Start, &DeskAnswer::Done, &mut out);
    machine
}

/// A request that asks to have two octets back.
fn request() -> Message {
    let mut octets = [0; 112];
    octets[0] = 5;
    octets[1] = 4;
    octets[13] = 1;
    octets[88] = 0xAB;
    octets[89] = 0xCD;
    Message::Request(octets)
}

/// A request whose Conf-Receiver is 1.
fn faulty_request() -> Message {
    let mut octets = [0; 112];
    octets[0] = 5;
    octets[1] = 4;
    octets[3] = 1;
    octets[13] = 1;
    octets[88] = 0xAB;
    Message::Request(octets)
}

fn check(
    rt: &impl Abort,
    (stage, message, answer): (Stage, Message, DeskAnswer),
    (len, hang_up, next): (usize, bool, Stage),
) {
    let mut machine = connection(stage, 97);
    let mut out = [0xEE; 64];
    let stepped = step(&mut machine, &message, &answer, &mut out);
    assert_eq!(rt; stepped, Stepped { len, hang_up });
    assert_eq!(rt; machine.stage(), next);
}

#[test]
fn each_message_has_its_reply_in_each_stage(rt: HostRuntime) {
    use DeskAnswer::{Done, Refused};
    use Message::{SetUp, Start, Stop, Unknown};
    use Stage::{HungUp, Idle, SettingUp, Started};

    for (row, outcome) in [
        ((SettingUp, SetUp { mode: 0 }, Done), (0, true, HungUp)),
        ((SettingUp, SetUp { mode: 97 }, Done), (48, false, Idle)),
        ((SettingUp, SetUp { mode: 1 }, Done), (48, false, Idle)),
        ((SettingUp, SetUp { mode: 96 }, Done), (48, true, HungUp)),
        ((SettingUp, SetUp { mode: 99 }, Done), (48, true, HungUp)),
        ((SettingUp, SetUp { mode: 128 }, Done), (48, true, HungUp)),
        ((Idle, request(), RESERVED), (48, false, Idle)),
        (
            (Idle, request(), Refused(Accept::TemporaryLimit)),
            (48, false, Idle),
        ),
        ((Idle, faulty_request(), Done), (48, false, Idle)),
        ((Idle, request(), Done), (48, false, Idle)),
        ((Idle, Start, Done), (32, false, Started)),
        ((Idle, Start, RESERVED), (32, false, Started)),
        ((Idle, Stop { number: 0 }, Done), (0, false, Idle)),
        ((Idle, Stop { number: 1 }, Done), (0, true, HungUp)),
        ((Idle, Unknown(6), Done), (0, true, HungUp)),
        ((Started, Stop { number: 1 }, Done), (0, false, Idle)),
        ((Started, Stop { number: 2 }, Done), (0, true, HungUp)),
        ((Started, request(), Done), (0, true, HungUp)),
        ((Started, Start, Done), (0, true, HungUp)),
        ((Started, Unknown(0), Done), (0, true, HungUp)),
    ] {
        check(&rt, row, outcome);
    }
}

#[test]
fn a_message_says_what_to_do_with_the_sessions(rt: HostRuntime) {
    use Message::{SetUp, Start, Stop};
    use Stage::{Idle, SettingUp, Started};

    for (stage, message, ask) in [
        (SettingUp, SetUp { mode: 0 }, Ask::HangUp),
        (SettingUp, SetUp { mode: 2 }, Ask::Nothing),
        (Idle, faulty_request(), Ask::Nothing),
        (Idle, Start, Ask::StartAll),
        (Idle, Stop { number: 3 }, Ask::StopAll { number: 3 }),
        (Started, Stop { number: 1 }, Ask::StopAll { number: 1 }),
        (Started, request(), Ask::HangUp),
    ] {
        assert_eq!(rt; connection(stage, 97).ask(&message), ask);
    }
    for (stage, mode) in [(SettingUp, 0), (Idle, 97), (Started, 97)] {
        assert_eq!(rt; connection(stage, 97).mode(), mode);
    }
}

const WITH_OCTETS: &[u8] = &[
    0, 0, 0x03, 0x5E, 0, 0, 0, 7, 0, 0, 0, 1, 0, 0, 0, 1, 0x2A, 0x05, 0xF2, 0, 0xAB, 0xCD,
];

const WITHOUT: &[u8] = &[
    0, 0, 0x03, 0x5E, 0, 0, 0, 7, 0, 0, 0, 1, 0, 0, 0, 1, 0x2A, 0x05, 0xF2, 0, 0, 0,
];

const REFUSED: &[u8] = &[
    4, 0, 0, 0, 0, 0, 0, 0, 0, 0, 0, 0, 0, 0, 0, 0, 0, 0, 0, 0, 0xAB, 0xCD,
];

#[test]
fn an_acceptance_names_the_session_and_gives_octets_back(rt: HostRuntime) {
    for (mode, answer, front) in [
        (97, RESERVED, WITH_OCTETS),
        (65, RESERVED, WITHOUT),
        (33, DeskAnswer::Refused(Accept::PermanentLimit), REFUSED),
    ] {
        let mut machine = connection(Stage::Idle, mode);
        let mut out = [0xEE; 64];
        step(&mut machine, &request(), &answer, &mut out);
        assert_eq!(rt; out[..22], *front);
    }
}

#[test]
fn after_a_hang_up_nothing_more_is_read(rt: HostRuntime) {
    let mut machine = connection(Stage::Started, 97);
    let mut out = [0; 64];
    step(&mut machine, &Message::Start, &DeskAnswer::Done, &mut out);
    assert_eq!(rt; machine.feed(&[6, 6, 6]), (3, None));
}
