//! Messages octet by octet, and the first field for which a request is refused.

use super::{
    Field, MsgFault, Request, octets_to_reflect, read_request, write_accept, write_greeting,
    write_request, write_server_start, write_set_up, write_start, write_start_ack, write_stop,
};
use refl_types::Address;

fn request_with(edits: &[(usize, u8)]) -> [u8; 112] {
    let mut octets = [0; 112];
    octets[0] = 5;
    for (at, octet) in edits {
        if *at < 112 {
            octets[*at] = *octet;
        }
    }
    octets
}

fn fault(octet: u16, field: Field) -> Result<Request, MsgFault> {
    Err(MsgFault { octet, field })
}

#[test]
fn the_first_field_that_fails_is_named(rt: HostRuntime) {
    for (edits, octet, field) in [
        ([(0, 6), (1, 4)], 0, Field::Command),
        ([(1, 5), (2, 1)], 1, Field::Ipvn),
        ([(1, 4), (3, 1)], 2, Field::Conf),
        ([(1, 4), (2, 1)], 2, Field::Conf),
        ([(1, 4), (7, 1)], 4, Field::Slots),
        ([(1, 6), (84, 0x2E)], 84, Field::TypeP),
        ([(1, 4), (1, 4)], 12, Field::SenderPort),
    ] {
        assert_eq!(rt; read_request(&request_with(&edits)), fault(octet, field));
    }
}

const REQUEST: [u8; 112] = [
    5, 0xF4, 0, 0, 0, 0, 0, 0, 0, 0, 0, 0, 0x17, 0x70, 0x13, 0x89, 0xC0, 0, 2, 1, 7, 0, 0, 0, 0, 0,
    0, 0, 0, 0, 0, 0, 0, 0, 0, 0, 9, 0, 0, 0, 0, 0, 0, 0, 0, 0, 0, 0, 0, 0, 0, 0, 0, 0, 0, 0, 0, 0,
    0, 0, 0, 0, 0, 0, 0, 0, 0, 0, 0, 0, 0, 0, 0, 0, 0, 0, 0, 0, 0, 2, 0, 0, 0, 0, 0, 0, 0, 0, 0xAB,
    0xCD, 0, 4, 0, 0, 0, 0, 0, 0, 0, 0, 0, 0, 0, 0, 0, 0, 0, 0, 0, 0, 0, 0,
];

#[test]
fn a_request_is_read_by_its_places(rt: HostRuntime) {
    assert_eq!(rt;
        read_request(&REQUEST),
        Ok(Request {
            sender: Some(Address::V4([192, 0, 2, 1])),
            receiver: None,
            v6: false,
            sender_port: 6000,
            receiver_port: 5001,
            timeout: [0, 0, 0, 2, 0, 0, 0, 0],
            octets: [0xAB, 0xCD],
            reflect: 4,
        })
    );
    assert_eq!(rt; octets_to_reflect(&REQUEST), [0xAB, 0xCD]);
}

const GREETING: [u8; 64] = [
    0, 0, 0, 0, 0, 0, 0, 0, 0, 0, 0, 0, 0, 0, 0, 0x61, 0, 0, 0, 0, 0, 0, 0, 0, 0, 0, 0, 0, 0, 0, 0,
    0, 0, 0, 0, 0, 0, 0, 0, 0, 0, 0, 0, 0, 0, 0, 0, 0, 0, 0, 4, 0, 0, 0, 0, 0, 0, 0, 0, 0, 0, 0, 0,
    0,
];

const SERVER_START: [u8; 48] = [
    0, 0, 0, 0, 0, 0, 0, 0, 0, 0, 0, 0, 0, 0, 0, 3, 0, 0, 0, 0, 0, 0, 0, 0, 0, 0, 0, 0, 0, 0, 0, 0,
    0x83, 0xAA, 0x7E, 0x80, 0x80, 0, 0, 0, 0, 0, 0, 0, 0, 0, 0, 0,
];

const SID: [u8; 16] = [0, 0, 0, 0, 0, 0, 0, 1, 0, 0, 0, 1, 0x2A, 5, 0xF2, 0];

const ACCEPT: [u8; 48] = [
    0, 0, 3, 0x5E, 0, 0, 0, 0, 0, 0, 0, 1, 0, 0, 0, 1, 0x2A, 5, 0xF2, 0, 0xAB, 0xCD, 0, 0, 0, 0, 0,
    0, 0, 0, 0, 0, 0, 0, 0, 0, 0, 0, 0, 0, 0, 0, 0, 0, 0, 0, 0, 0,
];

const START_ACK: [u8; 32] = [
    1, 0, 0, 0, 0, 0, 0, 0, 0, 0, 0, 0, 0, 0, 0, 0, 0, 0, 0, 0, 0, 0, 0, 0, 0, 0, 0, 0, 0, 0, 0, 0,
];

#[test]
fn what_a_server_writes(rt: HostRuntime) {
    let mut greeting = [0xEE; 64];
    write_greeting(&mut greeting);
    assert_eq!(rt; greeting, GREETING);

    let mut start = [0xEE; 48];
    write_server_start(3, 500_000_000, &mut start);
    assert_eq!(rt; start, SERVER_START);

    let mut accept = [0xEE; 48];
    write_accept(0, 862, &SID, &[0xAB, 0xCD], &mut accept);
    assert_eq!(rt; accept, ACCEPT);

    let mut ack = [0xEE; 32];
    write_start_ack(1, &mut ack);
    assert_eq!(rt; ack, START_ACK);
}

const SET_UP: [u8; 164] = [
    0, 0, 0, 0x61, 0, 0, 0, 0, 0, 0, 0, 0, 0, 0, 0, 0, 0, 0, 0, 0, 0, 0, 0, 0, 0, 0, 0, 0, 0, 0, 0,
    0, 0, 0, 0, 0, 0, 0, 0, 0, 0, 0, 0, 0, 0, 0, 0, 0, 0, 0, 0, 0, 0, 0, 0, 0, 0, 0, 0, 0, 0, 0, 0,
    0, 0, 0, 0, 0, 0, 0, 0, 0, 0, 0, 0, 0, 0, 0, 0, 0, 0, 0, 0, 0, 0, 0, 0, 0, 0, 0, 0, 0, 0, 0, 0,
    0, 0, 0, 0, 0, 0, 0, 0, 0, 0, 0, 0, 0, 0, 0, 0, 0, 0, 0, 0, 0, 0, 0, 0, 0, 0, 0, 0, 0, 0, 0, 0,
    0, 0, 0, 0, 0, 0, 0, 0, 0, 0, 0, 0, 0, 0, 0, 0, 0, 0, 0, 0, 0, 0, 0, 0, 0, 0, 0, 0, 0, 0, 0, 0,
    0, 0, 0, 0, 0,
];

const START: [u8; 32] = [
    2, 0, 0, 0, 0, 0, 0, 0, 0, 0, 0, 0, 0, 0, 0, 0, 0, 0, 0, 0, 0, 0, 0, 0, 0, 0, 0, 0, 0, 0, 0, 0,
];

const STOP: [u8; 32] = [
    3, 0, 0, 0, 0, 0, 1, 2, 0, 0, 0, 0, 0, 0, 0, 0, 0, 0, 0, 0, 0, 0, 0, 0, 0, 0, 0, 0, 0, 0, 0, 0,
];

const ASKED: [u8; 112] = [
    5, 6, 0, 0, 0, 0, 0, 0, 0, 0, 0, 0, 0x17, 0x70, 0, 0, 0, 0, 0, 0, 0, 0, 0, 0, 0, 0, 0, 0, 0, 0,
    0, 0, 0, 0, 0, 0, 0, 0, 0, 0, 0, 0, 0, 0, 0, 0, 0, 7, 0, 0, 0, 0, 0, 0, 0, 0, 0, 0, 0, 0, 0, 0,
    0, 0, 0, 0, 0, 0, 0, 0, 0, 0, 0, 0, 0, 0, 0, 0, 0, 2, 0x80, 0, 0, 0, 0, 0, 0, 0, 2, 2, 0, 0, 0,
    0, 0, 0, 0, 0, 0, 0, 0, 0, 0, 0, 0, 0, 0, 0, 0, 0, 0, 0,
];

#[test]
fn what_a_client_writes(rt: HostRuntime) {
    let mut set_up = [0xEE; 164];
    write_set_up(97, &mut set_up);
    assert_eq!(rt; set_up, SET_UP);

    let mut start = [0xEE; 32];
    write_start(&mut start);
    assert_eq!(rt; start, START);

    let mut stop = [0xEE; 32];
    write_stop(258, &mut stop);
    assert_eq!(rt; stop, STOP);

    let mut request = [0xEE; 112];
    write_request(
        &Request {
            sender: None,
            receiver: Some(Address::V6([0, 0, 0, 0, 0, 0, 0, 0, 0, 0, 0, 0, 0, 0, 0, 7])),
            v6: true,
            sender_port: 6000,
            receiver_port: 0,
            timeout: [0, 0, 0, 2, 0x80, 0, 0, 0],
            octets: [2; 2],
            reflect: 0,
        },
        &mut request,
    );
    assert_eq!(rt; request, ASKED);
}
