//! A client's messages, against octets written out by hand (RFC 5357, section 3.5).

use crate::{Client, ClientState, Grant, Wish};
use control_msgs::is_open_mode;
use std::alloc::Global;
use std::process::Abort;

const WISH: Wish = Wish {
    v6: false,
    sender_port: 6_000,
    receiver_port: 5_001,
    timeout: [0, 0, 0, 2, 0, 0, 0, 0],
    octets: [0; 2],
    reflect: 0,
};

const WISH_V6: Wish = Wish { v6: true, ..WISH };

/// A client with one wish, in the open mode with both options of RFC 6038.
fn client(rt: &impl Abort, alloc: Global) -> Client {
    assert!(rt; is_open_mode(97));
    Client::make(alloc, 97, &[WISH]).expect(rt, "a client")
}

/// Feeds all octets piece by piece, and says what the client wrote last.
fn feed_all(
    rt: &impl Abort,
    client: &mut Client,
    octets: &[u8],
    piece: usize,
) -> ([u8; 164], usize) {
    let mut out = [0; 164];
    let mut len = 0;
    let mut at = 0;
    for _ in 0..octets.len() {
        assert!(rt; at <= octets.len());
        let rest = &octets[at..];
        let step = client.feed(&rest[..rest.len().min(piece)], &mut out);
        if step.len > 0 {
            len = step.len;
        }
        at += step.taken;
    }
    (out, len)
}

#[test]
fn a_request_names_its_ports_and_its_timeout(rt: HostRuntime) {
    for piece in [1usize, 5, 64] {
        let mut client = client(&rt, rt.alloc());
        let mut greeting = [0; 64];
        greeting[15] = 97;
        let (set_up, len) = feed_all(&rt, &mut client, &greeting, piece);
        assert_eq!(rt; len, 164);
        let mut expected = [0; 164];
        expected[3] = 97;
        assert_eq!(rt; set_up, expected);
        let (request, len) = feed_all(&rt, &mut client, &[0; 48], piece);
        let mut expected = [0; 164];
        expected[..16].copy_from_slice(&[
            5, 4, 0, 0, 0, 0, 0, 0, 0, 0, 0, 0, 0x17, 0x70, 0x13, 0x89,
        ]);
        expected[79] = 2;
        assert_eq!(rt; len, 112);
        assert_eq!(rt; request, expected);
        assert_eq!(rt; client.state(), ClientState::Accepting);
        assert_eq!(rt; client.grant(0), Some(Grant::Waiting));
        assert_eq!(rt; client.grant(1), None);
    }
}

#[test]
fn a_server_that_lacks_a_bit_of_the_mode_gets_nothing(rt: HostRuntime) {
    let mut client = client(&rt, rt.alloc());
    let mut greeting = [0; 64];
    greeting[15] = 65;
    let mut out = [0; 164];
    let step = client.feed(&greeting, &mut out);
    assert_eq!(rt; (step.taken, step.len), (64, 0));
    assert_eq!(rt; client.state(), ClientState::NoMode);
}

/// What a client of two wishes comes to, where the Server-Start, both Accept-Sessions and the Start-Ack have these Accepts.
fn after_accepts(rt: &impl Abort, alloc: Global, accepts: [u8; 4]) -> Client {
    assert!(rt; is_open_mode(97));
    let mut client = Client::make(alloc, 97, &[WISH, WISH_V6]).expect(rt, "a client");
    let mut out = [0; 164];
    let mut greeting = [0; 64];
    greeting[15] = 97;
    client.feed(&greeting, &mut out);
    let mut server_start = [0; 48];
    server_start[15] = accepts[0];
    client.feed(&server_start, &mut out);
    for accept in [accepts[1], accepts[2]] {
        let mut accept_session = [0; 48];
        accept_session[0] = accept;
        accept_session[3] = 7;
        accept_session[19] = 9;
        client.feed(&accept_session, &mut out);
    }
    let mut start_ack = [0; 32];
    start_ack[0] = accepts[3];
    client.feed(&start_ack, &mut out);
    client
}

#[test]
fn each_accept_leads_to_its_state(rt: HostRuntime) {
    let mut sid = [0; 16];
    sid[15] = 9;
    let granted = Some(Grant::Granted { port: 7, sid });
    let waiting = Some(Grant::Waiting);
    for (accepts, state, first, second) in [
        ([5u8, 0, 0, 0], ClientState::Denied(5), waiting, waiting),
        (
            [0, 3, 4, 0],
            ClientState::NoSession,
            Some(Grant::Refused(3)),
            Some(Grant::Refused(4)),
        ),
        (
            [0, 0, 5, 0],
            ClientState::Started,
            granted,
            Some(Grant::Refused(5)),
        ),
        (
            [0, 1, 0, 2],
            ClientState::Denied(2),
            Some(Grant::Refused(1)),
            granted,
        ),
    ] {
        let client = after_accepts(&rt, rt.alloc(), accepts);
        assert_eq!(rt; client.state(), state);
        assert_eq!(rt; client.grant(0), first);
        assert_eq!(rt; client.grant(1), second);
    }
}

#[test]
fn a_started_client_stops_what_was_granted(rt: HostRuntime) {
    let mut client = after_accepts(&rt, rt.alloc(), [0, 0, 5, 0]);
    match client.state() {
        ClientState::Started => {
            let mut out = [1; 32];
            client.stop(&mut out);
            let mut expected = [0; 32];
            expected[0] = 3;
            expected[7] = 1;
            assert_eq!(rt; out, expected);
        }
        _ => panic!(rt; "it is started"),
    }
    assert_eq!(rt; client.state(), ClientState::Stopped);
}
