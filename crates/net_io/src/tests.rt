//! A scripted port and a scripted desk, where memory is ample.

ghost use Rattle.std.specs.Prelude.{◌≡◌, [], IfOk};

use crate::desk::{Desk, DeskEvent, PIECE_ROOM, Timed};
use crate::port::{DATAGRAM_ROOM, Got, Port};
use crate::script_desk::{DeskDeed, DeskItem, ScriptDesk};
use crate::script_port::{PortDeed, PortItem, ScriptPort};
use refl_types::{Address, Endpoint, Meta};
use std::alloc::{AllocError, Global};
use std::test::Fail;

const LOCAL: Endpoint = Endpoint {
    address: Address::V4([192, 0, 2, 10]),
    port: 862,
};

const PEER: Endpoint = Endpoint {
    address: Address::V4([198, 51, 100, 1]),
    port: 5000,
};

const META: Meta = Meta {
    local: 0,
    peer: PEER,
    len: 3,
    ttl: Some(64),
    arrival: 1_000_000_000,
};

fn numbers(alloc: Global, list: &[u64]) -> Result<Vec<u64>, AllocError> {
    Vec::from_slice(alloc, list)
}

/// A datagram, and then nothing for now. The second receive fails. The log has room for three entries and three octets.
fn port(alloc: Global) -> Result<ScriptPort, Fail>
    ensures { IfOk result (λ s. s.bound ≡ []) }
{
    let mut items = Vec::new(alloc);
    items.push(PortItem::Datagram {
        meta: META,
        octets: Vec::from_slice(alloc, b"abc")?,
    })?;
    items.push(PortItem::Nothing)?;
    let moments = numbers(alloc, &[7])?;
    let (fail_open, fail_share) = (Vec::new(alloc), Vec::new(alloc));
    let (fail_recv, fail_send) = (numbers(alloc, &[2])?, Vec::new(alloc));
    let port = ScriptPort::make(
        alloc, items, moments, fail_open, fail_share, fail_recv, fail_send, 3, 3,
    )?;
    Ok(port)
}

#[test]
fn a_port_gives_its_script_and_logs_it(rt: HostRuntime) -> Result<(), Fail> {
    let alloc = rt.alloc();
    let mut port = port(alloc)?;
    let mut buf = vec![in alloc; 0u8; DATAGRAM_ROOM]?;
    port.open(&[LOCAL])?;
    assert_eq!(rt; port.recv(&mut buf)?, Got::Datagram(META));
    assert!(rt; port.recv(&mut buf).is_err());
    assert_eq!(rt; port.recv(&mut buf)?, Got::Nothing);
    assert_eq!(rt;
        port.entry(0).map(|entry| entry.0),
        Some(PortDeed::Took(META))
    );
    Ok(())
}

#[test]
fn a_log_without_room_is_told_no_longer(rt: HostRuntime) -> Result<(), Fail> {
    let mut port = port(rt.alloc())?;
    assert_eq!(rt; (port.now(), port.now()), (7, 7));
    port.done();
    assert!(rt; port.entry(2).is_some());
    port.done();
    assert!(rt; port.entry(2).is_none());
    Ok(())
}

#[test]
fn a_desk_gives_its_script_and_logs_it(rt: HostRuntime) -> Result<(), Fail> {
    let alloc = rt.alloc();
    let event = DeskEvent::Bytes { conn: 1, len: 3 };
    let mut items = Vec::new(alloc);
    items.push(DeskItem {
        moment: 9,
        event,
        octets: Vec::from_slice(alloc, b"bye")?,
    })?;
    let (fail_open, fail_next) = (Vec::new(alloc), Vec::new(alloc));
    let fail_send = numbers(alloc, &[1])?;
    let mut desk = ScriptDesk::make(alloc, items, fail_open, fail_next, fail_send, 5, 8)?;
    let mut buf = vec![in alloc; 0u8; PIECE_ROOM]?;
    desk.open(None, Some(LOCAL))?;
    assert_eq!(rt; desk.next(&mut buf)?, Timed { moment: 9, event });
    assert!(rt; desk.send(1, b"ok").is_err());
    assert_eq!(rt;
        desk.entry(1).map(|entry| entry.0),
        Some(DeskDeed::Gave(Timed { moment: 9, event }))
    );
    Ok(())
}
