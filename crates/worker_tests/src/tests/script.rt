//! What a port is to give, and what it did.

ghost use Rattle.std.specs.Prelude.{◌<◌, length};

use super::requests::REQUEST;
use net_io::{Port, PortDeed, PortItem, ScriptPort};
use refl_types::{Address, Endpoint, Meta};
use std::alloc::Global;
use std::marker::Model;
use std::process::Abort;

/// Where all ports are bound.
pub const LOCAL: Endpoint = Endpoint {
    address: Address::V4([192, 0, 2, 10]),
    port: 862,
};

/// The entries that a port's log has room for.
const ENTRIES: usize = 400;

/// A sender.
pub fn sender(port: u16) -> Endpoint {
    Endpoint {
        address: Address::V4([192, 0, 2, 1]),
        port,
    }
}

/// What is still to come.
#[derive(Drop)]
pub struct Script {
    alloc: Global,
    items: Vec<PortItem>,
}

impl Model for Script {
    ghost use Rattle.std.specs.Prelude.{All, List, map};
    ghost use Rattle.net_io.specs.Port.{PortEntry};
    ghost use Rattle.net_io.specs.ScriptPort.{IsWhole, item_entry};

    ghost Value = { List PortEntry };

    ghost view = { λ s. map item_entry s.items.items };

    ghost invariant = { λ s. All IsWhole s.items.items };
}

impl Script {
    pub fn new(alloc: Global) -> Script {
        Script {
            alloc,
            items: Vec::new(alloc),
        }
    }

    /// A datagram of a sender.
    pub fn give(&mut self, rt: &impl Abort, peer: &Endpoint, octets: &[u8]) {
        assert!(rt; octets.len() <= 65_507);
        let meta = Meta {
            local: 0,
            peer: *peer,
            len: octets.len(),
            ttl: None,
            arrival: 0,
        };
        let octets = Vec::from_slice(self.alloc, octets).expect(rt, "octets");
        self.items
            .push(PortItem::Datagram { meta, octets })
            .expect(rt, "room");
    }

    /// The same so often.
    pub fn give_often(&mut self, rt: &impl Abort, count: u32, peer: &Endpoint, octets: &[u8]) {
        for _time in 0..count {
            self.give(rt, peer, octets);
        }
    }

    /// Each front of these octets, the empty one first.
    pub fn give_fronts(&mut self, rt: &impl Abort, octets: &[u8]) {
        assert!(rt; octets.len() <= 65_507);
        for len in 0..octets.len() + 1 {
            self.give(rt, &sender(5000), &octets[..len]);
        }
    }

    /// Nothing for now.
    fn pause(&mut self, rt: &impl Abort) {
        self.items.push(PortItem::Nothing).expect(rt, "room");
    }

    /// A port that gives nothing so often, and then so many requests of the first sender.
    pub fn with_pauses(rt: &impl Abort, alloc: Global, pauses: u32, requests: u32) -> ScriptPort
        ensures { 0 < length result.bound }
    {
        let mut script = Script::new(alloc);
        for _time in 0..pauses {
            script.pause(rt);
        }
        script.give_often(rt, requests, &sender(5000), &REQUEST);
        script.port(rt, &[], &[], &[])
    }

    /// The port, which is bound to the one local address, and fails in these calls.
    pub fn port(
        self,
        rt: &impl Abort,
        moments: &[u64],
        fail_recv: &[u64],
        fail_send: &[u64],
    ) -> ScriptPort
        ensures { 0 < length result.bound }
    {
        let Script { alloc, items } = self;
        let moments = Vec::from_slice(alloc, moments).expect(rt, "moments");
        let fail_recv = Vec::from_slice(alloc, fail_recv).expect(rt, "numbers");
        let fail_send = Vec::from_slice(alloc, fail_send).expect(rt, "numbers");
        let mut port = ScriptPort::make(
            alloc,
            items,
            moments,
            Vec::new(alloc),
            Vec::new(alloc),
            fail_recv,
            fail_send,
            ENTRIES,
            200_000,
        )
        .expect(rt, "a port");
        port.open(&[LOCAL]).expect(rt, "an open port");
        port
    }
}

/// How many replies the port was asked to send whose sequence number is this.
pub fn sendings(port: &ScriptPort, number: u8) -> usize {
    let mut count: usize = 0;
    for at in 0..ENTRIES {
        if let Some((PortDeed::Sent { .. } | PortDeed::SendFailed { .. }, octets)) = port.entry(at)
            && octets.starts_with(&[0, 0, 0, number])
        {
            count = count.saturating_add(1);
        }
    }
    count
}

/// Whether each number from 0 to 4 stands in just one of the replies that the port was asked to send.
pub fn has_each_number_once(port: &ScriptPort) -> bool {
    for number in 0..5 {
        if sendings(port, number) != 1 {
            return false;
        }
    }
    true
}

/// The octets of the reply at a place of the log; none where there is none.
pub fn reply_at(port: &ScriptPort, at: usize) -> &[u8] {
    match port.entry(at) {
        Some((PortDeed::Sent { .. }, octets)) => octets,
        _ => &[],
    }
}
