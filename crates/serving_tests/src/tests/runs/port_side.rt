//! The datagrams of a port, each at its place in an order, and what they are answered.

use super::Script;
use super::order::{Order, Turns};
use net_io::{Got, Port, PortDeed, ScriptPort};
use port_io::Failed;
use refl_types::{Endpoint, LocalAddr, Meta};
use std::alloc::Global;
use std::process::Abort;

/// The datagrams of a port, and all that it has to do.
#[derive(Drop)]
pub struct PortSide {
    alloc: Global,
    places: Vec<u64>,
    script: Script,
    moments: Vec<u64>,
    deeds: Vec<(PortDeed, Vec<u8>)>,
}

impl PortSide {
    pub fn new(alloc: Global) -> PortSide {
        PortSide {
            alloc,
            places: Vec::new(alloc),
            script: Script::new(alloc),
            moments: Vec::new(alloc),
            deeds: Vec::new(alloc),
        }
    }

    fn does(&mut self, rt: &impl Abort, deed: PortDeed, octets: &[u8]) {
        let octets = Vec::from_slice(self.alloc, octets).expect(rt, "octets");
        self.deeds.push((deed, octets)).expect(rt, "room");
    }

    /// The moment is read: at the opening, or for a reply.
    pub fn tells(&mut self, rt: &impl Abort, moment: u64) {
        self.moments.push(moment).expect(rt, "room");
        self.does(rt, PortDeed::Read(moment), b"");
    }

    /// A datagram that came at second 1.
    pub fn takes(&mut self, rt: &impl Abort, place: u64, peer: &Endpoint, octets: &[u8]) {
        let meta = Meta {
            local: 0,
            peer: *peer,
            len: octets.len(),
            ttl: None,
            arrival: 1_000_000_000,
        };
        self.does(rt, PortDeed::Took(meta), octets);
        self.places.push(place).expect(rt, "room");
        self.script.give(rt, 0, peer, octets);
    }

    /// A reply at this moment.
    pub fn sends(&mut self, rt: &impl Abort, moment: u64, to: &Endpoint, octets: &[u8]) {
        self.tells(rt, moment);
        let deed = PortDeed::Sent { from: 0, to: *to };
        self.does(rt, deed, octets);
    }

    /// The port of this side, in an order.
    pub fn port(self, rt: &impl Abort, order: &Order) -> SeatedPort {
        let PortSide {
            alloc,
            places,
            script,
            moments,
            deeds,
        } = self;
        let Script { items, .. } = script;
        let port = ScriptPort::make(
            alloc,
            items,
            moments,
            Vec::new(alloc),
            Vec::new(alloc),
            Vec::new(alloc),
            Vec::new(alloc),
            100,
            10_000,
        )
        .expect(rt, "a port");
        SeatedPort {
            port,
            turns: order.seat(rt, places),
            deeds,
        }
    }
}

/// A port in an order, and all that it has to do.
#[derive(Drop)]
pub struct SeatedPort {
    port: ScriptPort,
    turns: Turns,
    deeds: Vec<(PortDeed, Vec<u8>)>,
}

impl SeatedPort {
    /// Ends the test where the port has done something else, or hasn't ended.
    pub fn expect_done(&mut self, rt: &impl Abort, alloc: Global) {
        self.deeds
            .push((PortDeed::Ended, Vec::new(alloc)))
            .expect(rt, "room");
        self.deeds
            .push((PortDeed::Done, Vec::new(alloc)))
            .expect(rt, "room");
        for (at, (deed, octets)) in self.deeds.iter().enumerate() {
            let Some((done, with)) = self.port.entry(at) else {
                panic!(rt; "the port has no entry {at}");
            };
            assert_eq!(rt; done, *deed, "entry {at} of a port");
            assert_eq!(rt; with, octets.as_slice(), "entry {at} of a port");
        }
        assert!(rt; self.port.entry(self.deeds.len()).is_none());
    }
}

impl Port for SeatedPort {
    ghost use Rattle.std.specs.Prelude.{None};

    type Setup = ();

    ghost shown = { λ p. record { bound = p.port.bound; coming = None; log = None; made = tt; faults = p.port.faults } };

    fn open(&mut self, locals: &[LocalAddr]) -> Result<(), Failed> {
        self.port.open(locals)
    }

    fn share(&mut self, first: &SeatedPort) -> Result<(), Failed> {
        self.port.share(&first.port)
    }

    fn recv(&mut self, buf: &mut [u8]) -> Result<Got, Failed> {
        self.turns.take();
        self.port.recv(buf)
    }

    fn now(&mut self) -> u64 {
        self.port.now()
    }

    fn send(&mut self, from: u16, to: &Endpoint, octets: &[u8]) -> Result<(), Failed> {
        self.port.send(from, to, octets)
    }

    fn done(&mut self) {
        self.turns.end();
        self.port.done();
    }
}
