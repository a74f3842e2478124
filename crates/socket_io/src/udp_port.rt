//! The system's sockets for datagrams as a port.

ghost use Rattle.std.specs.Prelude.{◌≡◌, ◌≤◌, length, IfOk, OnOk, OnErr};
ghost use Rattle.refl_types.specs.Limits.{datagram_limit};
ghost use Rattle.port_io.specs.Outside.{Rises};
ghost use Rattle.net_io.specs.Port.{datagram_len};

use crate::clock::{LONGEST_WAIT, wall_clock};
use crate::ends::Ends;
use crate::raw_address::{RawAddress, decode};
use crate::sockets::{Received, Sockets, Turn};
use libc::net::_SS_SIZE;
use net_io::{Got, Port};
use port_io::{Failed, count_failure};
use refl_types::{Endpoint, LocalAddr, Memory, Meta};
use std::alloc::Global;
use std::marker::Model;
use std::net::Net;
use std::sync::Arc;
use std::time::Clock;

/// How far the worker of a port has come.
#[derive(Clone, Copy, PartialEq, Eq)]
enum Stage {
    Unopened,
    Begun,
    Done,
}

/// A port over the system's sockets. Ports that share have the same sockets.
#[derive(Drop)]
pub struct UdpPort<R: Net + Clock + Copy> {
    rt: R,
    alloc: Global,
    ends: Ends,
    stage: Stage,
    /// The longest wait of a receive, in milliseconds, of the sockets that are opened next.
    wait: u16,
    sockets: Option<Arc<Sockets, Global>>,
    turn: Turn,
    /// Whom the last datagram came from, and whom one was sent to last.
    from: RawAddress,
    /// What is told of the last datagram.
    meta: Meta,
    to: RawAddress,
    /// The last moment that was read, 0 before.
    last: u64,
    faults: u64,
}

impl<R: Net + Clock + Copy> Model for UdpPort<R> {
    ghost use Rattle.std.specs.Arc.{arc_value};
    ghost use Rattle.socket_io.specs.Objects.{UdpPortState, list_in};
    ghost use Rattle.socket_io.specs.declared.sockets.Sockets.{Sockets};

    ghost Value = { UdpPortState };

    ghost view = { λ p. record {
      bound = list_in (λ shared. (arc_value {X = Sockets} shared).locals.items) p.sockets;
      faults = p.faults;
    } };
}

const NO_META: Meta = Meta {
    local: 0,
    peer: Endpoint {
        address: refl_types::Address::V4([0; 4]),
        port: 0,
    },
    len: 0,
    ttl: None,
    arrival: 0,
};

impl<R: Net + Clock + Copy> UdpPort<R> {
    ghost use Rattle.std.specs.Prelude.{◌≡◌, [], IfOk, OnOk, OnErr};
    ghost use Rattle.port_io.specs.Outside.{Rises};
    ghost use Rattle.net_io.specs.Port.{datagram_len};
    ghost use Rattle.std.specs.Arc.{arc_value};
    ghost use Rattle.socket_io.specs.declared.sockets.Sockets.{Sockets};

    /// A port that is bound to nothing yet.
    pub fn make(rt: R, alloc: Global, ends: &Ends) -> Result<UdpPort<R>, Memory>
        ensures bound { IfOk result (λ port. port.bound ≡ []) }
        ensures faults { IfOk result (λ port. port.faults ≡ 0) }
    {
        match ends.share() {
            Ok(ends) => Ok(UdpPort::over(rt, alloc, ends)),
            Err(fault) => Err(fault),
        }
    }

    /// A port that is bound to nothing yet, with ends of its own.
    fn over(rt: R, alloc: Global, ends: Ends) -> UdpPort<R>
        ensures bound { result.bound ≡ [] }
        ensures faults { result.faults ≡ 0 }
    {
        UdpPort {
            rt,
            alloc,
            ends,
            stage: Stage::Unopened,
            wait: LONGEST_WAIT,
            sockets: None,
            turn: Turn::of(0),
            from: [0; _SS_SIZE],
            meta: NO_META,
            to: [0; _SS_SIZE],
            last: 0,
            faults: 0,
        }
    }

    /// Sets the longest wait of a receive on the local addresses that are opened next, and of the ports that share them: 1 to 100
    /// milliseconds, the nearest of these where it is none. It is 100 at first.
    pub fn wait_at_most(&mut self, millis: u16)
        ensures bound { self.new.bound ≡ self.old.bound }
        ensures still { self.new.faults ≡ self.old.faults }
    {
        self.wait = millis.clamp(1, LONGEST_WAIT);
    }

    /// Takes over sockets.
    fn begin(&mut self, sockets: Arc<Sockets, Global>)
        ensures bound { self.new.bound ≡ (arc_value {X = Sockets} sockets).locals.items }
        ensures still { self.new.faults ≡ self.old.faults }
    {
        self.sockets = Some(sockets);
        if self.stage == Stage::Unopened {
            self.stage = Stage::Begun;
            self.ends.begin();
        }
    }

    /// The moment, or the last that was read where the clock can't be read.
    #[inline(always)]
    fn moment(&mut self) -> u64
        ensures bound { self.new.bound ≡ self.old.bound }
        ensures still { self.new.faults ≡ self.old.faults }
    {
        match wall_clock() {
            Some(moment) => {
                self.last = moment;
                moment
            }
            None => self.last,
        }
    }

    /// The next datagram, where one comes in time.
    #[inline(always)]
    fn receive(&mut self, buf: &mut [u8]) -> Result<Got, Failed>
        ensures len { IfOk result (λ got. datagram_len got ≤ datagram_limit) }
        ensures bound { self.new.bound ≡ self.old.bound }
        ensures still { OnOk result (self.new.faults ≡ self.old.faults) }
        ensures cause { OnErr result (Rises self.old.faults self.new.faults) }
    {
        let Some(sockets) = &self.sockets else {
            return Err(count_failure(&mut self.faults));
        };
        match sockets.receive(&mut self.turn, buf, &mut self.from) {
            Received::Datagram { local, len } => {
                let arrival = self.moment();
                self.meta.local = local;
                self.meta.peer = decode(&self.from);
                self.meta.len = len;
                self.meta.arrival = arrival;
                Ok(Got::Datagram(self.meta))
            }
            Received::Nothing => Ok(Got::Nothing),
            Received::Failed => Err(count_failure(&mut self.faults)),
        }
    }
}

impl<R: Net + Clock + Copy> Port for UdpPort<R> {
    ghost use Rattle.std.specs.Prelude.{None};

    type Setup = ();

    ghost shown = { λ port. record { bound = port.bound; coming = None; log = None; made = tt; faults = port.faults } };

    fn open(&mut self, locals: &[LocalAddr]) -> Result<(), Failed> {
        let Ok(sockets) = Sockets::bind(&self.rt, self.alloc, locals, self.wait) else {
            return Err(count_failure(&mut self.faults));
        };
        let Ok(sockets) = Arc::new(self.alloc, sockets) else {
            return Err(count_failure(&mut self.faults));
        };
        self.begin(sockets);
        Ok(())
    }

    fn share(&mut self, first: &UdpPort<R>) -> Result<(), Failed> {
        let Some(sockets) = &first.sockets else {
            return Err(count_failure(&mut self.faults));
        };
        let Ok(sockets) = Arc::try_clone(sockets) else {
            return Err(count_failure(&mut self.faults));
        };
        self.begin(sockets);
        Ok(())
    }

    #[inline(always)]
    fn recv(&mut self, buf: &mut [u8]) -> Result<Got, Failed> {
        if self.ends.is_finished() {
            return Ok(Got::End);
        }
        self.receive(buf)
    }

    #[inline(always)]
    fn now(&mut self) -> u64 {
        self.moment()
    }

    #[inline(always)]
    fn send(&mut self, from: u16, to: &Endpoint, octets: &[u8]) -> Result<(), Failed> {
        let Some(sockets) = &self.sockets else {
            return Err(count_failure(&mut self.faults));
        };
        if sockets.send(from, to, octets, &mut self.to) {
            Ok(())
        } else {
            Err(count_failure(&mut self.faults))
        }
    }

    fn done(&mut self) {
        if self.stage == Stage::Begun {
            self.stage = Stage::Done;
            self.ends.done();
        }
    }
}
