//! Ports and desks that wait for one another.

ghost use Rattle.std.specs.Prelude.{◌≡◌, OnOk, OnErr};
ghost use Rattle.port_io.specs.Outside.{Rises};

use net_io::{Desk, DeskEvent, Got, Port, Timed};
use port_io::{Failed, count_failure};
use refl_types::{Address, Endpoint, LocalAddr, Meta};
use std::alloc::Global;
use std::process::Abort;
use std::sync::Arc;
use std::sync::atomic::{AtomicU64, Ordering};
use std::thread;

/// How often a gate is looked at before it counts as shut.
const LOOKS: u32 = 10_000_000;

/// What is told of a datagram of the session.
pub const META: Meta = Meta {
    local: 0,
    peer: Endpoint {
        address: Address::V4([198, 51, 100, 1]),
        port: 5000,
    },
    len: 44,
    ttl: None,
    arrival: 1_000_000_000,
};

/// How often something has happened.
#[derive(Drop)]
pub struct Counter {
    count: Arc<AtomicU64, Global>,
}

impl Counter {
    pub fn new(rt: &impl Abort, alloc: Global) -> Counter {
        Counter {
            count: Arc::new(alloc, AtomicU64::new(0)).expect(rt, "a counter"),
        }
    }

    /// The same, for one more object.
    fn share(&self, rt: &impl Abort) -> Counter {
        Counter {
            count: Arc::try_clone(&self.count).expect(rt, "a counter"),
        }
    }

    /// A gate for each of these counts, which is open once it has happened so often.
    pub fn gates(&self, rt: &impl Abort, alloc: Global, counts: &[u64]) -> Vec<Gate> {
        let mut gates = Vec::new(alloc);
        for count in counts {
            let gate = Gate {
                counter: self.share(rt),
                count: *count,
            };
            gates.push(gate).expect(rt, "room");
        }
        gates
    }

    fn raise(&self) {
        self.count.fetch_add(1, Ordering::SeqCst);
    }
}

/// It is open once something has happened so often.
#[derive(Drop)]
pub struct Gate {
    counter: Counter,
    count: u64,
}

impl Gate {
    /// Waits until it is open, and says whether it is.
    fn opens(&self) -> bool {
        for _look in 0..LOOKS {
            if self.counter.count.load(Ordering::SeqCst) >= self.count {
                return true;
            }
            thread::yield_now();
        }
        false
    }
}

/// Waits for the last of the gates, and says whether it is open; not where there is none.
fn passes(gates: &mut Vec<Gate>) -> bool {
    match gates.pop() {
        Some(gate) => gate.opens(),
        None => false,
    }
}

/// A port that gives a datagram of the session for each of its gates, once that is open; and its end where one stays shut.
#[derive(Drop)]
pub struct GatedPort {
    alloc: Global,
    bound: Vec<LocalAddr>,
    gates: Vec<Gate>,
    sent: Counter,
    faults: u64,
}

impl GatedPort {
    /// The last of the gates comes first. Each sending is counted.
    pub fn new(alloc: Global, gates: Vec<Gate>, sent: Counter) -> GatedPort {
        GatedPort {
            alloc,
            bound: Vec::new(alloc),
            gates,
            sent,
            faults: 0,
        }
    }

    fn bind(&mut self, locals: &[LocalAddr]) -> Result<(), Failed>
        ensures bound { OnOk result (self.new.bound.items ≡ locals.now) }
        ensures unbound { OnErr result (self.new.bound ≡ self.old.bound) }
        ensures still { OnOk result (self.new.faults ≡ self.old.faults) }
        ensures cause { OnErr result (Rises self.old.faults self.new.faults) }
    {
        match Vec::from_slice(self.alloc, locals) {
            Ok(bound) => {
                self.bound = bound;
                Ok(())
            }
            Err(_) => Err(count_failure(&mut self.faults)),
        }
    }
}

impl Port for GatedPort {
    ghost use Rattle.std.specs.Prelude.{None};

    type Setup = ();

    ghost shown = { λ port. record { bound = port.bound.items; coming = None; log = None; made = tt; faults = port.faults } };

    fn open(&mut self, locals: &[LocalAddr]) -> Result<(), Failed> {
        self.bind(locals)
    }

    fn share(&mut self, first: &GatedPort) -> Result<(), Failed> {
        self.bind(&first.bound)
    }

    fn recv(&mut self, buf: &mut [u8]) -> Result<Got, Failed> {
        if !passes(&mut self.gates) {
            return Ok(Got::End);
        }
        buf.fill(0);
        Ok(Got::Datagram(META))
    }

    fn now(&mut self) -> u64 {
        1_000
    }

    fn send(&mut self, _from: u16, _to: &Endpoint, _octets: &[u8]) -> Result<(), Failed> {
        self.sent.raise();
        Ok(())
    }

    fn done(&mut self) {}
}

/// An event at the one moment.
fn timed(event: DeskEvent) -> Timed
    ensures { result.event ≡ event }
{
    Timed {
        moment: 2_000,
        event,
    }
}

/// A desk at which time passes at each of its gates, once that is open; and its end where one stays shut.
#[derive(Drop)]
pub struct GatedDesk {
    is_open: bool,
    gates: Vec<Gate>,
    told: Counter,
}

impl GatedDesk {
    /// The last of the gates comes first. Each passing is counted.
    pub fn new(gates: Vec<Gate>, told: Counter) -> GatedDesk {
        GatedDesk {
            is_open: false,
            gates,
            told,
        }
    }
}

impl Desk for GatedDesk {
    ghost use Rattle.std.specs.Prelude.{None};

    type Setup = ();

    ghost shown = { λ desk. record { is_open = desk.is_open; coming = None; log = None; made = tt; faults = 0 } };

    fn open(
        &mut self,
        _control: Option<LocalAddr>,
        _operator: Option<LocalAddr>,
    ) -> Result<(), Failed> {
        self.is_open = true;
        Ok(())
    }

    fn next(&mut self, _buf: &mut [u8]) -> Result<Timed, Failed> {
        if !passes(&mut self.gates) {
            return Ok(timed(DeskEvent::End));
        }
        self.told.raise();
        Ok(timed(DeskEvent::Tick))
    }

    fn send(&mut self, _conn: u32, _octets: &[u8]) -> Result<(), Failed> {
        Ok(())
    }

    fn hang_up(&mut self, _conn: u32) {}

    fn finish(&mut self) {}
}
