//! The system's connections as a desk.

ghost use Rattle.std.specs.Prelude.{◌≡◌, ◌≤◌, length, IfOk, IfSome};
ghost use Rattle.net_io.specs.Desk.{octet_count};

use crate::clock::{is_tick_due, steady_clock, wait_until_tick, wall_clock};
use crate::connections::Connections;
use crate::ends::Ends;
use net_io::{Desk, DeskEvent, PIECE_ROOM, Timed};
use port_io::{Failed, count_failure};
use refl_types::{LocalAddr, Memory};
use std::alloc::Global;
use std::io::{self, ErrorKind};
use std::marker::Model;
use std::net::Net;
use std::time::Clock;

/// A desk over the system's sockets. It takes 33 connections, and further ones wait.
#[derive(Drop)]
pub struct TcpDesk<R: Net + Clock + Copy> {
    rt: R,
    alloc: Global,
    ends: Ends,
    connections: Option<Connections>,
    /// The last moment that was read, in nanoseconds since the start of 1970, 0 before.
    moment: u64,
    /// The same of the clock that never goes back, since an arbitrary start.
    time: u64,
    /// When the last Tick was, by that clock.
    last_tick: u64,
    faults: u64,
}

impl<R: Net + Clock + Copy> Model for TcpDesk<R> {
    ghost use Rattle.std.specs.Prelude.{is_some};
    ghost use Rattle.socket_io.specs.Objects.{TcpDeskState};

    ghost Value = { TcpDeskState };

    ghost view = { λ d. record { is_open = is_some d.connections; faults = d.faults } };
}

impl<R: Net + Clock + Copy> TcpDesk<R> {
    ghost use Rattle.std.specs.Prelude.{◌≡◌, false, IfOk, IfSome, IsTrue};

    /// A desk that isn't open yet.
    pub fn make(rt: R, alloc: Global, ends: &Ends) -> Result<TcpDesk<R>, Memory>
        ensures shut { IfOk result (λ desk. desk.is_open ≡ false) }
        ensures faults { IfOk result (λ desk. desk.faults ≡ 0) }
    {
        let ends = ends.share()?;
        Ok(TcpDesk {
            rt,
            alloc,
            ends,
            connections: None,
            moment: 0,
            time: 0,
            last_tick: 0,
            faults: 0,
        })
    }

    /// Reads both clocks. One that can't be read leaves its last moment.
    fn look_at_clocks(&mut self)
        ensures open { self.new.is_open ≡ self.old.is_open }
        ensures still { self.new.faults ≡ self.old.faults }
    {
        if let Some(moment) = wall_clock() {
            self.moment = moment;
        }
        if let Some(time) = steady_clock(&self.rt) {
            self.time = time;
        }
    }

    /// What happens now: the end comes first, then a Tick, then what has come.
    fn look(&mut self, buf: &mut [u8]) -> io::Result<Option<DeskEvent>>
        requires { PIECE_ROOM ≤ length buf.old }
        ensures len { IfOk result (λ found. IfSome found (λ event. octet_count event ≤ 4096)) }
        ensures room { length buf.new ≡ length buf.old }
        ensures open { self.new.is_open ≡ self.old.is_open }
        ensures still { self.new.faults ≡ self.old.faults }
    {
        self.look_at_clocks();
        if self.ends.are_done() {
            return Ok(Some(DeskEvent::End));
        }
        if is_tick_due(self.last_tick, self.time) {
            self.last_tick = self.time;
            if let Some(connections) = &mut self.connections {
                connections.retry();
            }
            return Ok(Some(DeskEvent::Tick));
        }
        match &mut self.connections {
            Some(connections) => connections.sweep(buf),
            None => Ok(None),
        }
    }

    /// Waits until something may have come, at most until the next Tick.
    fn wait(&mut self) -> io::Result<()>
        ensures open { self.new.is_open ≡ self.old.is_open }
        ensures still { self.new.faults ≡ self.old.faults }
    {
        let millis = wait_until_tick(self.last_tick, self.time);
        match &mut self.connections {
            Some(connections) => connections.wait(millis),
            None => Ok(()),
        }
    }

    /// The next event. After a failure it waits too, so that a lasting one doesn't keep the processor busy.
    fn wait_for_event(&mut self, buf: &mut [u8]) -> io::Result<DeskEvent>
        requires { PIECE_ROOM ≤ length buf.old }
        ensures len { IfOk result (λ event. octet_count event ≤ 4096) }
        ensures room { length buf.new ≡ length buf.old }
        ensures open { self.new.is_open ≡ self.old.is_open }
        ensures still { self.new.faults ≡ self.old.faults }
    {
        for _ in 0..u64::MAX {
            match self.look(buf) {
                Ok(Some(event)) => return Ok(event),
                Ok(None) => self.wait()?,
                Err(e) => {
                    self.wait()?;
                    return Err(e);
                }
            }
        }
        Err(io::Error::from(ErrorKind::TimedOut))
    }
}

impl<R: Net + Clock + Copy> Desk for TcpDesk<R> {
    ghost use Rattle.std.specs.Prelude.{None};

    type Setup = ();

    ghost shown = { λ desk. record { is_open = desk.is_open; coming = None; log = None; made = tt; faults = desk.faults } };

    fn open(
        &mut self,
        control: Option<LocalAddr>,
        operator: Option<LocalAddr>,
    ) -> Result<(), Failed> {
        let Ok(connections) = Connections::listen(&self.rt, self.alloc, control, operator) else {
            return Err(count_failure(&mut self.faults));
        };
        self.look_at_clocks();
        self.last_tick = self.time;
        self.connections = Some(connections);
        Ok(())
    }

    fn next(&mut self, buf: &mut [u8]) -> Result<Timed, Failed> {
        match self.wait_for_event(buf) {
            Ok(event) => Ok(Timed {
                moment: self.moment,
                event,
            }),
            Err(_) => Err(count_failure(&mut self.faults)),
        }
    }

    fn send(&mut self, conn: u32, octets: &[u8]) -> Result<(), Failed> {
        let Some(connections) = &mut self.connections else {
            return Err(count_failure(&mut self.faults));
        };
        match connections.send(&self.rt, conn, octets) {
            Ok(()) => Ok(()),
            Err(_) => Err(count_failure(&mut self.faults)),
        }
    }

    fn hang_up(&mut self, conn: u32) {
        if let Some(connections) = &mut self.connections {
            connections.hang_up(conn);
        }
    }

    fn finish(&mut self) {
        self.ends.finish();
        if let Some(mut connections) = self.connections.take() {
            connections.hang_up_all();
        }
    }
}
