//! The connections in the order in which they were opened.

ghost use Rattle.std.specs.Prelude.{◌≡◌, ◌<◌, false, length, IfSome};
ghost use Rattle.control_desk.specs.State.{Setting, side_in, with_connection};
ghost use Rattle.control_desk.specs.Connections.{index_from, state_of};
ghost use Rattle.control_desk.specs.Run.{begun, has, is_refused};

use crate::room::Places;
use crate::sides::{OpenConnection, Side};
use net_io::ConnKind;
use refl_types::Config;

/// Connections that may be open at once.
pub const CONNECTION_LIMIT: usize = 32;

/// Where the connection of a number stands.
pub(crate) fn index_of(connections: &[OpenConnection], number: u32) -> Option<usize>
    ensures value { result ≡ index_from 0 connections.now number }
    ensures within { IfSome result (λ i. i < length connections.now) }
{
    for (i, connection) in connections.iter().enumerate() {
        if connection.number == number {
            return Some(i);
        }
    }
    None
}

impl Places {
    /// Whether a connection has that number.
    pub fn has(&self, number: u32) -> bool
        ensures { result ≡ has (side_in self.now.connections.items number) }
    {
        index_of(&self.connections, number).is_some()
    }

    /// Whether a connection that is opened is hung up.
    pub fn refuses(&self, twamp: &Option<Config>, kind: ConnKind) -> bool
        ensures value { (f : Setting) → f.twamp ≡ twamp.now → result ≡ is_refused f (state_of self.now) kind }
        ensures room { result ≡ false → length self.now.connections.items < CONNECTION_LIMIT }
    {
        if self.connections.len() >= CONNECTION_LIMIT {
            return true;
        }
        match kind {
            ConnKind::Control => twamp.is_none(),
            ConnKind::Operator => false,
        }
    }

    pub fn add(&mut self, number: u32, side: Side)
        requires { length self.old.connections.items < CONNECTION_LIMIT }
        ensures { state_of self.new ≡ with_connection (state_of self.old) number side }
    {
        if self
            .connections
            .push(OpenConnection { number, side })
            .is_err()
        {
            unreachable!();
        }
    }

    pub fn begin(&mut self, now: u64)
        ensures { state_of self.new ≡ begun (state_of self.old) now }
    {
        if self.started.is_none() {
            self.started = Some(now);
        }
    }
}
