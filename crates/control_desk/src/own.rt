//! The sessions of a control connection.

ghost use Rattle.std.specs.Prelude.{◌≡◌, [], ◌∷◌, ◌++◌, ◌<◌, length, nat_le};

use refl_types::{Address, Endpoint, Key, Mode, Place};
use std::marker::Model;

/// Sessions that one connection may have reserved or started at once.
pub const SESSION_LIMIT: usize = 16;

/// A session of a control connection: reserved while the connection is idle, and started afterwards.
#[derive(Clone, Copy, Debug, PartialEq, Eq)]
pub struct OwnSession {
    pub place: Place,
    pub key: Key,
    /// How long it lives after a Stop-Sessions, in nanoseconds.
    pub timeout: u64,
}

/// Fills the room of a list that holds no session.
const NO_SESSION: OwnSession = OwnSession {
    place: Place {
        slot: 0,
        generation: 0,
    },
    key: Key {
        local: 0,
        peer: Endpoint {
            address: Address::V4([0; 4]),
            port: 0,
        },
        mode: Mode::Twamp,
        ssid: 0,
    },
    timeout: 0,
};

/// The sessions of a connection, in the order in which they were reserved. Contracts see them as a list.
#[derive(Drop)]
pub struct OwnSessions {
    list: [OwnSession; SESSION_LIMIT],
    len: usize,
}

impl Model for OwnSessions {
    ghost use Rattle.std.specs.Prelude.{◌≡◌, List, ◌≤◌, length, take};
    ghost use Rattle.control_desk.specs.declared.own.OwnSession.{OwnSession};

    ghost Value = { List OwnSession };

    ghost view = { λ b. take b.len b.list };

    ghost invariant = { λ b. (b.len ≤ 16) × (length b.list ≡ 16) };
}

impl OwnSessions {
    pub fn new() -> OwnSessions
        ensures { result ≡ [] }
    {
        OwnSessions {
            list: [NO_SESSION; SESSION_LIMIT],
            len: 0,
        }
    }

    pub fn is_full(&self) -> bool
        ensures { result ≡ nat_le 16 (length self.now) }
    {
        self.len >= SESSION_LIMIT
    }

    pub fn push(&mut self, session: OwnSession)
        requires { length self.old < SESSION_LIMIT }
        ensures { self.new ≡ self.old ++ session ∷ [] }
    {
        self.list[self.len] = session;
        self.len += 1;
    }

    pub fn clear(&mut self)
        ensures { self.new ≡ [] }
    {
        self.len = 0;
    }

    pub fn list(&self) -> &[OwnSession]
        ensures { result.now ≡ self.now }
    {
        &self.list[..self.len]
    }
}
