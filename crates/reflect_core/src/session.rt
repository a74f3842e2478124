//! A session, what a datagram brings, and what is drawn for its reply.

ghost use Rattle.std.specs.Prelude.{◌≡◌, IsSome};
ghost use Rattle.refl_types.specs.declared.types.Mode.TheVariants.{Auth};

use keyed_config::KeyedConfig;
use refl_types::{Extra, LocalAddr, Meta, Mode};

/// A session, as whoever keeps it lends it.
#[derive(Clone, Copy)]
pub struct Session<'a> {
    /// In which its datagrams are.
    pub mode: Mode,
    /// What it has agreed on besides.
    pub extra: Extra,
    /// Its configuration, with the HMAC key hashed.
    pub config: &'a KeyedConfig,
    /// In mode Auth it has an HMAC key.
    pub ghost keyed: { mode ≡ Auth → IsSome config.now.key },
}

/// A datagram as it arrived.
#[derive(Clone, Copy, Debug)]
pub struct Datagram<'a> {
    /// What is told of it.
    pub meta: &'a Meta,
    pub octets: &'a [u8],
    /// The reflector's own addresses, by their numbers. There are at most 16.
    pub locals: &'a [LocalAddr],
}

/// What is drawn for a reply.
#[derive(Clone, Copy, Debug, PartialEq, Eq)]
pub struct Draw {
    /// Its number: how many replies the session sent before, modulo 2^32.
    pub number: u32,
    /// The moment of its sending, in nanoseconds since the start of 1970.
    pub sending: u64,
}
