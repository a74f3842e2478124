//! A session as it stands.

ghost use Rattle.std.specs.Prelude.{◌≡◌, ◌==◌, ◌&&◌, ◌%◌, ◌^◌, ◌≤◌, not, length, IsTrue, IsFalse, OnOk, OnErr};
ghost use Rattle.refl_types.specs.HmacKey.{HasHmacKey};
ghost use Rattle.refl_types.specs.Limits.{datagram_limit};
ghost use Rattle.refl_types.specs.Same.{same_endpoint, same_mode, same_key};
ghost use Rattle.reflect_core.specs.declared.judging.Judged.TheVariants.{Reflect, Silent};
ghost use Rattle.refl_types.specs.declared.outcome.Silent as silent;
ghost use Rattle.reflect_core.specs.Judgement.{judgement};
ghost use Rattle.reflect_core.specs.Arrived.{arrived};
ghost use Rattle.reflect_core.specs.Reflection.{reflection};
ghost use Rattle.reply_audit.specs.Written.{IsWritten};
ghost use Rattle.session_key.specs.Matching.{matches};
ghost use Rattle.replay_table.specs.Table.{raised, configured};

use keyed_config::KeyedConfig;
use refl_types::{Config, Endpoint, Extra, Key, Memory, Mode};
use reflect_core::{Datagram, Draw, Judged, Session};
use session_key::Query;
use std::marker::Model;

/// A reply that was written: from where and to whom it goes, and its length.
#[derive(Clone, Copy, Debug, PartialEq, Eq)]
pub struct Written {
    pub from: u16,
    pub to: Endpoint,
    pub len: usize,
}

/// A session, with its HMAC key hashed, and how many numbers it has drawn.
#[derive(Drop)]
pub struct Kept {
    key: Key,
    extra: Extra,
    config: KeyedConfig,
    count: u64,
}

impl Model for Kept {
    ghost use Rattle.refl_types.specs.HmacKey.{HasHmacKey};
    ghost use Rattle.replay_table.specs.Table.{Entry};

    ghost Value = { Entry };

    ghost view = { λ k. record { key = k.key; extra = k.extra; config = k.config; count = k.count } };

    ghost invariant = { λ k. HasHmacKey k.key.mode k.config };
}

/// Whether two keys are one.
#[tactic(auto, unfolding(refl_types::specs::Same::same_key))]
pub fn is_same_key(a: &Key, b: &Key) -> bool
    ensures { result ≡ same_key a.now b.now }
{
    a == b
}

/// Whether two endpoints are one.
pub fn is_same_endpoint(a: &Endpoint, b: &Endpoint) -> bool
    ensures { result ≡ same_endpoint a.now b.now }
{
    a == b
}

fn is_same_mode(a: &Mode, b: &Mode) -> bool
    ensures { result ≡ same_mode a.now b.now }
{
    a == b
}

impl Kept {
    /// A session that has drawn no number.
    pub fn new(key: &Key, extra: &Extra, config: &Config) -> Kept
        requires { HasHmacKey key.now.mode config.now }
        ensures { result ≡ record { key = key.now; extra = extra.now; config = config.now; count = 0 } }
    {
        Kept {
            key: *key,
            extra: *extra,
            config: KeyedConfig::of(config),
            count: 0,
        }
    }

    /// Its key.
    pub fn key(&self) -> &Key
        ensures { result.now ≡ self.now.key }
    {
        &self.key
    }

    /// Whether a query matches it.
    pub fn is_for(&self, query: &Query) -> bool
        ensures { result ≡ matches query.now self.now.key }
    {
        query.matches(&self.key)
    }

    /// Whether it has a key.
    pub fn has_key(&self, key: &Key) -> bool
        ensures { result ≡ same_key self.now.key key.now }
    {
        is_same_key(&self.key, key)
    }

    /// Whether it has the ends of a key in another mode.
    pub fn clashes_with(&self, key: &Key) -> bool
        ensures { result ≡ (self.now.key.local == key.now.local && same_endpoint self.now.key.peer key.now.peer && not (same_mode self.now.key.mode key.now.mode)) }
    {
        self.key.local == key.local
            && is_same_endpoint(&self.key.peer, &key.peer)
            && !is_same_mode(&self.key.mode, &key.mode)
    }

    /// How a datagram is judged under its configuration.
    pub fn judge(&self, octets: &[u8]) -> Judged
        ensures { result ≡ judgement self.now.key.mode self.now.config octets.now }
    {
        let session = Session {
            mode: self.key.mode,
            extra: self.extra,
            config: &self.config,
        };
        session.judge(octets)
    }

    /// Whether a datagram is reflected under its configuration.
    pub fn reflects(&self, octets: &[u8]) -> bool
        ensures yes { IsTrue result → judgement self.now.key.mode self.now.config octets.now ≡ Reflect }
        ensures no { IsFalse result → (why : silent.Silent) × (judgement self.now.key.mode self.now.config octets.now ≡ Silent why) }
    {
        match self.judge(octets) {
            Judged::Reflect => true,
            Judged::Silent(_) => false,
        }
    }

    /// The number of its next draw, modulo 2^32.
    pub fn number(&self) -> u32
        ensures { result ≡ self.now.count % 2 ^ 32 }
    {
        (self.count % 4_294_967_296) as u32
    }

    /// Writes the reply to a datagram under its configuration and its next number, which leaves at a moment.
    pub fn reflect(&self, datagram: &Datagram, t3: u64, out: &mut [u8]) -> Written
        requires judged { judgement self.now.key.mode self.now.config datagram.now.octets.now ≡ Reflect }
        requires limit { length datagram.now.octets.now ≤ datagram_limit }
        requires locals { length datagram.now.locals.now ≤ 16 }
        requires room { 65536 ≤ length out.old }
        ensures { IsWritten (reflection self.now.key.mode self.now.extra self.now.config (record { number = self.now.count % 2 ^ 32; sending = t3 }) (arrived datagram.now)) result out.old out.new }
    {
        let session = Session {
            mode: self.key.mode,
            extra: self.extra,
            config: &self.config,
        };
        let draw = Draw {
            number: self.number(),
            sending: t3,
        };
        let reply = session.reflect(datagram, &draw, out);
        match reply.elsewhere {
            Some(ends) => Written {
                from: ends.from,
                to: ends.to,
                len: reply.len,
            },
            None => Written {
                from: datagram.meta.local,
                to: datagram.meta.peer,
                len: reply.len,
            },
        }
    }

    /// Draws one number more. A count that has no room is want of memory.
    pub fn raise(&mut self) -> Result<(), Memory>
        ensures ok { OnOk result (self.new ≡ raised self.old) }
        ensures err { OnErr result (self.new ≡ self.old) }
    {
        if self.count == u64::MAX {
            return Err(Memory);
        }
        self.count += 1;
        Ok(())
    }

    /// Gives it another configuration.
    pub fn configure(&mut self, config: &Config)
        requires { HasHmacKey self.old.key.mode config.now }
        ensures { self.new ≡ configured config.now self.old }
    {
        self.config = KeyedConfig::of(config);
    }
}
