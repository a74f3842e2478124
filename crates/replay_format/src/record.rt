//! A record is read from the front of a stream.

ghost use Rattle.std.specs.Prelude.{◌≡◌, ◌++◌, List, ℕ, length, IfOk};
ghost use Rattle.octet_format.specs.Reading.{Gives};
ghost use Rattle.refl_types.specs.Configs.{IsConfig};
ghost use Rattle.replay_format.specs.Records.{Item, Fits, spelling, datagram_of};
ghost use Rattle.replay_format.specs.InnerReading.{opening_at, setting_at, closing_at, datagram_at, item_at};
ghost use Rattle.replay_format.specs.View.{item_of, IsParsed, IsMeasured, IsRecord};
ghost use Rattle.replay_format.specs.declared.record.Parsed as views;

use crate::fields::{body_len_at, ttl_at};
use crate::layout::{
    CLOSE_LEN, CLOSE_TAG, DATAGRAM_FIELDS, DATAGRAM_TAG, LOCALS_TAG, OPEN_LEN, OPEN_TAG, SET_LEN,
    SET_TAG,
};
use crate::locals::locals_at;
use crate::whole::read_datagram;
use octet_format::{Unread, octet_in, octets_at, u16_at, u64_at, zeros_at};
use refl_types::{Config, ConfigParts, Extra, Key, LocalAddr, Meta};
use session_octets::{config_at, endpoint_at, extra_at, key_at};

/// A record of a stream.
#[derive(Clone, Copy, Debug)]
pub enum Record<'a> {
    /// A session is opened.
    Open {
        key: Key,
        extra: Extra,
        config: Config,
    },
    /// A session gets another configuration.
    Set {
        key: Key,
        config: Config,
    },
    /// A session is closed.
    Close {
        key: Key,
    },
    /// A datagram arrives. Its reply leaves at `t3`, in nanoseconds since the start of 1970.
    Datagram {
        meta: Meta,
        t3: u64,
        octets: &'a [u8],
    },
    /// The reflector's own addresses from now on: as many places as the count says, and 0.0.0.0 port 0 in those behind.
    Locals {
        count: u8,
        list: [LocalAddr; 16],
    },
}

#[tactic(auto, unfolding(crate::specs::InnerReading::opening_at))]
fn opening_at(octets: &[u8]) -> Result<(Key, Extra, ConfigParts, &[u8]), Unread>
    ensures sound { IfOk result (λ x. IsConfig x.2) }
    ensures value { Gives (λ x. (record { key = x.0; extra = x.1; config = x.2 }, x.3.now)) result (opening_at octets.now) }
{
    let rest = zeros_at(3, octets)?;
    let (_, rest) = octet_in(OPEN_LEN, OPEN_LEN, rest)?;
    let (key, rest) = key_at(rest)?;
    let (extra, rest) = extra_at(key.mode, rest)?;
    let (config, rest) = config_at(rest)?;
    Ok((key, extra, config, rest))
}

#[tactic(auto, unfolding(crate::specs::InnerReading::setting_at))]
fn setting_at(octets: &[u8]) -> Result<(Key, ConfigParts, &[u8]), Unread>
    ensures sound { IfOk result (λ x. IsConfig x.1) }
    ensures value { Gives (λ x. (record { key = x.0; config = x.1 }, x.2.now)) result (setting_at octets.now) }
{
    let rest = zeros_at(3, octets)?;
    let (_, rest) = octet_in(SET_LEN, SET_LEN, rest)?;
    let (key, rest) = key_at(rest)?;
    let (config, rest) = config_at(rest)?;
    Ok((key, config, rest))
}

#[tactic(auto, unfolding(crate::specs::InnerReading::closing_at))]
fn closing_at(octets: &[u8]) -> Result<(Key, &[u8]), Unread>
    ensures { Gives (λ x. (x.0, x.1.now)) result (closing_at octets.now) }
{
    let rest = zeros_at(3, octets)?;
    let (_, rest) = octet_in(CLOSE_LEN, CLOSE_LEN, rest)?;
    let (key, rest) = key_at(rest)?;
    Ok((key, rest))
}

#[tactic(auto, unfolding(crate::specs::InnerReading::datagram_at))]
fn datagram_at(octets: &[u8]) -> Result<(Meta, u64, &[u8], &[u8]), Unread>
    ensures value { Gives (λ x. (datagram_of x.0 x.1 x.2.now, x.3.now)) result (datagram_at octets.now) }
    ensures measured { IfOk result (λ x. x.0.len ≡ length x.2.now) }
{
    let (len, rest) = body_len_at(octets)?;
    let (local, rest) = u16_at(rest)?;
    let (peer, rest) = endpoint_at(rest)?;
    let (ttl, rest) = ttl_at(rest)?;
    let (arrival, rest) = u64_at(rest)?;
    let (t3, rest) = u64_at(rest)?;
    let len = (len as usize).saturating_sub(DATAGRAM_FIELDS);
    let (text, rest) = octets_at(len, rest)?;
    Ok((
        Meta {
            local,
            peer,
            len,
            ttl,
            arrival,
        },
        t3,
        text,
        rest,
    ))
}

/// The configuration of parts that make one.
fn made(parts: ConfigParts) -> Config
    requires { IsConfig parts }
    ensures { result ≡ parts }
{
    match Config::make(parts) {
        Ok(config) => config,
        Err(_) => unreachable!(),
    }
}

#[tactic(auto, unfolding(crate::specs::InnerReading::item_at, crate::specs::InnerReading::body_at))]
fn record_at(octets: &[u8]) -> Result<(Record, &[u8]), Unread>
    ensures value { Gives (λ x. (item_of x.0, x.1.now)) result (item_at octets.now) }
    ensures measured { IfOk result (λ x. IsMeasured x.0) }
{
    match octets {
        [] => Err(Unread::More),
        [OPEN_TAG, rest @ ..] => {
            let (key, extra, parts, rest) = opening_at(rest)?;
            let config = made(parts);
            Ok((Record::Open { key, extra, config }, rest))
        }
        [SET_TAG, rest @ ..] => {
            let (key, parts, rest) = setting_at(rest)?;
            let config = made(parts);
            Ok((Record::Set { key, config }, rest))
        }
        [CLOSE_TAG, rest @ ..] => {
            let (key, rest) = closing_at(rest)?;
            Ok((Record::Close { key }, rest))
        }
        [LOCALS_TAG, rest @ ..] => {
            let (count, list, rest) = locals_at(rest)?;
            Ok((Record::Locals { count, list }, rest))
        }
        [DATAGRAM_TAG, rest @ ..] => {
            let (meta, t3, octets, rest) = datagram_at(rest)?;
            Ok((Record::Datagram { meta, t3, octets }, rest))
        }
        [_, ..] => Err(Unread::Bad),
    }
}

/// What stands at the front of octets.
#[derive(Clone, Copy, Debug)]
pub enum Parsed<'a> {
    /// A record, and how many octets it has.
    Record(Record<'a>, usize),
    /// The octets are the front of a record, and lack its end.
    More,
    /// No record begins with them, whatever follows.
    Bad,
}

/// Reads the record at the front.
pub fn read_record(octets: &[u8]) -> Parsed
    ensures { IsParsed result octets.now }
{
    // Most records are whole datagrams.
    if let Some((meta, t3, octets, len)) = read_datagram(octets) {
        return Parsed::Record(Record::Datagram { meta, t3, octets }, len);
    }
    match record_at(octets) {
        Ok((record, rest)) => Parsed::Record(record, octets.len() - rest.len()),
        Err(Unread::More) => Parsed::More,
        Err(Unread::Bad) => Parsed::Bad,
    }
}

/// A law: no record begins another, so a stream has one reading.
pub fn one_record()
    ensures { (a b : Item) (x y : List ℕ) → Fits a → Fits b → spelling a ++ x ≡ spelling b ++ y → (a ≡ b) × (x ≡ y) }
{}

/// A law: a record that was written is read again, whatever follows it.
pub fn read_again()
    ensures { (p : views.Parsed) (item : Item) (rest : List ℕ) → Fits item → IsParsed p (spelling item ++ rest) → IsRecord p item }
{}
