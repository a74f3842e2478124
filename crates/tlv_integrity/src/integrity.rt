//! The integrity of a tail. The rule is this project's reading of RFC 8972, section 4.8.

ghost use Rattle.std.specs.Prelude.{ℕ, ◌≡◌, true, ◌+◌, ◌≤◌, length, drop};
ghost use Rattle.tlv_integrity.specs.Integrity.{integrity, integrity_of, fits, IsPlaced};
ghost use Rattle.tlv_integrity.specs.declared.integrity.Integrity.TheVariants.{Passed};
ghost use Rattle.tlv_integrity.specs.Heads.{heads, rest_head};
ghost use Rattle.tlv_integrity.specs.InnerSteps.{placed_at, without};
ghost use Rattle.tlv_chain.specs.Split.{split};

use crate::heads::{First, all_padding, first_hmac, is_lone_padding, rest_head};
use hmac_sha256::{KeyedHash, MAC_LEN};
use keyed_config::KeyedConfig;
use octet_format::field16;
use refl_types::{Config, Mode};
use tlv_chain::{HEADER_LEN, HMAC, Span};

/// What is known of a tail.
#[derive(Clone, Copy, Debug, PartialEq, Eq)]
pub enum Integrity {
    /// No HMAC TLV has to be there, and none is.
    Absent,
    /// The HMAC TLV at this place of the tail fits.
    Passed(usize),
    /// An HMAC TLV is missing, stands where it may not, or doesn't fit. The sender or the network is to blame.
    Failed,
}

/// Whether the HMAC TLV at a span covers the tail and fits.
fn fits(key: &KeyedHash, sequence: &[u8; 4], tail: &[u8], span: &Span) -> bool
    requires { span.now.at + 4 + span.now.len ≤ length tail.now }
    ensures len { result ≡ true → span.now.len ≡ 16 }
    ensures value { result ≡ fits key.now sequence.now tail.now (placed_at tail.now span.now) (split (drop (span.now.at + 4 + span.now.len) tail.now)).rest }
{
    if usize::from(span.len) != MAC_LEN {
        return false;
    }
    let (_, after) = tail.split_at(span.at + HEADER_LEN + usize::from(span.len));
    if !all_padding(after) {
        return false;
    }
    let (before, _) = tail.split_at(span.at);
    field16(tail, span.at + HEADER_LEN) == key.mac128(sequence, before)
}

/// The integrity of a tail with no whole TLV of type 8, whose rest begins at a place.
fn without(mode: Mode, tail: &[u8], at: usize) -> Integrity
    requires { at ≤ length tail.now }
    ensures { result ≡ without mode (rest_head (drop at tail.now)) (heads (split tail.now)) }
{
    let (_, rest) = tail.split_at(at);
    if rest_head(rest) == Some(HMAC) {
        return Integrity::Failed;
    }
    match mode {
        Mode::Auth if !is_lone_padding(tail) => Integrity::Failed,
        _ => Integrity::Absent,
    }
}

/// The integrity of a tail under an HMAC key.
#[inline(never)]
fn check_under(mode: Mode, key: &KeyedHash, sequence: &[u8; 4], tail: &[u8]) -> Integrity
    ensures value { result ≡ integrity_of mode key.now sequence.now tail.now (split tail.now) }
    ensures place { (at : ℕ) → result ≡ Passed at → at + 20 ≤ length tail.now }
{
    match first_hmac(tail) {
        First::Hmac(span) => {
            if fits(key, sequence, tail, &span) {
                Integrity::Passed(span.at)
            } else {
                Integrity::Failed
            }
        }
        First::Rest(at) => without(mode, tail, at),
    }
}

/// The integrity of a tail, under the configuration's HMAC key and the request's Sequence Number.
pub fn check(mode: Mode, config: &Config, sequence: &[u8; 4], tail: &[u8]) -> Integrity
    ensures value { result ≡ integrity mode config.now sequence.now tail.now }
    ensures place { IsPlaced result config.now (length tail.now) }
{
    check_keyed(mode, &KeyedConfig::of(config), sequence, tail)
}

/// The same, where the blocks of the key are hashed.
#[inline(always)]
pub fn check_keyed(mode: Mode, config: &KeyedConfig, sequence: &[u8; 4], tail: &[u8]) -> Integrity
    ensures value { result ≡ integrity mode config.now sequence.now tail.now }
    ensures place { IsPlaced result config.now (length tail.now) }
{
    match config.hmac_key() {
        None => Integrity::Absent,
        Some(key) => check_under(mode, key, sequence, tail),
    }
}
