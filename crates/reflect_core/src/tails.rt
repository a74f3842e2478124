//! The TLVs of a reply (RFC 8972, section 4), written in one pass.

ghost use Rattle.std.specs.Prelude.{◌≡◌, ◌+◌, ◌≤◌, ◌++◌, length, take, slice_index_or};
ghost use Rattle.octet_format.specs.Octets.{field};
ghost use Rattle.tlv_chain.specs.Split.{split};
ghost use Rattle.tlv_integrity.specs.Integrity.{integrity};
ghost use Rattle.reflect_core.specs.Tail.{failed_reply, processed_reply, WritesTail, tail_reply, with_flags, rest_flags};
ghost use Rattle.reflect_core.specs.Ends.{is_intact, has_intact_tail};

use keyed_config::KeyedConfig;
use octet_format::put;
use refl_types::Mode;
use tlv_actions::{Acted, Plan, ReplyFacts, act, copy_tlv, is_understood};
use tlv_chain::{HEADER_LEN, INTEGRITY_FAILED, MALFORMED, UNRECOGNIZED, Walk};
use tlv_integrity::{Integrity, check_keyed, seal_keyed};

/// The octet at a place, or 0 past the end.
#[inline]
fn octet_or_zero(octets: &[u8], at: usize) -> u8
    ensures { result ≡ slice_index_or octets.now at 0 }
{
    if at < octets.len() { octets[at] } else { 0 }
}

/// Writes all octets from a place to the end.
#[inline]
fn put_last(rest: &[u8], at: usize, out: &mut [u8])
    requires { at + length rest.now ≡ length out.old }
    ensures { out.new ≡ take at out.old ++ rest.now }
{
    put(out, at, rest);
}

/// Writes the rest of a tail from a place to its end. Where it has a header, its flags are others.
#[inline]
fn write_rest(rest: &[u8], flags: u8, at: usize, out: &mut [u8])
    requires { at + length rest.now ≡ length out.old }
    ensures { out.new ≡ take at out.old ++ with_flags flags rest.now }
{
    put_last(rest, at, out);
    if rest.len() >= HEADER_LEN {
        out[at] = flags;
    }
}

/// Writes a tail whose integrity failed: as received, with the I flag in each TLV.
#[inline(never)]
fn flag_all(tail: &[u8], out: &mut [u8])
    requires { length out.old ≡ length tail.now }
    ensures { out.new ≡ failed_reply (split tail.now) }
{
    let mut walk = Walk::new(tail);
    while let Some(span) = walk.next() {
        copy_tlv(tail, &span, span.flags | INTEGRITY_FAILED, out);
    }
    let (_, rest) = tail.split_at(walk.rest());
    let flags = octet_or_zero(rest, 0) | INTEGRITY_FAILED;
    write_rest(rest, flags, walk.rest(), out);
}

/// The flags of a rest that has a header.
#[inline]
fn rest_flags(config: &KeyedConfig, rest: &[u8]) -> u8
    ensures { result ≡ rest_flags config.now rest.now }
{
    if is_understood(config.as_parts(), octet_or_zero(rest, 1)) {
        MALFORMED
    } else {
        MALFORMED | UNRECOGNIZED
    }
}

/// Writes what the reply has for each TLV, up to a malformed one.
#[inline(never)]
fn process(config: &KeyedConfig, number: u32, plan: &Plan, tail: &[u8], out: &mut [u8])
    requires { length out.old ≡ length tail.now }
    ensures { out.new ≡ processed_reply config.now (record { n = number; plan = plan.now }) (split tail.now) }
{
    let facts = ReplyFacts { n: number, plan };
    put_last(tail, 0, out);
    let mut walk = Walk::new(tail);
    while let Some(span) = walk.next() {
        if let Acted::Malformed = act(config.config(), &facts, tail, &span, out) {
            return;
        }
    }
    let (_, rest) = tail.split_at(walk.rest());
    write_rest(rest, rest_flags(config, rest), walk.rest(), out);
}

/// Writes the tail of a reply, under the Sequence Numbers of the request and of the reply, and says whether the
/// integrity of the request's tail hasn't failed.
#[inline(never)]
fn write_checked(
    mode: Mode,
    config: &KeyedConfig,
    number: u32,
    plan: &Plan,
    asked: &[u8; 4],
    answered: &[u8; 4],
    tail: &[u8],
    out: &mut [u8],
) -> bool
    requires { length out.old ≡ length tail.now }
    ensures octets { out.new ≡ tail_reply mode config.now (record { n = number; plan = plan.now }) asked.now answered.now tail.now }
    ensures intact { result ≡ is_intact (integrity mode config.now asked.now tail.now) }
{
    match check_keyed(mode, config, asked, tail) {
        Integrity::Failed => {
            flag_all(tail, out);
            false
        }
        Integrity::Absent => {
            process(config, number, plan, tail, out);
            true
        }
        Integrity::Passed(at) => {
            process(config, number, plan, tail, out);
            seal_keyed(config, answered, out, at);
            true
        }
    }
}

/// The same, where most configurations have no HMAC key, so that there is nothing to check or to seal.
#[inline(always)]
fn write_tail(
    mode: Mode,
    config: &KeyedConfig,
    number: u32,
    plan: &Plan,
    asked: &[u8; 4],
    answered: &[u8; 4],
    tail: &[u8],
    out: &mut [u8],
) -> bool
    requires { length out.old ≡ length tail.now }
    ensures octets { out.new ≡ tail_reply mode config.now (record { n = number; plan = plan.now }) asked.now answered.now tail.now }
    ensures intact { result ≡ is_intact (integrity mode config.now asked.now tail.now) }
{
    match config.hmac_key() {
        None => {
            process(config, number, plan, tail, out);
            true
        }
        Some(_) => write_checked(mode, config, number, plan, asked, answered, tail, out),
    }
}

/// The octets of the Sequence Number of a request, where they stand.
#[inline(always)]
fn asked_octets(input: &[u8]) -> &[u8; 4]
    requires { 4 ≤ length input.now }
    ensures { result.now ≡ field 0 4 input.now }
{
    input.first_chunk().unwrap()
}

/// Writes the tail of a reply after its base packet, which has as many octets as the request's, and says whether the
/// integrity of the request's tail hasn't failed.
#[inline(always)]
fn write_tail_at(
    mode: Mode,
    config: &KeyedConfig,
    number: u32,
    plan: &Plan,
    sequence: u32,
    at: usize,
    input: &[u8],
    out: &mut [u8],
) -> bool
    requires base { 4 ≤ at }
    requires tail { at ≤ length input.now }
    requires room { length input.now ≤ length out.old }
    ensures octets { WritesTail mode config.now (record { n = number; plan = plan.now }) sequence at input.now out.old out.new }
    ensures intact { result ≡ has_intact_tail at mode config.now input.now }
{
    let (_, tail) = input.split_at(at);
    let asked = asked_octets(input);
    let answered = sequence.to_be_bytes();
    write_tail(
        mode,
        config,
        number,
        plan,
        asked,
        &answered,
        tail,
        &mut out[at..input.len()],
    )
}

/// Writes the tail of a reply after its base packet, if there is one, and says whether the integrity of the request's
/// tail hasn't failed. Most datagrams have no tail.
#[inline(always)]
pub fn write_tail_after(
    mode: Mode,
    config: &KeyedConfig,
    number: u32,
    plan: &Plan,
    sequence: u32,
    at: usize,
    input: &[u8],
    out: &mut [u8],
) -> bool
    requires base { 4 ≤ at }
    requires tail { at ≤ length input.now }
    requires room { length input.now ≤ length out.old }
    ensures octets { WritesTail mode config.now (record { n = number; plan = plan.now }) sequence at input.now out.old out.new }
    ensures intact { result ≡ has_intact_tail at mode config.now input.now }
{
    if input.len() > at {
        return write_tail_at(mode, config, number, plan, sequence, at, input, out);
    }
    true
}

/// Whether the integrity of the tail behind a base packet of as many octets hasn't failed.
pub fn has_intact_tail(mode: Mode, config: &KeyedConfig, octets: &[u8], at: usize) -> bool
    requires base { 4 ≤ at }
    requires tail { at ≤ length octets.now }
    ensures { result ≡ has_intact_tail at mode config.now octets.now }
{
    let (_, tail) = octets.split_at(at);
    !matches!(
        check_keyed(mode, config, asked_octets(octets), tail),
        Integrity::Failed
    )
}
