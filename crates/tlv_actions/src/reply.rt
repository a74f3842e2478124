//! The reply of one TLV.

ghost use Rattle.std.specs.Prelude.{◌≡◌, ◌+◌, ◌≤◌, length};
ghost use Rattle.tlv_chain.specs.Walking.{tlv_at};
ghost use Rattle.tlv_actions.specs.Rows.{WritesTlv, HoldsTlv, facts_of, tlv_of, reply_tlv, acted_on};

use crate::facts::ReplyFacts;
use crate::rows::{flags_at, is_malformed_at, is_understood, measured};
use octet_format::{field4, put};
use refl_types::{Config, ConfigParts};
use tlv_chain::{
    DIRECT_MEASUREMENT, EXTRA_PADDING, HEADER_LEN, MALFORMED, Span, TIMESTAMP_INFORMATION,
    UNRECOGNIZED,
};

/// Whether the TLVs after this one are processed.
#[derive(Clone, Copy, Debug, PartialEq, Eq)]
pub enum Acted {
    Done,
    /// Its type is supported, and its length is invalid for it. The sender is to blame.
    Malformed,
}

/// Writes the TLV at a span with other flags and another value of the same length.
#[inline]
fn write(span: &Span, flags: u8, value: &[u8], out: &mut [u8])
    requires len { length value.now ≡ span.now.len }
    requires room { span.now.at + 4 + span.now.len ≤ length out.old }
    ensures { WritesTlv out.old span.now (record { flags = flags; kind = span.now.kind; value = value.now }) out.new }
{
    let len = span.len.to_be_bytes();
    put(out, span.at, &[flags, span.kind, len[0], len[1]]);
    put(out, span.at + HEADER_LEN, value);
}

/// Writes other flags of the TLV of a value that stands at a span.
#[inline(always)]
fn write_flags(span: &Span, flags: u8, value: &[u8], out: &mut [u8])
    requires len { length value.now ≡ span.now.len }
    requires room { span.now.at + 4 + span.now.len ≤ length out.old }
    requires holds { HoldsTlv out.old span.now (tlv_of span.now value.now) }
    ensures { WritesTlv out.old span.now (record { flags = flags; kind = span.now.kind; value = value.now }) out.new }
{
    put(out, span.at, &[flags]);
}

/// Writes what the reply has for the TLV of a value that stands at a span.
#[inline]
fn answer(
    parts: &ConfigParts,
    facts: &ReplyFacts,
    span: &Span,
    value: &[u8],
    out: &mut [u8],
) -> Acted
    requires len { length value.now ≡ span.now.len }
    requires room { span.now.at + 4 + span.now.len ≤ length out.old }
    requires holds { HoldsTlv out.old span.now (tlv_of span.now value.now) }
    ensures octets { WritesTlv out.old span.now (reply_tlv parts.now (facts_of facts.now) span.now.at (tlv_of span.now value.now)) out.new }
    ensures acted { result ≡ acted_on parts.now facts.now.plan.now span.now.at (tlv_of span.now value.now) }
{
    // The type that most TLVs have: it is understood, and has any length.
    if span.kind == EXTRA_PADDING {
        write_flags(span, 0, value, out);
        return Acted::Done;
    }
    if !is_understood(parts, span.kind) {
        write_flags(span, UNRECOGNIZED, value, out);
        return Acted::Done;
    }
    if is_malformed_at(facts.plan, span.at, span.kind, span.len) {
        write_flags(span, MALFORMED, value, out);
        return Acted::Malformed;
    }
    match span.kind {
        TIMESTAMP_INFORMATION => write(span, 0, &parts.info, out),
        DIRECT_MEASUREMENT => write(span, 0, &measured(facts.n, &field4(value, 0)), out),
        kind => write_flags(span, flags_at(facts.plan, span.at, kind), value, out),
    }
    Acted::Done
}

/// Writes the TLV of a tail at a span with other flags, and no other octet.
#[inline]
pub fn copy_tlv(tail: &[u8], span: &Span, flags: u8, out: &mut [u8])
    requires whole { span.now.at + 4 + span.now.len ≤ length tail.now }
    requires room { length out.old ≡ length tail.now }
    ensures { WritesTlv out.old span.now (record (tlv_at tail.now span.now) { flags = flags }) out.new }
{
    let (_, from_value) = tail.split_at(span.at + HEADER_LEN);
    let (value, _) = from_value.split_at(usize::from(span.len));
    write(span, flags, value, out);
}

/// Writes what the reply has for the TLV of a tail that stands at a span, and no other octet. Of an HMAC TLV it writes
/// flags 0 and all else as received. `facts.plan` is what `plan` gives for this configuration and this tail.
#[inline]
pub fn act(config: &Config, facts: &ReplyFacts, tail: &[u8], span: &Span, out: &mut [u8]) -> Acted
    requires whole { span.now.at + 4 + span.now.len ≤ length tail.now }
    requires room { length out.old ≡ length tail.now }
    requires holds { HoldsTlv out.old span.now (tlv_at tail.now span.now) }
    ensures octets { WritesTlv out.old span.now (reply_tlv config.now (facts_of facts.now) span.now.at (tlv_at tail.now span.now)) out.new }
    ensures acted { result ≡ acted_on config.now facts.now.plan.now span.now.at (tlv_at tail.now span.now) }
{
    let (_, from_value) = tail.split_at(span.at + HEADER_LEN);
    let (value, _) = from_value.split_at(usize::from(span.len));
    answer(config.as_parts(), facts, span, value, out)
}
