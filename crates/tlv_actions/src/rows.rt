//! Which TLVs are understood, and what is measured (RFC 8972, sections 4.1, 4.3, 4.5 and 4.8; RFC 9503, sections 3 and 4).

ghost use Rattle.std.specs.Prelude.{◌≡◌, true};
ghost use Rattle.refl_types.specs.declared.config.ConfigParts.{ConfigParts};
ghost use Rattle.tlv_actions.specs.Rows.{is_understood, has_valid_length, is_malformed, is_at, flags_at, measured};

use crate::facts::Plan;
use octet_format::put;
use refl_types::ConfigParts;
use tlv_chain::{
    DESTINATION_NODE_ADDRESS, DIRECT_MEASUREMENT, EXTRA_PADDING, HMAC, RETURN_PATH,
    TIMESTAMP_INFORMATION, UNRECOGNIZED,
};

/// Whether a type is understood under a configuration.
#[inline]
#[tactic(auto, unfolding(crate::specs::Rows::is_understood))]
pub fn is_understood(parts: &ConfigParts, kind: u8) -> bool
    ensures { result ≡ is_understood parts.now kind }
{
    match kind {
        EXTRA_PADDING => true,
        TIMESTAMP_INFORMATION => parts.tlvs / 8 % 2 == 1,
        DIRECT_MEASUREMENT => parts.tlvs / 32 % 2 == 1,
        HMAC => parts.key.is_some(),
        DESTINATION_NODE_ADDRESS => parts.tlvs / 512 % 2 == 1,
        RETURN_PATH => parts.tlvs / 1024 % 2 == 1,
        _ => false,
    }
}

/// Whether the value of a type that is understood has the right length.
#[inline]
#[tactic(auto, unfolding(crate::specs::Rows::has_valid_length))]
pub fn has_valid_length(kind: u8, len: u16) -> bool
    ensures { result ≡ has_valid_length kind len }
{
    match kind {
        TIMESTAMP_INFORMATION => len == 4,
        DIRECT_MEASUREMENT => len == 12,
        HMAC => len == 16,
        DESTINATION_NODE_ADDRESS => len == 4 || len == 16,
        _ => true,
    }
}

/// Whether a TLV of a type and a length is malformed: its type is understood, and its length is invalid for it. A
/// Destination Node Address that isn't the first one never is.
#[inline]
#[tactic(auto, unfolding(crate::specs::Rows::is_malformed))]
pub fn is_malformed(parts: &ConfigParts, first: bool, kind: u8, len: u16) -> bool
    ensures { result ≡ is_malformed parts.now first kind len }
{
    is_understood(parts, kind)
        && !has_valid_length(kind, len)
        && (first || kind != DESTINATION_NODE_ADDRESS)
}

/// Whether there is a place, and it is this one.
#[inline]
pub fn is_at(place: &Option<usize>, at: usize) -> bool
    ensures { result ≡ is_at place.now at }
{
    match place {
        None => false,
        Some(place) => *place == at,
    }
}

/// Whether the TLV at a place, whose type is understood, is malformed. The plan is asked for a Destination Node Address alone.
#[inline]
pub fn is_malformed_at(plan: &Plan, at: usize, kind: u8, len: u16) -> bool
    ensures { (c : ConfigParts) → is_understood c kind ≡ true → result ≡ is_malformed c (is_at plan.now.nine at) kind len }
{
    if has_valid_length(kind, len) {
        return false;
    }
    kind != DESTINATION_NODE_ADDRESS || is_at(&plan.nine, at)
}

/// The flags of the TLV at a place whose type is understood and that isn't malformed.
#[inline]
pub fn flags_at(plan: &Plan, at: usize, kind: u8) -> u8
    ensures { result ≡ flags_at plan.now at kind }
{
    let acted = match kind {
        DESTINATION_NODE_ADDRESS => is_at(&plan.own_at, at),
        RETURN_PATH => is_at(&plan.path_at, at),
        _ => true,
    };
    if acted { 0 } else { UNRECOGNIZED }
}

/// The value of a Direct Measurement TLV: the sender's count as received, then how many were received and how many
/// were sent before.
#[inline]
pub fn measured(n: u32, sent: &[u8; 4]) -> [u8; 12]
    ensures { result ≡ measured n sent.now }
{
    let mut value = [0; 12];
    put(&mut value, 0, sent);
    put(&mut value, 4, &n.wrapping_add(1).to_be_bytes());
    put(&mut value, 8, &n.to_be_bytes());
    value
}
