//! The types of the TLVs of a tail, and of a header that names too long a value.

ghost use Rattle.std.specs.Prelude.{◌≡◌, option_to_list};
ghost use Rattle.tlv_chain.specs.Split.{split};
ghost use Rattle.tlv_integrity.specs.Heads.{all_padding, heads, is_lone_padding, rest_head};
ghost use Rattle.tlv_integrity.specs.InnerSteps.{IsFirst};

use tlv_chain::{EXTRA_PADDING, HEADER_LEN, HMAC, Span, Walk};

/// What a walk to the first HMAC TLV came to.
#[derive(Clone, Copy, Debug)]
pub enum First {
    /// The first whole TLV of type 8.
    Hmac(Span),
    /// There is none. The rest of the tail begins at this place.
    Rest(usize),
}

/// Walks a tail up to its first HMAC TLV.
pub fn first_hmac(tail: &[u8]) -> First
    ensures { IsFirst tail.now result }
{
    let mut walk = Walk::new(tail);
    while let Some(span) = walk.next() {
        if span.kind == HMAC {
            return First::Hmac(span);
        }
    }
    First::Rest(walk.rest())
}

/// The type octet of a rest of four octets or more.
#[inline]
pub fn rest_head(rest: &[u8]) -> Option<u8>
    ensures { result ≡ rest_head rest.now }
{
    if rest.len() < HEADER_LEN {
        return None;
    }
    Some(rest[1])
}

/// Whether a rest has no head that isn't Extra Padding.
#[inline]
fn is_padding_rest(rest: &[u8]) -> bool
    ensures { result ≡ all_padding (option_to_list (rest_head rest.now)) }
{
    match rest_head(rest) {
        None => true,
        Some(kind) => kind == EXTRA_PADDING,
    }
}

/// Whether each head is Extra Padding.
pub fn all_padding(octets: &[u8]) -> bool
    ensures { result ≡ all_padding (heads (split octets.now)) }
{
    let mut walk = Walk::new(octets);
    while let Some(span) = walk.next() {
        if span.kind != EXTRA_PADDING {
            return false;
        }
    }
    let (_, rest) = octets.split_at(walk.rest());
    is_padding_rest(rest)
}

/// Whether there is no head, or Extra Padding alone.
pub fn is_lone_padding(octets: &[u8]) -> bool
    ensures { result ≡ is_lone_padding (heads (split octets.now)) }
{
    let mut walk = Walk::new(octets);
    let Some(first) = walk.next() else {
        return is_padding_rest(octets);
    };
    if first.kind != EXTRA_PADDING {
        return false;
    }
    let None = walk.next() else {
        return false;
    };
    octets.len() - walk.rest() < HEADER_LEN
}
