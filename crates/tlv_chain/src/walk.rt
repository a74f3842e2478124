//! A walk over the TLVs of a tail (RFC 8972, section 4).

ghost use Rattle.std.specs.Prelude.{◌≡◌};
ghost use Rattle.tlv_chain.specs.Split.{IsWholeLength};

use crate::span::{HEADER_LEN, Span};
use octet_format::field2;
use std::marker::Model;

/// A walk from the front of a tail, TLV by TLV. Contracts see it as the tail and the place that it has come to.
#[derive(Drop)]
pub struct Walk<'a> {
    tail: &'a [u8],
    at: usize,
}

impl<'a> Model for Walk<'a> {
    ghost use Rattle.tlv_chain.specs.Walking.{Walking};
    ghost use Rattle.std.specs.Prelude.{◌≤◌, length};

    ghost Value = { Walking };

    ghost view = { λ w. record { tail = w.tail.now; at = w.at } };

    ghost invariant = { λ w. w.at ≤ length w.tail.now };
}

/// The length of the value of the TLV at the front, where a whole TLV stands there.
#[inline]
fn whole_len(octets: &[u8]) -> Option<u16>
    ensures { IsWholeLength octets.now result }
{
    if octets.len() < HEADER_LEN {
        return None;
    }
    let len = u16::from_be_bytes(field2(octets, 2));
    if octets.len() - HEADER_LEN < usize::from(len) {
        return None;
    }
    Some(len)
}

impl Walk<'_> {
    ghost use Rattle.tlv_chain.specs.Walking.{IsStep};
    ghost use Rattle.std.specs.Prelude.{◌≤◌, length};

    /// Begins at the front of a tail.
    #[inline]
    pub fn new(tail: &[u8]) -> Walk<'_>
        ensures { result ≡ record { tail = tail.now; at = 0 } }
    {
        Walk { tail, at: 0 }
    }

    /// The next whole TLV. There is none where what is left has fewer than four octets, or names a length that passes
    /// its end; from then on it stays so.
    #[inline]
    pub fn next(&mut self) -> Option<Span>
        ensures { IsStep self.old result self.new }
    {
        let (_, left) = self.tail.split_at(self.at);
        let Some(len) = whole_len(left) else {
            return None;
        };
        let span = Span {
            at: self.at,
            flags: left[0],
            kind: left[1],
            len,
        };
        self.at += HEADER_LEN + usize::from(len);
        Some(span)
    }

    /// The place in the tail of what has not been walked yet.
    #[inline]
    pub fn rest(&self) -> usize
        ensures place { result ≡ self.now.at }
        ensures within { result ≤ length self.now.tail }
    {
        self.at
    }
}

#[cfg(test)]
mod tests {
    use super::*;

    #[test]
    fn a_walk_gives_whole_tlvs_and_then_the_rest(rt: HostRuntime) {
        let mut walk = Walk::new(b"\x80\xC8\x00\x00\x20\x01\x00\x02\xAA\xBB\x80\x01\x00\x09\xAA");
        let first = Span {
            at: 0,
            flags: 0x80,
            kind: 0xC8,
            len: 0,
        };
        let second = Span {
            at: 4,
            flags: 0x20,
            kind: 1,
            len: 2,
        };
        for (span, rest) in [(Some(first), 4), (Some(second), 10), (None, 10), (None, 10)] {
            assert_eq!(rt; walk.next(), span);
            assert_eq!(rt; walk.rest(), rest);
        }
    }
}
