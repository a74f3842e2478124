//! The parts of a datagram's record are read from left to right. Each reader gives its part and the octets after it.

ghost use Rattle.octet_format.specs.Reading.{Gives};
ghost use Rattle.replay_format.specs.InnerReading.{body_len_at, ttl_at};

use octet_format::{Unread, octet_in};

#[tactic(auto, unfolding(crate::specs::InnerReading::body_len_at))]
pub fn body_len_at(octets: &[u8]) -> Result<(u32, &[u8]), Unread>
    ensures { Gives (λ x. (x.0, x.1.now)) result (body_len_at octets.now) }
{
    let (_, rest) = octet_in(0, 0, octets)?;
    let (b, rest) = octet_in(0, 1, rest)?;
    let (c, rest) = octet_in(0, if b == 0 { 255 } else { 0 }, rest)?;
    let (d, rest) = octet_in(
        if b == 0 && c == 0 { 39 } else { 0 },
        if b == 0 { 255 } else { 10 },
        rest,
    )?;
    Ok((
        u32::from(b) * 65536 + u32::from(c) * 256 + u32::from(d),
        rest,
    ))
}

/// A TTL, which may be told or not: whether it is, and the TTL, which is 0 where it isn't.
#[tactic(auto, unfolding(crate::specs::InnerReading::ttl_at))]
pub fn ttl_at(octets: &[u8]) -> Result<(Option<u8>, &[u8]), Unread>
    ensures { Gives (λ x. (x.0, x.1.now)) result (ttl_at octets.now) }
{
    let (told, rest) = octet_in(0, 1, octets)?;
    let (ttl, rest) = octet_in(0, if told == 0 { 0 } else { 255 }, rest)?;
    Ok((if told == 0 { None } else { Some(ttl) }, rest))
}
