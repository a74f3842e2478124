//! A list of the reflector's own addresses is read from left to right.

ghost use Rattle.std.specs.Prelude.{◌≡◌, ◌+◌, ◌*◌, ◌<◌, ◌≤◌, length, take, IfOk};
ghost use Rattle.std.specs.List.{list_any};
ghost use Rattle.octet_format.specs.Reading.{Gives, octet_at};
ghost use Rattle.replay_format.specs.InnerReading.{is_list_len, count_at, is_new, local_at, locals_at};
ghost use Rattle.refl_types.specs.Same.{same_endpoint};
ghost use Rattle.replay_format.specs.View.{IsPadded};

use octet_format::{Unread, octet_in, zeros_at};
use refl_types::{Address, LocalAddr};
use session_octets::endpoint_at;

/// What stands in the places that a list leaves free.
pub const NO_LOCAL: LocalAddr = LocalAddr {
    address: Address::V4([0; 4]),
    port: 0,
};

/// The last octet of the length of a list's body, of which `high` is the one before it.
fn len_octet_at(high: u8, octets: &[u8]) -> Result<(u8, &[u8]), Unread>
    requires { high ≤ 1 }
    ensures { Gives (λ x. (x.0, x.1.now)) result (octet_at (λ c. is_list_len (high * 256 + c)) octets.now) }
{
    match octets {
        [] => Err(Unread::More),
        [low, rest @ ..] => {
            let len = u16::from(high) * 256 + u16::from(*low);
            if len % 19 == 1 && len <= 305 {
                Ok((*low, rest))
            } else {
                Err(Unread::Bad)
            }
        }
    }
}

/// The length of a list's body, and then how many addresses it has.
#[tactic(auto, unfolding(crate::specs::InnerReading::count_at))]
fn count_at(octets: &[u8]) -> Result<(u8, &[u8]), Unread>
    ensures value { Gives (λ x. (x.0, x.1.now)) result (count_at octets.now) }
    ensures limit { IfOk result (λ x. x.0 ≤ 16) }
{
    let rest = zeros_at(2, octets)?;
    let (high, rest) = octet_in(0, 1, rest)?;
    let (low, rest) = len_octet_at(high, rest)?;
    let count = ((u16::from(high) * 256 + u16::from(low)) / 19) as u8;
    octet_in(count, count, rest)
}

fn is_same(a: &LocalAddr, b: &LocalAddr) -> bool
    ensures { result ≡ same_endpoint a.now b.now }
{
    a == b
}

fn is_among(earlier: &[LocalAddr], local: &LocalAddr) -> bool
    ensures { result ≡ list_any (λ x. same_endpoint x local.now) earlier.now }
{
    earlier.iter().any(|other| is_same(other, local))
}

/// Whether a local address has a port and is none of the earlier ones.
fn is_new(earlier: &[LocalAddr], local: &LocalAddr) -> bool
    ensures { result ≡ is_new earlier.now local.now }
{
    local.port != 0 && !is_among(earlier, local)
}

/// An address with a port, other than the earlier ones.
#[tactic(auto, unfolding(crate::specs::InnerReading::local_at))]
fn local_at<'a>(earlier: &[LocalAddr], octets: &'a [u8]) -> Result<(LocalAddr, &'a [u8]), Unread>
    ensures { Gives (λ x. (x.0, x.1.now)) result (local_at earlier.now octets.now) }
{
    let (local, rest) = endpoint_at(octets)?;
    if is_new(earlier, &local) {
        Ok((local, rest))
    } else {
        Err(Unread::Bad)
    }
}

/// How many addresses a list has, and the addresses in their places.
#[tactic(auto, unfolding(crate::specs::InnerReading::locals_at))]
pub fn locals_at(octets: &[u8]) -> Result<(u8, [LocalAddr; 16], &[u8]), Unread>
    ensures value { Gives (λ x. (take x.0 x.1, x.2.now)) result (locals_at octets.now) }
    ensures padded { IfOk result (λ x. IsPadded x.0 x.1) }
{
    let (count, mut rest) = count_at(octets)?;
    let mut list = [NO_LOCAL; 16];
    for i in 0..count as usize {
        let (local, after) = local_at(&list[..i], rest)?;
        list[i] = local;
        rest = after;
    }
    Ok((count, list, rest))
}
