//! A datagram that stands whole at the front is read at fixed places, without going octet by octet.

ghost use Rattle.std.specs.Prelude.{ℕ, ◌≡◌, ◌≤◌, ◌↔◌, ◌∷◌, [], None, Option, length, replicate, IsTrue, IfSome};
ghost use Rattle.octet_format.specs.Octets.{field};
ghost use Rattle.refl_types.specs.declared.types.Address as addresses;
ghost use Rattle.refl_types.specs.declared.types.Meta as metas;
ghost use Rattle.replay_format.specs.Whole.{HasAddress, HasHead, is_asked, IsAsked};
ghost use Rattle.refl_types.specs.Spelling.{family};
ghost use Rattle.replay_format.specs.Records.{Datagram, Arrives, datagram_of, ttl_octets};
ghost use Rattle.replay_format.specs.View.{IsFront};

use crate::layout::{DATAGRAM_BODY_LIMIT, DATAGRAM_FIELDS, DATAGRAM_TAG};
use octet_format::{field2, field4, field8, field16};
use refl_types::{Address, Endpoint, Meta};

/// Octets of a record before the datagram's own.
const HEAD: usize = 44;

/// The family of the peers whose datagrams are asked for.
#[derive(Clone, Copy, Debug, PartialEq, Eq)]
enum Family {
    Any,
    Ipv4,
    Ipv6,
}

/// What stands in the octets 26 and 27: whether the TTL is told, and the TTL.
fn ttl_of(told: u8, ttl: u8) -> Option<Option<u8>>
    ensures some { IfSome result (λ t. told ∷ ttl ∷ [] ≡ ttl_octets t) }
    ensures none { result ≡ None → (t : Option ℕ) → told ∷ ttl ∷ [] ≡ ttl_octets t → ⊥ }
{
    match (told, ttl) {
        (0, 0) => Some(None),
        (1, ttl) => Some(Some(ttl)),
        _ => None,
    }
}

/// Whether the octets 12 to 23 are zeros.
fn has_zeros(octets: &[u8]) -> bool
    requires { 44 ≤ length octets.now }
    ensures { IsTrue result ↔ field 12 12 octets.now ≡ replicate 12 0 }
{
    let first = u64::from_be_bytes(field8(octets, 12));
    let last = u32::from_be_bytes(field4(octets, 20));
    if first != 0 {
        return false;
    }
    last == 0
}

/// The address in the octets 7 to 23.
#[inline(always)]
fn address_of(octets: &[u8]) -> Option<Address>
    requires { 44 ≤ length octets.now }
    ensures some { IfSome result (HasAddress octets.now) }
    ensures none { result ≡ None → (a : addresses.Address) → HasAddress octets.now a → ⊥ }
{
    match octets[7] {
        4 => {
            if !has_zeros(octets) {
                return None;
            }
            Some(Address::V4(field4(octets, 8)))
        }
        6 => Some(Address::V6(field16(octets, 8))),
        _ => None,
    }
}

/// What is told of the datagram, where 44 octets and those that it has stand at the front.
#[inline(always)]
fn meta_of(octets: &[u8], len: usize) -> Option<Meta>
    requires { 44 ≤ length octets.now }
    ensures some { IfSome result (λ m. HasHead octets.now m len) }
    ensures none { result ≡ None → (m : metas.Meta) → HasHead octets.now m len → ⊥ }
{
    let address = address_of(octets)?;
    let ttl = ttl_of(octets[26], octets[27])?;
    Some(Meta {
        local: u16::from_be_bytes(field2(octets, 5)),
        peer: Endpoint {
            address,
            port: u16::from_be_bytes(field2(octets, 24)),
        },
        len,
        ttl,
        arrival: u64::from_be_bytes(field8(octets, 28)),
    })
}

/// Whether the number of a family is that of the family that is asked for.
#[inline(always)]
fn is_asked(asked: Family, code: u8) -> bool
    ensures { result ≡ is_asked asked code }
{
    match asked {
        Family::Any => true,
        Family::Ipv4 => code == 4,
        Family::Ipv6 => code == 6,
    }
}

#[inline(always)]
fn datagram_from(octets: &[u8], asked: Family) -> Option<(Meta, u64, &[u8], usize)>
    ensures front { IfSome result (λ x. IsFront octets.now (Arrives (datagram_of x.0 x.1 x.2.now)) x.3) }
    ensures measured { IfSome result (λ x. x.0.len ≡ length x.2.now) }
    ensures asked { IfSome result (λ x. IsAsked asked x.0.peer.address) }
    ensures none { result ≡ None → (d : Datagram) (n : ℕ) → IsFront octets.now (Arrives d) n → IsAsked asked d.peer.address → ⊥ }
{
    if octets.len() < HEAD || octets[0] != DATAGRAM_TAG {
        return None;
    }
    // Where another family is asked for, this is found before all else is read.
    if !is_asked(asked, octets[7]) {
        return None;
    }
    let body = u32::from_be_bytes(field4(octets, 1)) as usize;
    if body < DATAGRAM_FIELDS || body > DATAGRAM_BODY_LIMIT || octets.len() - 5 < body {
        return None;
    }
    let len = body - DATAGRAM_FIELDS;
    let meta = meta_of(octets, len)?;
    let t3 = u64::from_be_bytes(field8(octets, 36));
    Some((meta, t3, &octets[HEAD..HEAD + len], HEAD + len))
}

/// Reads the record of a datagram, where one stands whole at the front: what is told of the datagram, the moment of its
/// reply in nanoseconds since the start of 1970, its octets, and how many octets the record has.
#[inline(always)]
pub fn read_datagram(octets: &[u8]) -> Option<(Meta, u64, &[u8], usize)>
    ensures front { IfSome result (λ x. IsFront octets.now (Arrives (datagram_of x.0 x.1 x.2.now)) x.3) }
    ensures measured { IfSome result (λ x. x.0.len ≡ length x.2.now) }
    ensures none { result ≡ None → (d : Datagram) (n : ℕ) → IsFront octets.now (Arrives d) n → ⊥ }
{
    datagram_from(octets, Family::Any)
}

/// Reads the record of a datagram as `read_datagram` does, where its peer has an IPv4 address.
#[inline(always)]
pub fn read_ipv4_datagram(octets: &[u8]) -> Option<(Meta, u64, &[u8], usize)>
    ensures front { IfSome result (λ x. IsFront octets.now (Arrives (datagram_of x.0 x.1 x.2.now)) x.3) }
    ensures measured { IfSome result (λ x. x.0.len ≡ length x.2.now) }
    ensures family { IfSome result (λ x. family x.0.peer.address ≡ 4) }
    ensures none { result ≡ None → (d : Datagram) (n : ℕ) → IsFront octets.now (Arrives d) n → family d.peer.address ≡ 4 → ⊥ }
{
    datagram_from(octets, Family::Ipv4)
}

/// Reads the record of a datagram as `read_datagram` does, where its peer has an IPv6 address.
#[inline(always)]
pub fn read_ipv6_datagram(octets: &[u8]) -> Option<(Meta, u64, &[u8], usize)>
    ensures front { IfSome result (λ x. IsFront octets.now (Arrives (datagram_of x.0 x.1 x.2.now)) x.3) }
    ensures measured { IfSome result (λ x. x.0.len ≡ length x.2.now) }
    ensures family { IfSome result (λ x. family x.0.peer.address ≡ 6) }
    ensures none { result ≡ None → (d : Datagram) (n : ℕ) → IsFront octets.now (Arrives d) n → family d.peer.address ≡ 6 → ⊥ }
{
    datagram_from(octets, Family::Ipv6)
}
