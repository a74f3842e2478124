//! From where and to whom a reply is sent, and whether it is (RFC 9503, sections 3 and 4).

ghost use Rattle.std.specs.Prelude.{◌≡◌, ℕ, ◌+◌, ◌≤◌, ◌==◌, ◌||◌, if◌then◌else◌, length, Option, Some, None, IfSome, option_map, option_and_then, position};
ghost use Rattle.octet_format.specs.Octets.{field};
ghost use Rattle.refl_types.specs.Same.{same_endpoint};
ghost use Rattle.tlv_chain.specs.Tlv.{destination_node_address, return_path};
ghost use Rattle.tlv_chain.specs.Walking.{tlv_at};
ghost use Rattle.tlv_actions.specs.Rows.{is_understood};
ghost use Rattle.tlv_actions.specs.Placed.{placed, placed_at, acted, first_of};
ghost use Rattle.tlv_actions.specs.Planned.{address_like, is_address_like, local_with, own_local, own_address, sub_tlv, return_to, usable_path, planned, wants_none, no_reply};

use crate::facts::Plan;
use crate::rows::{is_malformed, is_understood};
use octet_format::{field4, field16};
use refl_types::{Address, Config, ConfigParts, Endpoint, LocalAddr, Meta};
use tlv_chain::{DESTINATION_NODE_ADDRESS, HEADER_LEN, RETURN_PATH, Span, Walk};

/// The Control Code (RFC 9503, section 4.1.1).
const CONTROL_CODE: u8 = 1;

/// The Return Address (RFC 9503, section 4.1.2).
const RETURN_ADDRESS: u8 = 2;

/// A Destination Node Address that is acted on and names an address of the reflector's own.
#[derive(Clone, Copy, Debug, PartialEq, Eq)]
pub struct OwnAddress {
    /// Its place in the tail.
    pub at: usize,
    /// The number of the local address.
    pub local: u16,
}

/// A Return Path that is acted on and followed.
#[derive(Clone, Copy, Debug, PartialEq, Eq)]
pub struct UsablePath {
    /// Its place in the tail.
    pub at: usize,
    /// To whom the reply goes on it.
    pub to: Endpoint,
}

/// The value of the TLV at a span.
#[inline]
fn value_at<'a>(tail: &'a [u8], span: &Span) -> &'a [u8]
    requires { span.now.at + 4 + span.now.len ≤ length tail.now }
    ensures { result.now ≡ field (span.now.at + 4) span.now.len tail.now }
{
    let (_, from_value) = tail.split_at(span.at + HEADER_LEN);
    let (value, _) = from_value.split_at(usize::from(span.len));
    value
}

/// The first TLV of a type that is understood, among those before the first malformed one.
fn first_acted(parts: &ConfigParts, kind: u8, tail: &[u8]) -> Option<Span>
    ensures is { option_map (placed_at tail.now) result ≡ first_of parts.now kind (acted parts.now tail.now) }
    ensures within { IfSome result (λ s. s.at + 4 + s.len ≤ length tail.now) }
{
    if !is_understood(parts, kind) {
        return None;
    }
    let mut first = true;
    let mut walk = Walk::new(tail);
    while let Some(span) = walk.next() {
        if is_malformed(parts, first, span.kind, span.len) {
            return None;
        }
        if span.kind == kind {
            return Some(span);
        }
        first = first && span.kind != DESTINATION_NODE_ADDRESS;
    }
    None
}

/// The place of the first TLV of a type that is understood.
fn first_place(parts: &ConfigParts, kind: u8, tail: &[u8]) -> Option<usize>
    ensures { result ≡ option_map (λ p. p.at) (first_of parts.now kind (placed tail.now)) }
{
    if !is_understood(parts, kind) {
        return None;
    }
    let mut walk = Walk::new(tail);
    while let Some(span) = walk.next() {
        if span.kind == kind {
            return Some(span.at);
        }
    }
    None
}

/// Octets as an address of the family of another.
fn address_like(peer: &Address, octets: &[u8]) -> Option<Address>
    ensures { result ≡ (if is_address_like peer.now octets.now then Some (address_like peer.now octets.now) else None) }
{
    match peer {
        Address::V4(_) if octets.len() == 4 => Some(Address::V4(field4(octets, 0))),
        Address::V6(_) if octets.len() == 16 => Some(Address::V6(field16(octets, 0))),
        _ => None,
    }
}

/// The place of the first endpoint that is this one.
fn place_of(endpoint: &Endpoint, locals: &[LocalAddr]) -> Option<usize>
    ensures value { result ≡ position (λ l. same_endpoint l endpoint.now) locals.now }
    ensures within { IfSome result (λ i. i + 1 ≤ length locals.now) }
{
    locals.iter().position(|l| *l == *endpoint)
}

/// The number of the lowest local with an address, and with the port of the local at which the datagram arrived.
fn local_with(locals: &[LocalAddr], arrived: u16, address: Address) -> Option<u16>
    requires { length locals.now ≤ 16 }
    ensures { result ≡ local_with locals.now arrived address }
{
    let arrived = locals.get(usize::from(arrived))?;
    let port = arrived.port;
    let place = place_of(&Endpoint { address, port }, locals)?;
    Some(place as u16)
}

/// The number of the local that a value names.
fn own_local(locals: &[LocalAddr], meta: &Meta, value: &[u8]) -> Option<u16>
    requires { length locals.now ≤ 16 }
    ensures { result ≡ own_local locals.now meta.now value.now }
{
    let address = address_like(&meta.peer.address, value)?;
    local_with(locals, meta.local, address)
}

/// The Destination Node Address that is acted on and names an address of the reflector's own.
fn own_address(
    parts: &ConfigParts,
    locals: &[LocalAddr],
    meta: &Meta,
    tail: &[u8],
) -> Option<OwnAddress>
    requires { length locals.now ≤ 16 }
    ensures { result ≡ own_address parts.now locals.now meta.now tail.now }
{
    let span = first_acted(parts, DESTINATION_NODE_ADDRESS, tail)?;
    let local = own_local(locals, meta, value_at(tail, &span))?;
    Some(OwnAddress { at: span.at, local })
}

/// The one whole sub-TLV that a value is.
fn sub_tlv(value: &[u8]) -> Option<Span>
    ensures is { option_map (tlv_at value.now) result ≡ sub_tlv value.now }
    ensures within { IfSome result (λ s. s.at + 4 + s.len ≤ length value.now) }
{
    let mut walk = Walk::new(value);
    let span = walk.next()?;
    if walk.rest() == value.len() {
        Some(span)
    } else {
        None
    }
}

/// To whom a reply goes on the way that a sub-TLV asks for, if it can go that way.
fn return_to(peer: &Endpoint, kind: u8, octets: &[u8]) -> Option<Endpoint>
    ensures { (flags : ℕ) → result ≡ return_to peer.now (record { flags = flags; kind = kind; value = octets.now }) }
{
    match kind {
        CONTROL_CODE if octets.len() == 4 => Some(*peer),
        RETURN_ADDRESS => {
            let address = address_like(&peer.address, octets)?;
            Some(Endpoint {
                address,
                port: peer.port,
            })
        }
        _ => None,
    }
}

/// The Return Path that is acted on and followed.
fn usable_path(parts: &ConfigParts, peer: &Endpoint, tail: &[u8]) -> Option<UsablePath>
    ensures { result ≡ usable_path parts.now peer.now tail.now }
{
    let span = first_acted(parts, RETURN_PATH, tail)?;
    let value = value_at(tail, &span);
    let sub = sub_tlv(value)?;
    let to = return_to(peer, sub.kind, value_at(value, &sub))?;
    Some(UsablePath { at: span.at, to })
}

/// The plan of a reply, where types of RFC 9503 are understood.
#[inline(never)]
#[tactic(auto, unfolding(crate::specs::Planned::planned))]
fn planned(parts: &ConfigParts, locals: &[LocalAddr], meta: &Meta, tail: &[u8]) -> Plan
    requires { length locals.now ≤ 16 }
    ensures { result ≡ planned parts.now locals.now meta.now tail.now }
{
    let own = own_address(parts, locals, meta, tail);
    let path = usable_path(parts, &meta.peer, tail);
    Plan {
        from: own.map_or(meta.local, |own| own.local),
        to: path.map_or(meta.peer, |path| path.to),
        nine: first_place(parts, DESTINATION_NODE_ADDRESS, tail),
        own_at: own.map(|own| own.at),
        path_at: path.map(|path| path.at),
    }
}

/// Whether a tail may say from where and to whom its reply is sent.
#[inline(always)]
pub fn may_redirect(config: &Config) -> bool
    ensures { result ≡ (is_understood config.now destination_node_address || is_understood config.now return_path) }
{
    let parts = config.as_parts();
    // Both are asked at once, for one test of their bits.
    let destination = is_understood(parts, DESTINATION_NODE_ADDRESS);
    let path = is_understood(parts, RETURN_PATH);
    destination || path
}

/// From where and to whom the reply to a datagram is sent, by the Destination Node Address and the Return Path of its
/// tail: from the local that the one names, to the Return Address that the other names. Otherwise it goes from where
/// the datagram arrived to its sender. `locals` are the reflector's own addresses.
#[inline(always)]
#[tactic(auto, unfolding(crate::specs::Planned::planned))]
pub fn plan(config: &Config, locals: &[LocalAddr], meta: &Meta, tail: &[u8]) -> Plan
    requires { length locals.now ≤ 16 }
    ensures { result ≡ planned config.now locals.now meta.now tail.now }
{
    let parts = config.as_parts();
    if may_redirect(config) {
        return planned(parts, locals, meta, tail);
    }
    Plan {
        from: meta.local,
        to: meta.peer,
        nine: None,
        own_at: None,
        path_at: None,
    }
}

/// Whether the lowest bit of a Control Code is 0.
fn wants_none(kind: u8, octets: &[u8]) -> bool
    ensures { (flags : ℕ) → result ≡ wants_none (record { flags = flags; kind = kind; value = octets.now }) }
{
    kind == CONTROL_CODE && octets.len() == 4 && octets[3] % 2 == 0
}

/// Whether the Return Path that is acted on wants no reply.
#[inline(never)]
#[tactic(auto, unfolding(crate::specs::Planned::no_reply))]
fn asks_for_none(parts: &ConfigParts, tail: &[u8]) -> bool
    ensures { result ≡ no_reply parts.now tail.now }
{
    let Some(span) = first_acted(parts, RETURN_PATH, tail) else {
        return false;
    };
    let value = value_at(tail, &span);
    let Some(sub) = sub_tlv(value) else {
        return false;
    };
    wants_none(sub.kind, value_at(value, &sub))
}

/// Whether the sender wants no reply: the Return Path of the tail is a Control Code whose lowest bit is 0.
#[inline(always)]
#[tactic(auto, unfolding(crate::specs::Planned::no_reply))]
pub fn no_reply(config: &Config, tail: &[u8]) -> bool
    ensures { result ≡ no_reply config.now tail.now }
{
    let parts = config.as_parts();
    is_understood(parts, RETURN_PATH) && asks_for_none(parts, tail)
}
