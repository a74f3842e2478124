//! Which datagrams are of which session (RFC 8972, section 3).

ghost use Rattle.std.specs.Prelude.{◌≡◌, ◌<◌, ◌^◌, ◌==◌, ◌&&◌};
ghost use Rattle.refl_types.specs.Same.{same_octets, same_address, same_endpoint};
ghost use Rattle.session_key.specs.Matching.{ssid_at, query_of, agrees, matches};

use octet_format::field8;
use refl_types::{Address, Endpoint, Key, Meta, Mode};

/// What of a datagram is compared with keys.
#[derive(Clone, Copy, Debug, PartialEq, Eq)]
pub struct Query {
    /// The number of the local address at which it arrived.
    pub local: u16,
    /// Its sender.
    pub peer: Endpoint,
    /// The SSID of an unauthenticated packet: octets 14 and 15, where they are there.
    pub plain: Option<u16>,
    /// The SSID of an authenticated packet: octets 26 and 27, where they are there.
    pub auth: Option<u16>,
}

/// The number in the two octets from a place on, where both are there.
#[inline(always)]
#[tactic(auto, unfolding(crate::specs::Matching::ssid_at))]
fn ssid_at(at: usize, octets: &[u8]) -> Option<u16>
    requires { at < 2 ^ 32 }
    ensures { result ≡ ssid_at at octets.now }
{
    if octets.len() < at + 2 {
        return None;
    }
    let ssid = &octets[at..at + 2];
    Some(u16::from_be_bytes([ssid[0], ssid[1]]))
}

/// Whether two IPv4 addresses are the same. As one number each they are compared at once.
#[inline(always)]
fn same_ipv4(a: &[u8; 4], b: &[u8; 4]) -> bool
    ensures { result ≡ same_octets a.now b.now }
{
    u32::from_be_bytes(*a) == u32::from_be_bytes(*b)
}

/// Whether two IPv6 addresses are the same. As two numbers each they are compared at once.
#[inline(always)]
fn same_ipv6(a: &[u8; 16], b: &[u8; 16]) -> bool
    ensures { result ≡ same_octets a.now b.now }
{
    let front = u64::from_be_bytes(field8(a, 0)) == u64::from_be_bytes(field8(b, 0));
    let back = u64::from_be_bytes(field8(a, 8)) == u64::from_be_bytes(field8(b, 8));
    front && back
}

/// Whether two addresses are the same.
#[inline(always)]
fn same_address(a: &Address, b: &Address) -> bool
    ensures { result ≡ same_address a.now b.now }
{
    match (a, b) {
        (Address::V4(x), Address::V4(y)) => same_ipv4(x, y),
        (Address::V6(x), Address::V6(y)) => same_ipv6(x, y),
        _ => false,
    }
}

/// Whether two endpoints are the same.
#[inline(always)]
fn same_endpoint(a: &Endpoint, b: &Endpoint) -> bool
    ensures { result ≡ same_endpoint a.now b.now }
{
    a.port == b.port && same_address(&a.address, &b.address)
}

/// Whether a local number and a sender are those of a key.
#[inline(always)]
fn has_ends(local: u16, peer: &Endpoint, key: &Key) -> bool
    ensures { result ≡ (local == key.now.local && same_endpoint peer.now key.now.peer) }
{
    local == key.local && same_endpoint(peer, &key.peer)
}

/// The SSID of an authenticated packet, where it is there.
#[inline(always)]
pub fn auth_ssid(octets: &[u8]) -> Option<u16>
    ensures { result ≡ ssid_at 26 octets.now }
{
    ssid_at(26, octets)
}

impl Query {
    /// The query of a datagram.
    #[inline(always)]
    #[tactic(auto, unfolding(crate::specs::Matching::query_of))]
    pub fn of(meta: &Meta, octets: &[u8]) -> Query
        ensures { result ≡ query_of meta.now.local meta.now.peer octets.now }
    {
        Query {
            local: meta.local,
            peer: meta.peer,
            plain: ssid_at(14, octets),
            auth: auth_ssid(octets),
        }
    }

    /// Whether the SSID of the datagram is the key's, in the modes that have one.
    #[inline(always)]
    fn agrees(&self, key: &Key) -> bool
        ensures { result ≡ agrees key.now.mode self.now key.now.ssid }
    {
        match key.mode {
            Mode::Plain => self.plain == Some(key.ssid),
            Mode::Auth => self.auth == Some(key.ssid),
            Mode::Twamp => true,
        }
    }

    /// Whether the datagram is one of the session with this key.
    #[inline(always)]
    #[tactic(auto, unfolding(crate::specs::Matching::matches))]
    pub fn matches(&self, key: &Key) -> bool
        ensures { result ≡ matches self.now key.now }
    {
        // Sessions of one sender mostly differ in their SSID, so it is looked at first.
        self.agrees(key) && has_ends(self.local, &self.peer, key)
    }
}

/// Whether a datagram is one of the session with this key: its local number and its sender are the key's, and in the
/// modes of STAMP its SSID is there and is the key's.
pub fn matches(meta: &Meta, octets: &[u8], key: &Key) -> bool
    ensures { result ≡ matches (query_of meta.now.local meta.now.peer octets.now) key.now }
{
    Query::of(meta, octets).matches(key)
}
