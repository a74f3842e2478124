//! Addresses as the system's calls have them, in octets: C's `sockaddr_in` and `sockaddr_in6`.

ghost use Rattle.std.specs.Prelude.{◌≡◌, ◌≤◌, ◌++◌, drop};
ghost use Rattle.refl_types.specs.declared.types.Address.TheVariants.{V4, V6};
ghost use Rattle.socket_io.specs.RawAddresses.{endpoint_in, len_of, octets_by};

use libc::net as c;
use octet_format::{field2, field4, field16, put_array};
use refl_types::{Address, Endpoint};

/// Octets of an address as the system's calls have it. It is kept from call to call, and not cleared.
pub type RawAddress = [u8; c::_SS_SIZE];

/// The families of IPv4 and IPv6.
const INET: u16 = 2;

const INET6: u16 = 10;

const V4_LEN: u32 = 16;

const V6_LEN: u32 = 28;

/// Whether the first octets are an address of IPv4 or IPv6.
#[inline(always)]
pub fn is_known(raw: &RawAddress, len: u32) -> bool {
    let family = u16::from_ne_bytes(field2(raw, 0));
    (family == INET && len >= V4_LEN) || (family == INET6 && len >= V6_LEN)
}

/// The endpoint in the first octets, where `is_known` is true of them.
#[inline(always)]
pub fn decode(raw: &RawAddress) -> Endpoint
    ensures { result ≡ endpoint_in raw.now }
{
    let family = u16::from_ne_bytes(field2(raw, 0));
    let port = u16::from_be_bytes(field2(raw, 2));
    if family == INET {
        return Endpoint {
            address: Address::V4(field4(raw, 4)),
            port,
        };
    }
    Endpoint {
        address: Address::V6(field16(raw, 8)),
        port,
    }
}

/// Puts an endpoint in the first octets, and says how many the system is to read.
#[inline(always)]
pub fn encode(to: &Endpoint, raw: &mut RawAddress) -> u32
    ensures limit { result ≤ 128 }
    ensures octets { raw.new ≡ octets_by to.now.address to.now.port ++ drop (len_of to.now.address) raw.old }
{
    match &to.address {
        Address::V4(host) => encode_ipv4(host, to.port, raw),
        Address::V6(host) => encode_ipv6(host, to.port, raw),
    }
}

#[inline(always)]
fn encode_ipv4(host: &[u8; 4], port: u16, raw: &mut RawAddress) -> u32
    ensures limit { result ≤ 128 }
    ensures octets { raw.new ≡ octets_by (V4 host.now) port ++ drop 8 raw.old }
{
    put_array(raw, 0, [2, 0]);
    put_array(raw, 2, port.to_be_bytes());
    put_array(raw, 4, *host);
    V4_LEN
}

#[inline(never)]
fn encode_ipv6(host: &[u8; 16], port: u16, raw: &mut RawAddress) -> u32
    ensures limit { result ≤ 128 }
    ensures octets { raw.new ≡ octets_by (V6 host.now) port ++ drop 28 raw.old }
{
    put_array(raw, 0, [10, 0]);
    put_array(raw, 2, port.to_be_bytes());
    put_array(raw, 4, [0; 4]);
    put_array(raw, 8, *host);
    put_array(raw, 24, [0; 4]);
    V6_LEN
}
