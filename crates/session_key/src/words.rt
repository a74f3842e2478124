//! A key and its extra in four words.

ghost use Rattle.std.specs.Prelude.{◌≡◌, ◌<◌, ◌^◌, take, drop, true};
ghost use Rattle.std.specs.Int.{w64, from_be_bytes};
ghost use Rattle.session_key.specs.Words.{is_v6, key_words, AreKeyWords, key_of_words, extra_of_words, address_of, mode_of, ends_word, extra_word};
ghost use Rattle.octet_format.specs.Octets.{IsArray, IsBytes};
ghost use Rattle.refl_types.specs.Keys.{is_sound};
ghost use Rattle.refl_types.specs.Spelling.{address_octets, mode_code, FitsAddress, FitsEndpoint, FitsKey};

use byteorder::{BigEndian, ByteOrder};
use octet_format::field8;
use refl_types::{Address, Endpoint, Extra, Key, Mode};

#[inline(always)]
fn mode_code(mode: Mode) -> u64
    ensures value { result ≡ mode_code mode }
    ensures range { result < 3 }
{
    match mode {
        Mode::Plain => 0,
        Mode::Auth => 1,
        Mode::Twamp => 2,
    }
}

fn mode_of(code: u64) -> Mode
    ensures { result ≡ mode_of code }
{
    match code {
        0 => Mode::Plain,
        1 => Mode::Auth,
        _ => Mode::Twamp,
    }
}

#[inline(always)]
fn is_v6(address: &Address) -> bool
    ensures { result ≡ is_v6 address.now }
{
    matches!(address, Address::V6(_))
}

fn address_of(first: u64, second: u64, is_v6: bool) -> Address
    ensures { result ≡ address_of first second is_v6 }
{
    let mut octets = [0; 16];
    BigEndian::write_u64(&mut octets, first);
    BigEndian::write_u64(&mut octets[8..], second);
    if is_v6 {
        Address::V6(octets)
    } else {
        Address::V4([octets[0], octets[1], octets[2], octets[3]])
    }
}

#[inline(always)]
fn ends_word(port: u16, ssid: u16, local: u16, mode: Mode, is_v6: bool) -> u64
    ensures { result ≡ ends_word port ssid local mode is_v6 }
{
    (u64::from(port) << 48)
        + (u64::from(ssid) << 32)
        + (u64::from(local) << 16)
        + (mode_code(mode) << 1)
        + u64::from(is_v6)
}

fn extra_word(reflect: u16, symmetrical: bool) -> u64
    ensures { result ≡ extra_word reflect symmetrical }
{
    (u64::from(reflect) << 1) + u64::from(symmetrical)
}

// What the types of a key and an extra say of their numbers.

fn octets_fit(octets: &[u8])
    ensures { IsBytes octets.now }
{}

fn v4_fits(octets: &[u8; 4])
    ensures { IsArray 4 octets.now }
{
    octets_fit(octets);
}

fn v6_fits(octets: &[u8; 16])
    ensures { IsArray 16 octets.now }
{
    octets_fit(octets);
}

pub(crate) fn address_fits(address: &Address)
    ensures { FitsAddress address.now }
{
    match address {
        Address::V4(octets) => v4_fits(octets),
        Address::V6(octets) => v6_fits(octets),
    }
}

fn number_fits(number: u16)
    ensures { number < 2 ^ 16 }
{}

fn key_fits(key: &Key)
    ensures { FitsKey key.now }
{
    number_fits(key.local);
    number_fits(key.peer.port);
    number_fits(key.ssid);
    address_fits(&key.peer.address);
}

/// The words of an address: an IPv4 address stands in the first four octets.
#[inline(always)]
fn address_words(address: &Address) -> (u64, u64)
    ensures first { result.0 ≡ from_be_bytes w64 (take 8 (address_octets address.now)) }
    ensures second { result.1 ≡ from_be_bytes w64 (drop 8 (address_octets address.now)) }
    ensures fits { FitsAddress address.now }
{
    address_fits(address);
    match address {
        Address::V4(octets) => (u64::from(u32::from_be_bytes(*octets)) << 32, 0),
        Address::V6(octets) => (
            u64::from_be_bytes(field8(octets, 0)),
            u64::from_be_bytes(field8(octets, 8)),
        ),
    }
}

/// The first three words of a key with these ends, in this mode and with this SSID.
#[inline(always)]
pub fn first_words(local: u16, peer: &Endpoint, mode: Mode, ssid: u16) -> (u64, u64, u64)
    ensures first { result.0 ≡ from_be_bytes w64 (take 8 (address_octets peer.now.address)) }
    ensures second { result.1 ≡ from_be_bytes w64 (drop 8 (address_octets peer.now.address)) }
    ensures third { result.2 ≡ ends_word peer.now.port ssid local mode (is_v6 peer.now.address) }
    ensures local_fits { local < 2 ^ 16 }
    ensures peer_fits { FitsEndpoint peer.now }
{
    number_fits(peer.port);
    let (first, second) = address_words(&peer.address);
    let third = ends_word(peer.port, ssid, local, mode, is_v6(&peer.address));
    (first, second, third)
}

/// The four words of a key and an extra.
pub fn key_words(key: &Key, extra: &Extra) -> [u64; 4]
    ensures value { result ≡ key_words key.now extra.now }
    ensures key_fits { FitsKey key.now }
    ensures extra_fits { extra.now.reflect < 2 ^ 16 }
    ensures words { is_sound key.now extra.now ≡ true → AreKeyWords result }
{
    key_fits(key);
    number_fits(extra.reflect);
    let (first, second, third) = first_words(key.local, &key.peer, key.mode, key.ssid);
    let fourth = extra_word(extra.reflect, extra.symmetrical);
    [first, second, third, fourth]
}

/// The key and the extra of four words.
pub fn from_key_words(words: &[u64; 4]) -> (Key, Extra)
    requires { AreKeyWords words.now }
    ensures key { result.0 ≡ key_of_words words.now }
    ensures extra { result.1 ≡ extra_of_words words.now }
    ensures sound { is_sound result.0 result.1 ≡ true }
{
    let [first, second, ends, agreed] = *words;
    let key = Key {
        local: ((ends >> 16) % (1 << 16)) as u16,
        peer: Endpoint {
            address: address_of(first, second, ends % 2 == 1),
            port: (ends >> 48) as u16,
        },
        mode: mode_of((ends >> 1) % (1 << 15)),
        ssid: ((ends >> 32) % (1 << 16)) as u16,
    };
    let extra = Extra {
        symmetrical: agreed % 2 == 1,
        reflect: (agreed / 2) as u16,
    };
    (key, extra)
}
