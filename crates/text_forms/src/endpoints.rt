//! Endpoints as texts.

ghost use Rattle.std.specs.Prelude.{◌≡◌, option_map};
ghost use Rattle.text_forms.specs.Numbers.{number_from};
ghost use Rattle.text_forms.specs.Endpoints as spec;

use crate::numbers::number_from;
use refl_types::{Address, Endpoint};

/// What stands before and after the first such octet.
fn cut(mark: u8, text: &[u8]) -> Option<(&[u8], &[u8])>
    ensures { option_map (λ p. (p.0.now, p.1.now)) result ≡ spec.cut mark text.now }
{
    for at in 0..text.len() {
        if text[at] == mark {
            return Some((&text[..at], &text[at + 1..]));
        }
    }
    None
}

fn octet_from(text: &[u8]) -> Option<u8>
    ensures { result ≡ number_from 0 255 text.now }
{
    let number = number_from(0, 255, text)?;
    Some(number as u8)
}

fn v4_from(text: &[u8]) -> Option<[u8; 4]>
    ensures { result ≡ spec.v4_from text.now }
{
    let (first, rest) = cut(b'.', text)?;
    let (second, rest) = cut(b'.', rest)?;
    let (third, fourth) = cut(b'.', rest)?;
    let first = octet_from(first)?;
    let second = octet_from(second)?;
    let third = octet_from(third)?;
    let fourth = octet_from(fourth)?;
    Some([first, second, third, fourth])
}

/// The octets and the length of a prefix of IPv4 addresses that a text spells: four decimal numbers with dots, a slash, and a
/// number of 0 to 32. Any other text is none.
pub fn prefix_from(text: &[u8]) -> Option<([u8; 4], u8)>
    ensures { result ≡ spec.prefix_from text.now }
{
    let (host, digits) = cut(b'/', text)?;
    let octets = v4_from(host)?;
    let len = number_from(0, 32, digits)?;
    Some((octets, len as u8))
}

/// The value of a hexadecimal digit in lower case.
fn nibble(digit: u8) -> Option<u8>
    ensures { result ≡ spec.nibble digit }
{
    match digit {
        b'0'..=b'9' => Some(digit - b'0'),
        b'a'..=b'f' => Some(digit - b'a' + 10),
        _ => None,
    }
}

fn mark_at(mark: u8, text: &[u8]) -> Option<&[u8]>
    ensures { option_map (λ s. s.now) result ≡ spec.mark_at mark text.now }
{
    match text {
        [] => None,
        [first, rest @ ..] => {
            if *first == mark {
                return Some(rest);
            }
            None
        }
    }
}

fn octet_at(text: &[u8]) -> Option<(u8, &[u8])>
    ensures { option_map (λ p. (p.0, p.1.now)) result ≡ spec.octet_at text.now }
{
    match text {
        [first, second, rest @ ..] => {
            let high = nibble(*first)?;
            let low = nibble(*second)?;
            Some((16 * high + low, rest))
        }
        _ => None,
    }
}

#[tactic(auto, unfolding(crate::specs::Endpoints::groups_at))]
fn groups_at(text: &[u8]) -> Option<((u8, u8, u8, u8), &[u8])>
    ensures { option_map (λ p. (p.0, p.1.now)) result ≡ spec.groups_at text.now }
{
    let (a, rest) = octet_at(text)?;
    let (b, rest) = octet_at(rest)?;
    let rest = mark_at(b':', rest)?;
    let (c, rest) = octet_at(rest)?;
    let (d, rest) = octet_at(rest)?;
    Some(((a, b, c, d), rest))
}

#[tactic(auto, unfolding(crate::specs::Endpoints::v6_at))]
fn v6_at(text: &[u8]) -> Option<([u8; 16], &[u8])>
    ensures { option_map (λ p. (p.0, p.1.now)) result ≡ spec.v6_at text.now }
{
    let (a, rest) = groups_at(text)?;
    let rest = mark_at(b':', rest)?;
    let (b, rest) = groups_at(rest)?;
    let rest = mark_at(b':', rest)?;
    let (c, rest) = groups_at(rest)?;
    let rest = mark_at(b':', rest)?;
    let (d, rest) = groups_at(rest)?;
    Some((
        [
            a.0, a.1, a.2, a.3, b.0, b.1, b.2, b.3, c.0, c.1, c.2, c.3, d.0, d.1, d.2, d.3,
        ],
        rest,
    ))
}

fn port_from(text: &[u8]) -> Option<u16>
    ensures { result ≡ number_from 1 65535 text.now }
{
    let number = number_from(1, 65535, text)?;
    Some(number as u16)
}

fn v6_endpoint_from(text: &[u8]) -> Option<Endpoint>
    ensures { result ≡ spec.v6_endpoint_from text.now }
{
    let (octets, rest) = v6_at(text)?;
    let rest = mark_at(b']', rest)?;
    let digits = mark_at(b':', rest)?;
    let port = port_from(digits)?;
    let address = Address::V6(octets);
    Some(Endpoint { address, port })
}

fn v4_endpoint_from(text: &[u8]) -> Option<Endpoint>
    ensures { result ≡ spec.v4_endpoint_from text.now }
{
    let (host, digits) = cut(b':', text)?;
    let octets = v4_from(host)?;
    let port = port_from(digits)?;
    let address = Address::V4(octets);
    Some(Endpoint { address, port })
}

/// The endpoint that a text spells: four decimal numbers with dots, or in brackets eight groups of four lower-case
/// hexadecimal digits with colons; then a colon and a port of 1 to 65,535. Any other text is none.
pub fn endpoint_from(text: &[u8]) -> Option<Endpoint>
    ensures { result ≡ spec.endpoint_from text.now }
{
    match text {
        [b'[', rest @ ..] => v6_endpoint_from(rest),
        _ => v4_endpoint_from(text),
    }
}
