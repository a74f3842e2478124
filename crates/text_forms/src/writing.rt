//! Endpoints are written.

ghost use Rattle.std.specs.Prelude.{◌≡◌, ◌+◌, ◌*◌, ◌≤◌, ◌<◌, ◌++◌, ◌∷◌, [], length, take, decimal};
ghost use Rattle.refl_types.specs.declared.types.Address.TheVariants.{V6};
ghost use Rattle.text_forms.specs.Endpoints.{hex_digit, hex_octet, dotted, grouped, address_text, endpoint_text};

use itoa::Buffer;
use octet_format::put;
use refl_types::{Address, Endpoint};

/// How many octets the longest text of an endpoint has.
pub const ENDPOINT_TEXT_MAX: usize = 47;

/// Writes a piece behind the first `at` octets, and answers how many octets there are then.
fn append(out: &mut [u8], at: usize, piece: &[u8]) -> usize
    requires { at + length piece.now ≤ length out.old }
    ensures text { take result out.new ≡ take at out.old ++ piece.now }
    ensures len { result ≡ at + length piece.now }
{
    put(out, at, piece);
    at + piece.len()
}

fn append_number(out: &mut [u8], at: usize, number: u16) -> usize
    requires { at + 5 ≤ length out.old }
    ensures text { take result out.new ≡ take at out.old ++ decimal number }
    ensures len { result ≡ at + length (decimal number) }
    ensures short { result ≤ at + 5 }
{
    let mut buffer = Buffer::new();
    append(out, at, buffer.format(number).as_bytes())
}

fn append_octet(out: &mut [u8], at: usize, octet: u8) -> usize
    requires { at + 3 ≤ length out.old }
    ensures text { take result out.new ≡ take at out.old ++ decimal octet }
    ensures len { result ≡ at + length (decimal octet) }
    ensures short { result ≤ at + 3 }
{
    let mut buffer = Buffer::new();
    append(out, at, buffer.format(octet).as_bytes())
}

fn hex_digit(value: u8) -> u8
    requires { value < 16 }
    ensures { result ≡ hex_digit value }
{
    if value < 10 {
        b'0' + value
    } else {
        b'a' + (value - 10)
    }
}

/// A group of two octets.
fn append_group(out: &mut [u8], at: usize, first: u8, second: u8) -> usize
    requires { at + 4 ≤ length out.old }
    ensures text { take result out.new ≡ take at out.old ++ (hex_octet first ++ hex_octet second) }
    ensures len { result ≡ at + 4 }
{
    let group = [
        hex_digit(first / 16),
        hex_digit(first % 16),
        hex_digit(second / 16),
        hex_digit(second % 16),
    ];
    append(out, at, &group)
}

fn append_v4(out: &mut [u8; 47], octets: &[u8; 4]) -> usize
    ensures text { take result out.new ≡ dotted octets.now }
    ensures short { result ≤ 15 }
{
    let at = append_octet(out, 0, octets[0]);
    let at = append(out, at, b".");
    let at = append_octet(out, at, octets[1]);
    let at = append(out, at, b".");
    let at = append_octet(out, at, octets[2]);
    let at = append(out, at, b".");
    append_octet(out, at, octets[3])
}

fn append_v6(out: &mut [u8; 47], octets: &[u8; 16]) -> usize
    ensures text { take result out.new ≡ address_text (V6 octets.now) }
    ensures short { result ≡ 41 }
{
    let at = append(out, 0, b"[");
    let mut at = append_group(out, at, octets[0], octets[1]);
    for group in 1..8 {
        at = append(out, at, b":");
        at = append_group(out, at, octets[2 * group], octets[2 * group + 1]);
    }
    append(out, at, b"]")
}

/// Writes the text of an endpoint to the front of a buffer, and answers how many octets it has. The other octets of the
/// buffer are undefined after it.
pub fn write_endpoint(endpoint: &Endpoint, out: &mut [u8; 47]) -> usize
    ensures text { take result out.new ≡ endpoint_text endpoint.now }
    ensures len { result ≡ length (endpoint_text endpoint.now) }
{
    let at = match &endpoint.address {
        Address::V4(octets) => append_v4(out, octets),
        Address::V6(octets) => append_v6(out, octets),
    };
    let at = append(out, at, b":");
    append_number(out, at, endpoint.port)
}
