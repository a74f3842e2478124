//! Decimal numbers.

ghost use Rattle.std.specs.Prelude.{◌≡◌};
ghost use Rattle.text_forms.specs.Numbers.{number_from};

use itoa::Buffer;

/// The number from `low` to `high` whose decimal spelling this text is. A sign, a leading zero and any other octet but
/// a digit make it none.
pub fn number_from(low: u64, high: u64, text: &[u8]) -> Option<u64>
    ensures { result ≡ number_from low high text.now }
{
    let text = match std::str::from_utf8(text) {
        Ok(text) => text,
        Err(_) => return None,
    };
    let number = match text.parse::<u64>() {
        Ok(number) => number,
        Err(_) => return None,
    };
    let mut buffer = Buffer::new();
    if buffer.format(number) != text {
        return None;
    }
    if number < low || high < number {
        return None;
    }
    Some(number)
}
