//! The Timeout field of a test session request (RFC 4656, section 3.5; RFC 5905, section 6).

ghost use Rattle.std.specs.Prelude.{◌≡◌};
ghost use Rattle.ntp_time.specs.Timeout.{timeout_span};

const NANOS_IN_SECOND: u64 = 1_000_000_000;

/// The nanoseconds of a span in the 64-bit NTP timestamp format: four octets of seconds and four of the fraction of a
/// second, in network order. A part of a nanosecond is dropped.
pub fn timeout_nanos(field: &[u8; 8]) -> u64
    ensures { result ≡ timeout_span field.now }
{
    let seconds = u32::from_be_bytes([field[0], field[1], field[2], field[3]]);
    let fraction = u32::from_be_bytes([field[4], field[5], field[6], field[7]]);
    u64::from(seconds) * NANOS_IN_SECOND + u64::from(fraction) * NANOS_IN_SECOND / (1 << 32)
}

#[cfg(test)]
mod tests {
    use super::*;

    #[test]
    fn a_span_is_read_to_the_nanosecond(rt: HostRuntime) {
        let spans = [
            ([0, 0, 0, 2, 0, 0, 0, 0], 2_000_000_000),
            ([0, 0, 0, 0, 0x80, 0, 0, 0], 500_000_000),
            ([0, 0, 0, 0, 0, 0, 0, 4], 0),
            ([0, 0, 0, 0, 0, 0, 0, 5], 1),
            ([0xff; 8], 4_294_967_295_999_999_999),
        ];
        for (field, nanos) in spans {
            assert_eq!(rt; timeout_nanos(&field), nanos);
        }
    }
}
