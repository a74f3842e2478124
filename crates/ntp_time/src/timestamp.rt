//! A moment as a timestamp of eight octets (RFC 5905, section 6; RFC 8186, section 2).

ghost use Rattle.std.specs.Prelude.{◌≡◌};
ghost use Rattle.ntp_time.specs.Timestamp.{timestamp};

use refl_types::Clock;

/// Nanoseconds of a second.
const NANOS: u64 = 1_000_000_000;

/// Seconds from the start of 1900, where NTP counts from, to the start of 1970 (RFC 5905, section 6).
const NTP_SECONDS: u64 = 2_208_988_800;

/// A moment, in nanoseconds since the start of 1970, in a clock's format. `offset` seconds are added in the PTP
/// format alone. Seconds are taken modulo 2^32, and a fraction is rounded down.
#[inline(always)]
pub fn stamp(clock: Clock, offset: u8, nanos: u64) -> [u8; 8]
    ensures { result ≡ timestamp clock offset nanos }
{
    let whole = nanos / NANOS;
    let over = nanos % NANOS;
    let (seconds, fraction) = match clock {
        Clock::Ntp => ((whole + NTP_SECONDS) % (1 << 32), over * (1 << 32) / NANOS),
        Clock::Ptp => ((whole + u64::from(offset)) % (1 << 32), over),
    };
    let mut octets = [0; 8];
    octets[..4].copy_from_slice(&(seconds as u32).to_be_bytes());
    octets[4..].copy_from_slice(&(fraction as u32).to_be_bytes());
    octets
}

#[cfg(test)]
mod tests {
    use super::*;

    #[test]
    fn moments_are_written_in_both_formats(rt: HostRuntime) {
        for (clock, offset, nanos, want) in [
            (
                Clock::Ntp,
                0,
                999_999_999,
                [0x83, 0xAA, 0x7E, 0x80, 0xFF, 0xFF, 0xFF, 0xFB],
            ),
            (
                Clock::Ptp,
                37,
                999_999_999,
                [0x00, 0x00, 0x00, 0x25, 0x3B, 0x9A, 0xC9, 0xFF],
            ),
            (Clock::Ntp, 0, 2_085_978_496_000_000_000, [0; 8]),
        ] {
            assert_eq!(rt; stamp(clock, offset, nanos), want);
        }
    }
}
