//! The fields of a reply (RFC 8762, section 4.3).

ghost use Rattle.std.specs.Prelude.{◌≡◌, if◌then◌else◌};
ghost use Rattle.refl_types.specs.Configs.{IsConfig};
ghost use Rattle.reflect_core.specs.Base.{error_estimate, reply_base};

use crate::session::Draw;
use ntp_time::stamp;
use refl_types::{Clock, ConfigParts, Meta};
use stamp_packet::{ReplyBase, SenderBase};

/// The TTL of a datagram whose TTL wasn't told.
const UNTOLD_TTL: u8 = 255;

/// The Error Estimate of the reflector: S, Z, Scale and Multiplier (RFC 4656, section 4.1.2; RFC 8186, section 2.1).
#[inline]
fn error_estimate(parts: &ConfigParts) -> [u8; 2]
    requires { IsConfig parts.now }
    ensures { result ≡ error_estimate parts.now }
{
    let synced = if parts.synced { 0x80 } else { 0 };
    let format = match parts.clock {
        Clock::Ntp => 0,
        Clock::Ptp => 0x40,
    };
    [synced + format + parts.scale, parts.multiplier]
}

/// The Sequence Number of a reply: the reflector's own where it is stateful (RFC 8762, section 4).
#[inline]
fn sequence_of(parts: &ConfigParts, number: u32, sender: &SenderBase) -> u32
    ensures { result ≡ (if parts.now.stateful then number else sender.now.sequence) }
{
    if parts.stateful {
        number
    } else {
        sender.sequence
    }
}

/// The fields of the reply to a request.
#[inline(always)]
#[tactic(auto, unfolding(crate::specs::Base::reply_base))]
pub fn reply_base(parts: &ConfigParts, draw: &Draw, meta: &Meta, sender: &SenderBase) -> ReplyBase
    requires { IsConfig parts.now }
    ensures { result ≡ reply_base parts.now draw.now meta.now sender.now }
{
    ReplyBase {
        sequence: sequence_of(parts, draw.number, sender),
        timestamp: stamp(parts.clock, parts.offset, draw.sending),
        error: error_estimate(parts),
        ssid: sender.ssid,
        received: stamp(parts.clock, parts.offset, meta.arrival),
        sender: *sender,
        ttl: meta.ttl.unwrap_or(UNTOLD_TTL),
    }
}
