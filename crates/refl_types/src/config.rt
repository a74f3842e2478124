//! The configuration of a session.

ghost use Rattle.std.specs.Prelude.{◌≡◌};
ghost use Rattle.refl_types.specs.Configs.{are_known_tlvs, config_made};

use std::marker::Model;

/// The format in which the reflector writes its timestamps (RFC 8762, section 4.2.1, Error Estimate).
#[derive(Clone, Copy, Debug, PartialEq, Eq)]
pub enum Clock {
    /// 64-bit NTP timestamps (RFC 5905, section 6).
    Ntp,
    /// Truncated PTP timestamps (IEEE 1588, seconds and nanoseconds).
    Ptp,
}

/// What a configuration is made of.
#[derive(Clone, Copy, Debug, PartialEq, Eq)]
pub struct ConfigParts {
    /// The reply has a sequence number of the reflector's own (RFC 8762, section 4.2).
    pub stateful: bool,
    pub clock: Clock,
    /// Seconds that are added to a PTP timestamp.
    pub offset: u8,
    /// The S bit of the Error Estimate.
    pub synced: bool,
    /// The Scale of the Error Estimate, 0 to 63.
    pub scale: u8,
    /// The Multiplier of the Error Estimate, other than 0 (RFC 4656, section 4.1.2).
    pub multiplier: u8,
    /// The value of a Timestamp Information TLV (RFC 8972, section 4.3).
    pub info: [u8; 4],
    /// Bit t says that TLV type t is supported. Only bits 3, 5, 9 and 10 may be set.
    pub tlvs: u32,
    /// The HMAC key, as a block of 64 octets (RFC 2104, section 2).
    pub key: Option<[u8; 64]>,
}

/// Why parts make no configuration. Whoever configured the reflector is to blame.
#[derive(Clone, Copy, Debug, PartialEq, Eq)]
pub enum ConfigFault {
    /// The Multiplier is 0.
    ZeroMultiplier,
    /// The Scale is above 63.
    ScaleTooLarge,
    /// A TLV type is named that cannot be supported.
    UnknownTlv,
}

/// The configuration of a session. Contracts see it as its parts.
#[derive(Clone, Copy, Debug, PartialEq, Eq)]
pub struct Config {
    parts: ConfigParts,
}

impl Model for Config {
    ghost use Rattle.refl_types.specs.declared.config.ConfigParts.{ConfigParts};
    ghost use Rattle.refl_types.specs.Configs.{IsConfig};

    ghost Value = { ConfigParts };

    ghost view = { λ c. c.parts };

    ghost invariant = { λ c. IsConfig c.parts };

    ghost inverse = { λ p. record { parts = p } };
}

/// The TLV types that may be supported, as bits: Timestamp Information and Direct Measurement (RFC 8972, sections 4.3
/// and 4.5), Destination Node Address and Return Path (RFC 9503, sections 3 and 4).
const KNOWN_TLVS: u32 = 1 << 3 | 1 << 5 | 1 << 9 | 1 << 10;

/// Whether no TLV type is named by a bit but 3, 5, 9 and 10.
pub fn are_known_tlvs(tlvs: u32) -> bool
    ensures { result ≡ are_known_tlvs tlvs }
{
    tlvs & !KNOWN_TLVS == 0
}

impl Config {
    ghost use Rattle.refl_types.specs.Configs.{IsConfig};

    /// Makes a configuration. The first of the faults is answered, in the order of `ConfigFault`.
    pub fn make(parts: ConfigParts) -> Result<Config, ConfigFault>
        ensures { result ≡ config_made parts }
    {
        if parts.multiplier == 0 {
            return Err(ConfigFault::ZeroMultiplier);
        }
        if parts.scale > 63 {
            return Err(ConfigFault::ScaleTooLarge);
        }
        if !are_known_tlvs(parts.tlvs) {
            return Err(ConfigFault::UnknownTlv);
        }
        Ok(Config { parts })
    }

    /// Its parts.
    pub fn parts(&self) -> ConfigParts
        ensures value { result ≡ self.now }
        ensures sound { IsConfig result }
    {
        self.parts
    }

    /// Its parts, where they are.
    pub fn as_parts(&self) -> &ConfigParts
        ensures value { result.now ≡ self.now }
        ensures sound { IsConfig result.now }
    {
        &self.parts
    }
}
