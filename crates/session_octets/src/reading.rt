//! Each reader gives its part and the octets after it.

ghost use Rattle.std.specs.Prelude.{◌≡◌, ◌*◌, ◌<◌, ◌≤◌, true, None, IfOk, IfSome};
ghost use Rattle.octet_format.specs.Reading.{Gives, octet_at};
ghost use Rattle.refl_types.specs.Configs.{are_known_tlvs, IsConfig};
ghost use Rattle.refl_types.specs.Spelling.{config_octets, FitsConfig};
ghost use Rattle.refl_types.specs.declared.config.ConfigParts as parts;
ghost use Rattle.session_octets.specs.Reading.{address_at, endpoint_at, ssid_at, key_at, extra_at, tlvs_at, block_at, config_at};

use octet_format::{Unread, array4_at, array16_at, array64_at, octet_in, u16_at, zeros_at};
use refl_types::{Address, Clock, Config, ConfigParts, Endpoint, Extra, Key, Mode, are_known_tlvs};

#[tactic(auto, unfolding(crate::specs::Reading::address_at))]
fn address_at(octets: &[u8]) -> Result<(Address, &[u8]), Unread>
    ensures { Gives (λ x. (x.0, x.1.now)) result (address_at octets.now) }
{
    match octets {
        [] => Err(Unread::More),
        [4, rest @ ..] => {
            let (a, rest) = array4_at(rest)?;
            let rest = zeros_at(12, rest)?;
            Ok((Address::V4(a), rest))
        }
        [6, rest @ ..] => {
            let (a, rest) = array16_at(rest)?;
            Ok((Address::V6(a), rest))
        }
        [_, ..] => Err(Unread::Bad),
    }
}

/// Reads an endpoint of 19 octets.
#[tactic(auto, unfolding(crate::specs::Reading::endpoint_at))]
pub fn endpoint_at(octets: &[u8]) -> Result<(Endpoint, &[u8]), Unread>
    ensures { Gives (λ x. (x.0, x.1.now)) result (endpoint_at octets.now) }
{
    let (address, rest) = address_at(octets)?;
    let (port, rest) = u16_at(rest)?;
    Ok((Endpoint { address, port }, rest))
}

#[tactic(auto, unfolding(crate::specs::Reading::ssid_at))]
fn ssid_at(mode: u8, octets: &[u8]) -> Result<(u16, &[u8]), Unread>
    ensures { Gives (λ x. (x.0, x.1.now)) result (ssid_at mode octets.now) }
{
    if mode == 2 {
        let rest = zeros_at(2, octets)?;
        return Ok((0, rest));
    }
    u16_at(octets)
}

/// Reads a key of 24 octets. In mode Twamp its SSID is 0.
#[tactic(auto, unfolding(crate::specs::Reading::key_at))]
pub fn key_at(octets: &[u8]) -> Result<(Key, &[u8]), Unread>
    ensures { Gives (λ x. (x.0, x.1.now)) result (key_at octets.now) }
{
    let (local, rest) = u16_at(octets)?;
    let (peer, rest) = endpoint_at(rest)?;
    let (mode, rest) = octet_in(0, 2, rest)?;
    let (ssid, rest) = ssid_at(mode, rest)?;
    let mode = if mode == 0 {
        Mode::Plain
    } else if mode == 1 {
        Mode::Auth
    } else {
        Mode::Twamp
    };
    Ok((
        Key {
            local,
            peer,
            mode,
            ssid,
        },
        rest,
    ))
}

/// Reads an extra of 3 octets, which are zeros but in mode Twamp.
#[tactic(auto, unfolding(crate::specs::Reading::extra_at))]
pub fn extra_at(mode: Mode, octets: &[u8]) -> Result<(Extra, &[u8]), Unread>
    ensures { Gives (λ x. (x.0, x.1.now)) result (extra_at mode octets.now) }
{
    match mode {
        Mode::Twamp => {
            let (symmetrical, rest) = octet_in(0, 1, octets)?;
            let (reflect, rest) = u16_at(rest)?;
            Ok((
                Extra {
                    symmetrical: symmetrical == 1,
                    reflect,
                },
                rest,
            ))
        }
        Mode::Plain | Mode::Auth => {
            let rest = zeros_at(3, octets)?;
            Ok((
                Extra {
                    symmetrical: false,
                    reflect: 0,
                },
                rest,
            ))
        }
    }
}

/// One octet of a number whose bits name TLV types, where it has a weight of 1 or 256.
fn tlvs_octet_at(weight: u16, octets: &[u8]) -> Result<(u8, &[u8]), Unread>
    requires { weight ≤ 256 }
    ensures range { IfOk result (λ x. x.0 < 256) }
    ensures known { IfOk result (λ x. are_known_tlvs (x.0 * weight) ≡ true) }
    ensures value { Gives (λ x. (x.0, x.1.now)) result (octet_at (λ b. are_known_tlvs (b * weight)) octets.now) }
{
    match octets {
        [] => Err(Unread::More),
        [b, rest @ ..] => {
            if are_known_tlvs(u32::from(*b) * u32::from(weight)) {
                Ok((*b, rest))
            } else {
                Err(Unread::Bad)
            }
        }
    }
}

/// Four octets whose bits name no TLV type but such as may be supported.
#[tactic(auto, unfolding(crate::specs::Reading::tlvs_at))]
fn tlvs_at(octets: &[u8]) -> Result<(u32, &[u8]), Unread>
    ensures known { IfOk result (λ x. are_known_tlvs x.0 ≡ true) }
    ensures value { Gives (λ x. (x.0, x.1.now)) result (tlvs_at octets.now) }
{
    let rest = zeros_at(2, octets)?;
    let (high, rest) = tlvs_octet_at(256, rest)?;
    let (low, rest) = tlvs_octet_at(1, rest)?;
    Ok((u32::from(high) * 256 + u32::from(low), rest))
}

#[tactic(auto, unfolding(crate::specs::Reading::block_at))]
fn block_at(has_key: bool, octets: &[u8]) -> Result<(Option<[u8; 64]>, &[u8]), Unread>
    ensures { Gives (λ x. (x.0, x.1.now)) result (block_at has_key octets.now) }
{
    if has_key {
        let (block, rest) = array64_at(octets)?;
        Ok((Some(block), rest))
    } else {
        let rest = zeros_at(64, octets)?;
        Ok((None, rest))
    }
}

/// Reads the parts of a configuration, of 76 octets.
#[tactic(auto, unfolding(crate::specs::Reading::config_at))]
pub fn config_at(octets: &[u8]) -> Result<(ConfigParts, &[u8]), Unread>
    ensures value { Gives (λ x. (x.0, x.1.now)) result (config_at octets.now) }
    ensures sound { IfOk result (λ x. IsConfig x.0) }
{
    let (flags, rest) = octet_in(0, 15, octets)?;
    let (offset, rest) = octet_in(0, 255, rest)?;
    let (scale, rest) = octet_in(0, 63, rest)?;
    let (multiplier, rest) = octet_in(1, 255, rest)?;
    let (info, rest) = array4_at(rest)?;
    let (tlvs, rest) = tlvs_at(rest)?;
    let (key, rest) = block_at((flags / 4) % 2 == 1, rest)?;
    let parts = ConfigParts {
        stateful: flags % 2 == 1,
        clock: if (flags / 2) % 2 == 1 {
            Clock::Ptp
        } else {
            Clock::Ntp
        },
        offset,
        synced: (flags / 8) % 2 == 1,
        scale,
        multiplier,
        info,
        tlvs,
        key,
    };
    Ok((parts, rest))
}

/// The configuration that just these octets spell.
pub fn config_of(octets: &[u8; 76]) -> Option<Config>
    ensures some { IfSome result (λ c. FitsConfig c × (octets.now ≡ config_octets c)) }
    ensures none { result ≡ None → (c : parts.ConfigParts) → FitsConfig c → octets.now ≡ config_octets c → ⊥ }
{
    match config_at(octets) {
        Ok((parts, _)) => match Config::make(parts) {
            Ok(config) => Some(config),
            Err(_) => unreachable!(),
        },
        Err(_) => None,
    }
}
