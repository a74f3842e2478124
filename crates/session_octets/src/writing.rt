//! Each writer gives the one spelling of its value.

ghost use Rattle.std.specs.Prelude.{◌≡◌, ◌+◌, ◌≤◌, ◌++◌, length, take, drop};
ghost use Rattle.refl_types.specs.Spelling.{block_octets, config_flags, config_octets, endpoint_octets, extra_octets, flag, key_octets, mode_code};

use octet_format::put;
use refl_types::{Clock, Config, ConfigParts, Endpoint, Extra, Key, Mode};

/// The 19 octets of an endpoint: its family, its address in 16 octets and its port.
#[inline]
pub fn endpoint_octets(endpoint: &Endpoint) -> [u8; 19]
    ensures value { result ≡ endpoint_octets endpoint.now }
    ensures len { length (endpoint_octets endpoint.now) ≡ 19 }
{
    let mut octets = [0; 19];
    put(&mut octets, 0, &[endpoint.address.family()]);
    put(&mut octets, 1, &endpoint.address.octets());
    put(&mut octets, 17, &endpoint.port.to_be_bytes());
    octets
}

fn mode_code(mode: Mode) -> u8
    ensures { result ≡ mode_code mode }
{
    match mode {
        Mode::Plain => 0,
        Mode::Auth => 1,
        Mode::Twamp => 2,
    }
}

/// The 24 octets of a key.
pub fn key_octets(key: &Key) -> [u8; 24]
    ensures value { result ≡ key_octets key.now }
    ensures len { length (key_octets key.now) ≡ 24 }
{
    let mut octets = [0; 24];
    put(&mut octets, 0, &key.local.to_be_bytes());
    put(&mut octets, 2, &endpoint_octets(&key.peer));
    put(&mut octets, 21, &[mode_code(key.mode)]);
    put(&mut octets, 22, &key.ssid.to_be_bytes());
    octets
}

/// The 3 octets of an extra.
pub fn extra_octets(extra: &Extra) -> [u8; 3]
    ensures value { result ≡ extra_octets extra.now }
    ensures len { length (extra_octets extra.now) ≡ 3 }
{
    let [high, low] = extra.reflect.to_be_bytes();
    [u8::from(extra.symmetrical), high, low]
}

fn config_flags(parts: &ConfigParts) -> u8
    ensures { result ≡ config_flags parts.now }
{
    let stateful = u8::from(parts.stateful);
    let ptp = u8::from(matches!(&parts.clock, Clock::Ptp));
    let keyed = u8::from(parts.key.is_some());
    let synced = u8::from(parts.synced);
    stateful + 2 * ptp + 4 * keyed + 8 * synced
}

/// Writes the value of a Timestamp Information TLV at a place.
fn put_info(out: &mut [u8], at: usize, info: &[u8; 4])
    requires { at + 4 ≤ length out.old }
    ensures octets { out.new ≡ take at out.old ++ info.now ++ drop (at + length info.now) out.old }
    ensures len { length info.now ≡ 4 }
{
    put(out, at, info);
}

/// Writes a key block at a place, and leaves zeros there where there is no key.
fn put_block(out: &mut [u8], at: usize, key: &Option<[u8; 64]>)
    requires { at + 64 ≤ length out.old }
    ensures octets { out.new ≡ take at out.old ++ block_octets key.now ++ drop (at + length (block_octets key.now)) out.old }
    ensures len { length (block_octets key.now) ≡ 64 }
{
    let block = match key {
        Some(block) => block,
        None => &[0; 64],
    };
    put_array(out, at, block);
}

fn put_array(out: &mut [u8], at: usize, array: &[u8; 64])
    requires { at + 64 ≤ length out.old }
    ensures octets { out.new ≡ take at out.old ++ array.now ++ drop (at + length array.now) out.old }
    ensures len { length array.now ≡ 64 }
{
    put(out, at, array);
}

/// The 76 octets of a configuration.
pub fn config_octets(config: &Config) -> [u8; 76]
    ensures value { result ≡ config_octets config.now }
    ensures len { length (config_octets config.now) ≡ 76 }
{
    let parts = config.as_parts();
    let mut octets = [0; 76];
    let head = [
        config_flags(parts),
        parts.offset,
        parts.scale,
        parts.multiplier,
    ];
    put(&mut octets, 0, &head);
    put_info(&mut octets, 4, &parts.info);
    put(&mut octets, 8, &parts.tlvs.to_be_bytes());
    put_block(&mut octets, 12, &parts.key);
    octets
}
