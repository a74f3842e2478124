//! The HMAC TLV of a reply (RFC 8972, section 4.8).

ghost use Rattle.std.specs.Prelude.{◌≡◌, ◌+◌, ◌≤◌, IsSome, length};
ghost use Rattle.refl_types.specs.Spelling.{block_octets};
ghost use Rattle.tlv_integrity.specs.Sealing.{sealed};

use hmac_sha256::KeyedHash;
use keyed_config::KeyedConfig;
use octet_format::put;
use refl_types::Config;
use tlv_chain::HEADER_LEN;

fn seal_under(key: &KeyedHash, sequence: &[u8; 4], out: &mut [u8], at: usize)
    requires { at + 20 ≤ length out.old }
    ensures { out.new ≡ sealed key.now sequence.now at out.old }
{
    let (before, _) = out.split_at(at);
    let mac = key.mac128(sequence, before);
    put(out, at, &[0]);
    put(out, at + HEADER_LEN, &mac);
}

/// Writes the flags and the value of the HMAC TLV at a place of a reply's tail, which cover the reply's Sequence Number
/// and what stands before it. All other octets stay.
pub fn seal(config: &Config, sequence: &[u8; 4], out: &mut [u8], at: usize)
    requires key { IsSome config.now.key }
    requires room { at + 20 ≤ length out.old }
    ensures { out.new ≡ sealed (block_octets config.now.key) sequence.now at out.old }
{
    seal_keyed(&KeyedConfig::of(config), sequence, out, at);
}

/// The same, where the blocks of the key are hashed.
#[inline(never)]
pub fn seal_keyed(config: &KeyedConfig, sequence: &[u8; 4], out: &mut [u8], at: usize)
    requires key { IsSome config.now.key }
    requires room { at + 20 ≤ length out.old }
    ensures { out.new ≡ sealed (block_octets config.now.key) sequence.now at out.old }
{
    if let Some(key) = config.hmac_key() {
        seal_under(key, sequence, out, at);
    }
}
