//! HMAC with SHA-256, cut to 128 bits (RFC 2104, sections 2 and 5; RFC 8762, section 4.4).
#![tactic(auto)]

ghost use Rattle.std.specs.Prelude.{◌≡◌, ◌≤◌, ◌++◌, length, take};
ghost use Rattle.hmac_sha256.specs.Hmac.{block_of, filled, pad, mac128_of};

use octet_format::put;
use sha2::{Digest, Sha256};
use std::alloc::AllocError;
use std::marker::Model;

/// Octets of a block of SHA-256, and so of a key's block form.
pub const BLOCK_LEN: usize = 64;

/// Octets of a digest of SHA-256.
const DIGEST_LEN: usize = 32;

/// Octets of an HMAC that is cut to 128 bits.
pub const MAC_LEN: usize = 16;

/// What the inner key is exclusive-ored with (RFC 2104, section 2).
const INNER_PAD: u8 = 0x36;

/// What the outer key is exclusive-ored with.
const OUTER_PAD: u8 = 0x5C;

/// The block form of a key: a key of more than 64 octets is replaced by its digest, and what lacks is zeros.
pub fn block_key(key: &[u8]) -> [u8; BLOCK_LEN]
    ensures { result ≡ block_of key.now }
{
    if key.len() > BLOCK_LEN {
        filled(&Sha256::digest(key))
    } else {
        filled(key)
    }
}

fn filled(key: &[u8]) -> [u8; BLOCK_LEN]
    requires { length key.now ≤ 64 }
    ensures { result ≡ filled key.now }
{
    let mut block = [0; BLOCK_LEN];
    put(&mut block, 0, key);
    block
}

fn padded(block: &[u8; BLOCK_LEN], octet: u8) -> [u8; BLOCK_LEN]
    ensures { result ≡ pad octet block.now }
{
    let mut out = *block;
    for i in 0..BLOCK_LEN {
        out[i] ^= octet;
    }
    out
}

fn first_half(digest: &[u8; DIGEST_LEN]) -> [u8; MAC_LEN]
    ensures { result ≡ take 16 digest.now }
{
    let mut half = [0; MAC_LEN];
    half.copy_from_slice(&digest[..MAC_LEN]);
    half
}

/// A key whose two padded blocks are hashed already, so that each HMAC under it begins behind them (RFC 2104,
/// section 4). Contracts see it as the key's block form.
#[derive(Drop)]
pub struct KeyedHash {
    block: [u8; BLOCK_LEN],
    inner: Sha256,
    outer: Sha256,
}

impl Model for KeyedHash {
    ghost use Rattle.std.specs.Prelude.{ℕ, List};
    ghost use Rattle.sha2.specs.Hashers.{Holds256};
    ghost use Rattle.hmac_sha256.specs.Hmac.{pad};

    ghost Value = { List ℕ };

    ghost view = { λ k. k.block };

    ghost invariant = { λ k. Holds256 k.inner (pad 0x36 k.block) × Holds256 k.outer (pad 0x5C k.block) };
}

impl KeyedHash {
    ghost use Rattle.std.specs.Prelude.{◌≡◌, ◌++◌};
    ghost use Rattle.hmac_sha256.specs.Hmac.{mac128_of};

    /// Hashes the padded blocks of a key in its block form.
    pub fn of(block: &[u8; BLOCK_LEN]) -> KeyedHash
        ensures { result ≡ block.now }
    {
        KeyedHash {
            block: *block,
            inner: Sha256::new_with_prefix(padded(block, INNER_PAD)),
            outer: Sha256::new_with_prefix(padded(block, OUTER_PAD)),
        }
    }

    /// The first 16 octets of the HMAC under this key of `first` followed by `second`.
    #[tactic(auto, unfolding(crate::specs::Hmac::mac128_of, crate::specs::Hmac::hmac))]
    pub fn mac128(&self, first: &[u8], second: &[u8]) -> [u8; MAC_LEN]
        ensures { result ≡ mac128_of self.now (first.now ++ second.now) }
    {
        let mut inner = copied(&self.inner);
        inner.update(first);
        inner.update(second);
        let mut outer = copied(&self.outer);
        outer.update(inner.finalize());
        first_half(&outer.finalize())
    }
}

/// Copying a hasher takes no memory, so it can't fail.
fn copied(hasher: &Sha256) -> Sha256
    ensures { result ≡ hasher.now }
{
    let copy: Result<Sha256, AllocError> = hasher.clone();
    match copy {
        Ok(copy) => copy,
        Err(_) => unreachable!(),
    }
}

/// The first 16 octets of the HMAC, under a key in its block form, of `first` followed by `second`.
pub fn mac128(block: &[u8; BLOCK_LEN], first: &[u8], second: &[u8]) -> [u8; MAC_LEN]
    ensures { result ≡ mac128_of block.now (first.now ++ second.now) }
{
    KeyedHash::of(block).mac128(first, second)
}

#[cfg(test)]
mod tests {
    use super::*;
    use std::process::Abort;

    fn check(rt: &impl Abort, key: &[u8], text: &[u8], want: [u8; MAC_LEN]) {
        assert_eq!(rt; mac128(&block_key(key), text, b""), want);
        assert_eq!(rt; mac128(&block_key(key), b"", text), want);
    }

    /// RFC 4231, section 4.2.
    #[test]
    fn a_short_key_is_filled_with_zeros(rt: HostRuntime) {
        check(
            &rt,
            &[0x0B; 20],
            b"Hi There",
            [
                0xb0, 0x34, 0x4c, 0x61, 0xd8, 0xdb, 0x38, 0x53, 0x5c, 0xa8, 0xaf, 0xce, 0xaf, 0x0b,
                0xf1, 0x2b,
            ],
        );
    }

    /// RFC 4231, section 4.3.
    #[test]
    fn a_key_may_be_shorter_than_a_digest(rt: HostRuntime) {
        check(
            &rt,
            b"Jefe",
            b"what do ya want for nothing?",
            [
                0x5b, 0xdc, 0xc1, 0x46, 0xbf, 0x60, 0x75, 0x4e, 0x6a, 0x04, 0x24, 0x26, 0x08, 0x95,
                0x75, 0xc7,
            ],
        );
    }

    /// RFC 4231, section 4.6.
    #[test]
    fn the_first_128_bits_are_kept(rt: HostRuntime) {
        check(
            &rt,
            &[0x0C; 20],
            b"Test With Truncation",
            [
                0xa3, 0xb6, 0x16, 0x74, 0x73, 0x10, 0x0e, 0xe0, 0x6e, 0x0c, 0x79, 0x6c, 0x29, 0x55,
                0x55, 0x2b,
            ],
        );
    }

    /// RFC 4231, section 4.7.
    #[test]
    fn a_key_longer_than_a_block_is_hashed_first(rt: HostRuntime) {
        check(
            &rt,
            &[0xAA; 131],
            b"Test Using Larger Than Block-Size Key - Hash Key First",
            [
                0x60, 0xe4, 0x31, 0x59, 0x1e, 0xe0, 0xb6, 0x7f, 0x0d, 0x8a, 0x26, 0xaa, 0xcb, 0xf5,
                0xb7, 0x7f,
            ],
        );
    }
}
