//! A configuration that keeps its HMAC key with both blocks hashed (RFC 2104, section 4), so that each HMAC under it
//! begins behind them. It is made once for each configuration, and lent.
#![tactic(auto)]

ghost use Rattle.std.specs.Prelude.{◌≡◌};

use hmac_sha256::KeyedHash;
use refl_types::{Config, ConfigParts};
use std::marker::Model;

/// A configuration, with the blocks of its HMAC key hashed where it has one. Contracts see it as its parts.
#[derive(Drop)]
pub struct KeyedConfig {
    config: Config,
    hmac_key: Option<KeyedHash>,
}

impl Model for KeyedConfig {
    ghost use Rattle.std.specs.Prelude.{◌≡◌};
    ghost use Rattle.refl_types.specs.declared.config.ConfigParts.{ConfigParts};

    ghost Value = { ConfigParts };

    ghost view = { λ k. k.config };

    ghost invariant = { λ k. k.hmac_key ≡ k.config.key };
}

/// The HMAC key of a configuration, with both blocks hashed.
fn hashed_key(config: &Config) -> Option<KeyedHash>
    ensures { result ≡ config.now.key }
{
    match &config.as_parts().key {
        Some(block) => Some(KeyedHash::of(block)),
        None => None,
    }
}

impl KeyedConfig {
    ghost use Rattle.refl_types.specs.Configs.{IsConfig};

    /// Keeps a configuration, and hashes the blocks of its HMAC key if it has one.
    pub fn of(config: &Config) -> KeyedConfig
        ensures { result ≡ config.now }
    {
        KeyedConfig {
            config: *config,
            hmac_key: hashed_key(config),
        }
    }

    /// The configuration.
    #[inline(always)]
    pub fn config(&self) -> &Config
        ensures { result.now ≡ self.now }
    {
        &self.config
    }

    /// Its parts, where they are.
    #[inline(always)]
    pub fn as_parts(&self) -> &ConfigParts
        ensures value { result.now ≡ self.now }
        ensures sound { IsConfig result.now }
    {
        self.config.as_parts()
    }

    /// Its HMAC key, if it has one.
    #[inline(always)]
    pub fn hmac_key(&self) -> &Option<KeyedHash>
        ensures { result.now ≡ self.now.key }
    {
        &self.hmac_key
    }
}
