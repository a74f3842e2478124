//! Named configurations.

ghost use Rattle.std.specs.Prelude.{◌≡◌, ◌^◌, [], codes, true, bit_or, bytes_eq, IfOk, replicate};
ghost use Rattle.toml.specs.Data.{get_member};
ghost use Rattle.toml.specs.View.{view, table_view, array_view};
ghost use Rattle.refl_types.specs.declared.config.Clock.TheVariants.{Ntp};
ghost use Rattle.refl_types.specs.Configs.{are_known_tlvs, may_be_supported, IsConfig};
ghost use Rattle.conf_text.specs.Faults.{Gives, within};
ghost use Rattle.conf_text.specs.Tables.{places, or_default, maybe, required, text_of};
ghost use Rattle.conf_text.specs.Configs as spec;
ghost use Rattle.conf_text.specs.Sound.{AreAscending};

use crate::fault::{ConfFault, bad_value, below, missing, place};
use crate::table::{
    counted, find, flag_at, keys_len, known_keys, list_of, number_at, str_of, table_of,
};
use hex::{FromHex, FromHexError};
use hmac_sha256::block_key;
use refl_types::{Clock, Config, ConfigParts};
use std::alloc::Global;
use text_forms::Name;
use toml::value::Array;
use toml::{Table, Value};

const CONFIG_KEYS: [&str; 9] = [
    "stateful",
    "format",
    "offset",
    "synced",
    "scale",
    "multiplier",
    "key",
    "info",
    "tlvs",
];

/// The TLV types that are supported where `tlvs` isn't there: Timestamp Information and Direct Measurement.
const DEFAULT_TLVS: u32 = 1 << 3 | 1 << 5;

/// A named configuration.
#[derive(Clone, Copy, Debug, PartialEq, Eq)]
pub struct Named {
    pub name: Name,
    pub config: Config,
}

/// The format of timestamps at `format`.
fn clock_at(alloc: Global, table: &Table) -> Result<Clock, ConfFault>
    ensures { Gives (λ c. c) result (or_default Ntp (text_of spec.clock_from (codes "format")) (get_member (codes "format") (table_view table.now))) }
{
    let value = match find(table, "format") {
        None => return Ok(Clock::Ntp),
        Some(value) => value,
    };
    let text = str_of(alloc, "format", value)?;
    if text == "ntp" {
        return Ok(Clock::Ntp);
    }
    if text == "ptp" {
        return Ok(Clock::Ptp);
    }
    Err(bad_value(alloc, "format"))
}

/// An HMAC key, in its block form.
fn key_of(alloc: Global, value: &Value) -> Result<[u8; 64], ConfFault>
    ensures { Gives (λ k. k) result (spec.key_of (codes "key") (view value.now)) }
{
    let text = str_of(alloc, "key", value)?;
    let key = match hex::decode(alloc, text) {
        Ok(key) => key,
        Err(FromHexError::OutOfMemory) => return Err(ConfFault::Memory),
        Err(_) => return Err(bad_value(alloc, "key")),
    };
    counted(alloc, "key", 1, 256, key.len() as u64)?;
    Ok(block_key(&key))
}

fn maybe_key(alloc: Global, table: &Table) -> Result<Option<[u8; 64]>, ConfFault>
    ensures { Gives (λ k. k) result (maybe (spec.key_of (codes "key")) (get_member (codes "key") (table_view table.now))) }
{
    match find(table, "key") {
        None => Ok(None),
        Some(value) => {
            let key = key_of(alloc, value)?;
            Ok(Some(key))
        }
    }
}

/// The value of a Timestamp Information TLV at `info`.
fn info_at(alloc: Global, table: &Table) -> Result<[u8; 4], ConfFault>
    ensures { Gives (λ o. o) result (or_default (replicate 4 0) (text_of spec.info_from (codes "info")) (get_member (codes "info") (table_view table.now))) }
{
    let value = match find(table, "info") {
        None => return Ok([0; 4]),
        Some(value) => value,
    };
    let text = str_of(alloc, "info", value)?;
    match <[u8; 4]>::from_hex(text) {
        Ok(info) => Ok(info),
        Err(_) => Err(bad_value(alloc, "info")),
    }
}

/// The bits of TLV types with one type more.
fn with_type(found: u32, tlv: u32) -> u32
    requires { may_be_supported tlv ≡ true }
    ensures value { result ≡ bit_or found (2 ^ tlv) }
    ensures known { are_known_tlvs found ≡ true → are_known_tlvs result ≡ true }
{
    found | 1 << tlv
}

/// The bits of TLV types with the one that stands at a path, where it may be supported and isn't named yet.
fn tlv_of(alloc: Global, found: u32, path: &str, value: &Value) -> Result<u32, ConfFault>
    ensures value { Gives (λ n. n) result (spec.tlv_of found path.now (view value.now)) }
    ensures known { are_known_tlvs found ≡ true → IfOk result (λ n. are_known_tlvs n ≡ true) }
{
    let number = match value.as_integer() {
        Some(number) => number,
        None => return Err(bad_value(alloc, path)),
    };
    if number != 3 && number != 5 && number != 9 && number != 10 {
        return Err(bad_value(alloc, path));
    }
    let tlv = number as u32;
    if (found >> tlv) % 2 == 1 {
        return Err(bad_value(alloc, path));
    }
    Ok(with_type(found, tlv))
}

fn tlv_places(alloc: Global, list: &Array) -> Result<u32, ConfFault>
    ensures value { Gives (λ n. n) result (places spec.tlv_of (codes "tlvs") 0 0 (array_view list.now)) }
    ensures known { IfOk result (λ n. are_known_tlvs n ≡ true) }
{
    let mut found = 0;
    for index in 0..list.len() {
        let path = place(alloc, "tlvs", index)?;
        found = tlv_of(alloc, found, &path, &list[index])?;
    }
    Ok(found)
}

/// The TLV types at `tlvs`, as bits.
#[tactic(auto, using(crate::proofs::FaultFacts::passed))]
fn tlvs_at(alloc: Global, table: &Table) -> Result<u32, ConfFault>
    ensures value { Gives (λ n. n) result (or_default spec.default_tlvs (spec.tlvs_of (codes "tlvs")) (get_member (codes "tlvs") (table_view table.now))) }
    ensures known { IfOk result (λ n. are_known_tlvs n ≡ true) }
{
    match find(table, "tlvs") {
        None => Ok(DEFAULT_TLVS),
        Some(value) => {
            let list = list_of(alloc, "tlvs", value)?;
            tlv_places(alloc, list)
        }
    }
}

/// The configuration of parts that make one.
fn made(parts: ConfigParts) -> Config
    requires { IsConfig parts }
    ensures { result ≡ parts }
{
    match Config::make(parts) {
        Ok(config) => config,
        Err(_) => unreachable!(),
    }
}

#[tactic(auto, using(crate::proofs::FaultFacts::passed), unfolding(crate::specs::Configs::config_of))]
fn config_of(alloc: Global, table: &Table) -> Result<Config, ConfFault>
    ensures { Gives (λ c. c) result (spec.config_of (table_view table.now)) }
{
    known_keys(alloc, &CONFIG_KEYS, table)?;
    let stateful = flag_at(alloc, table, "stateful", true)?;
    let clock = clock_at(alloc, table)?;
    let offset = number_at(alloc, table, "offset", 0, 255, 0)? as u8;
    let synced = flag_at(alloc, table, "synced", false)?;
    let scale = number_at(alloc, table, "scale", 0, 63, 0)? as u8;
    let multiplier = number_at(alloc, table, "multiplier", 1, 255, 1)? as u8;
    let key = maybe_key(alloc, table)?;
    let info = info_at(alloc, table)?;
    let tlvs = tlvs_at(alloc, table)?;
    let parts = ConfigParts {
        stateful,
        clock,
        offset,
        synced,
        scale,
        multiplier,
        info,
        tlvs,
        key,
    };
    Ok(made(parts))
}

/// The configuration that stands at a name.
#[tactic(auto, using(crate::proofs::FaultFacts::passed))]
fn config_at(alloc: Global, name: &str, value: &Value) -> Result<Config, ConfFault>
    ensures { Gives (λ c. c) result (within (codes "configs") (spec.config_at name.now (view value.now))) }
{
    match inner_config(alloc, name, value) {
        Ok(config) => Ok(config),
        Err(fault) => Err(below(alloc, "configs", fault)),
    }
}

#[tactic(auto, using(crate::proofs::FaultFacts::passed))]
fn inner_config(alloc: Global, name: &str, value: &Value) -> Result<Config, ConfFault>
    ensures { Gives (λ c. c) result (spec.config_at name.now (view value.now)) }
{
    let table = table_of(alloc, name, value)?;
    match config_of(alloc, table) {
        Ok(config) => Ok(config),
        Err(fault) => Err(below(alloc, name, fault)),
    }
}

#[tactic(auto, using(crate::proofs::FaultFacts::passed), unfolding(crate::specs::Configs::named_of))]
fn named_of(alloc: Global, name: &str, value: &Value) -> Result<Named, ConfFault>
    ensures { Gives (λ n. n) result (spec.named_of name.now (view value.now)) }
{
    match Name::make(name.as_bytes()) {
        None => Err(bad_value(alloc, "configs")),
        Some(kept) => {
            let config = config_at(alloc, name, value)?;
            Ok(Named { name: kept, config })
        }
    }
}

/// The configurations of a table, in byte order of their names.
fn all_named(alloc: Global, table: &Table) -> Result<Vec<Named>, ConfFault>
    ensures value { Gives (λ v. v.items) result (spec.all_named [] (table_view table.now)) }
    ensures ascending { IfOk result (λ v. AreAscending v.items) }
{
    let mut found = Vec::new(alloc);
    for (name, value) in table.iter() {
        let named = named_of(alloc, name.as_str(), value)?;
        found.push(named)?;
    }
    Ok(found)
}

/// The configurations at `configs`.
#[tactic(auto, using(crate::proofs::FaultFacts::passed))]
fn configs_of(alloc: Global, value: &Value) -> Result<Vec<Named>, ConfFault>
    ensures value { Gives (λ v. v.items) result (spec.configs_of (view value.now)) }
    ensures ascending { IfOk result (λ v. AreAscending v.items) }
{
    let table = table_of(alloc, "configs", value)?;
    counted(alloc, "configs", 1, 256, keys_len(table))?;
    all_named(alloc, table)
}

/// The configurations at `configs`, which must be there.
pub(crate) fn required_configs(alloc: Global, table: &Table) -> Result<Vec<Named>, ConfFault>
    ensures value { Gives (λ v. v.items) result (required spec.configs_of (codes "configs") (get_member (codes "configs") (table_view table.now))) }
    ensures ascending { IfOk result (λ v. AreAscending v.items) }
{
    match find(table, "configs") {
        None => Err(missing(alloc, "configs")),
        Some(value) => configs_of(alloc, value),
    }
}

fn is_same(name: &Name, other: &Name) -> bool
    ensures { result ≡ bytes_eq name.now other.now }
{
    name.octets() == other.octets()
}

/// The configuration of a name.
pub(crate) fn find_config(name: &Name, configs: &[Named]) -> Option<Config>
    ensures { result ≡ spec.find_config name.now configs.now }
{
    for named in configs {
        if is_same(name, &named.name) {
            return Some(named.config);
        }
    }
    None
}

/// The configuration whose name this text is.
pub(crate) fn config_from(configs: &[Named], text: &[u8]) -> Option<Config>
    ensures { result ≡ spec.config_from configs.now text.now }
{
    let name = Name::make(text)?;
    find_config(&name, configs)
}
