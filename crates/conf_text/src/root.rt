//! The root of the file.

ghost use Rattle.std.specs.Prelude.{◌≡◌, ◌++◌, ◌∷◌, [], codes};
ghost use Rattle.toml.specs.Data.{get_member};
ghost use Rattle.toml.specs.View.{view, table_view, array_view};
ghost use Rattle.std.specs.List.{list_any};
ghost use Rattle.refl_types.specs.Same.{same_endpoint, same_config};
ghost use Rattle.conf_text.specs.Faults.{Gives};
ghost use Rattle.conf_text.specs.Tables.{places, required, or_default, maybe, text_of};
ghost use Rattle.conf_text.specs.File as spec;

use crate::configs::{Named, find_config};
use crate::fault::{ConfFault, bad_value, missing, place};
use crate::sessions::{Provided, sessions_of};
use crate::table::{
    counted, endpoint_of, find, known_keys, len_of, list_of, needed, number_at, str_of,
};
use refl_types::{Config, Endpoint, LocalAddr};
use std::alloc::{AllocError, Global};
use text_forms::Name;
use toml::value::Array;
use toml::{Table, Value};

const FILE_KEYS: [&str; 11] = [
    "locals", "workers", "slots", "rows", "limit", "turns", "control", "operator", "twamp",
    "configs", "sessions",
];

/// The greatest number that TOML can write.
const MOST: u64 = 9_223_372_036_854_775_807;

/// The numbers of the file.
#[derive(Clone, Copy, Debug, PartialEq, Eq)]
pub struct Numbers {
    pub workers: u32,
    pub slots: u32,
    pub rows: u32,
    pub limit: u64,
    pub turns: u64,
}

/// Refuses unknown keys, and misses those that must be there.
#[tactic(auto, using(crate::proofs::FaultFacts::passed))]
pub(crate) fn keys_of(alloc: Global, table: &Table) -> Result<(), ConfFault>
    ensures { Gives (λ _. tt) result (spec.keys_of (table_view table.now)) }
{
    known_keys(alloc, &FILE_KEYS, table)?;
    needed(alloc, table, "locals")?;
    needed(alloc, table, "configs")?;
    match find(table, "control") {
        None => Ok(()),
        Some(_) => needed(alloc, table, "twamp"),
    }
}

fn is_same_endpoint(endpoint: &Endpoint, other: &Endpoint) -> bool
    ensures { result ≡ same_endpoint endpoint.now other.now }
{
    endpoint == other
}

fn is_among(endpoint: &Endpoint, found: &[Endpoint]) -> bool
    ensures { result ≡ list_any (same_endpoint endpoint.now) found.now }
{
    found.iter().any(|other| is_same_endpoint(endpoint, other))
}

/// The local address that stands at a path, and that none before it equals.
#[tactic(auto, using(crate::proofs::FaultFacts::passed))]
fn local_of(
    alloc: Global,
    found: &[Endpoint],
    path: &str,
    value: &Value,
) -> Result<Endpoint, ConfFault>
    ensures { Gives (λ e. found.now ++ e ∷ []) result (spec.local_of found.now path.now (view value.now)) }
{
    let endpoint = endpoint_of(alloc, path, value)?;
    if is_among(&endpoint, found) {
        return Err(bad_value(alloc, path));
    }
    Ok(endpoint)
}

fn local_places(alloc: Global, list: &Array) -> Result<Vec<LocalAddr>, ConfFault>
    ensures { Gives (λ v. v.items) result (places spec.local_of (codes "locals") 0 [] (array_view list.now)) }
{
    let mut found = Vec::new(alloc);
    for index in 0..list.len() {
        let path = place(alloc, "locals", index)?;
        let local = local_of(alloc, &found, &path, &list[index])?;
        found.push(local)?;
    }
    Ok(found)
}

#[tactic(auto, using(crate::proofs::FaultFacts::passed))]
fn locals_of(alloc: Global, value: &Value) -> Result<Vec<LocalAddr>, ConfFault>
    ensures { Gives (λ v. v.items) result (spec.locals_of (view value.now)) }
{
    let list = list_of(alloc, "locals", value)?;
    counted(alloc, "locals", 1, 16, len_of(list))?;
    local_places(alloc, list)
}

/// The local addresses, which must be there.
pub(crate) fn required_locals(alloc: Global, table: &Table) -> Result<Vec<LocalAddr>, ConfFault>
    ensures { Gives (λ v. v.items) result (required spec.locals_of (codes "locals") (get_member (codes "locals") (table_view table.now))) }
{
    match find(table, "locals") {
        None => Err(missing(alloc, "locals")),
        Some(value) => locals_of(alloc, value),
    }
}

/// The numbers of the file.
#[tactic(auto, using(crate::proofs::FaultFacts::passed), unfolding(crate::specs::File::numbers_of))]
pub(crate) fn numbers_of(alloc: Global, table: &Table) -> Result<Numbers, ConfFault>
    ensures { Gives (λ n. n) result (spec.numbers_of (table_view table.now)) }
{
    let workers = number_at(alloc, table, "workers", 1, 64, 1)? as u32;
    let slots = number_at(alloc, table, "slots", 1, 16384, 1024)? as u32;
    let rows = number_at(alloc, table, "rows", 1, 8191, 64)? as u32;
    let limit = number_at(alloc, table, "limit", 0, MOST, 0)?;
    let turns = number_at(alloc, table, "turns", 0, MOST, MOST)?;
    Ok(Numbers {
        workers,
        slots,
        rows,
        limit,
        turns,
    })
}

/// Whether the name is a key of `configs`, whatever stands there.
fn is_config(table: &Table, name: &str) -> bool
    ensures { result ≡ spec.has_config (get_member (codes "configs") (table_view table.now)) name.now }
{
    match find(table, "configs") {
        None => false,
        Some(value) => match value.as_table() {
            None => false,
            Some(configs) => find(configs, name).is_some(),
        },
    }
}

/// The name of the configuration of the sessions that a control connection asks for.
#[tactic(auto, using(crate::proofs::FaultFacts::passed))]
pub(crate) fn maybe_twamp(alloc: Global, table: &Table) -> Result<Option<Name>, ConfFault>
    ensures { Gives (λ n. n) result (maybe (text_of (spec.twamp_from (get_member (codes "configs") (table_view table.now))) (codes "twamp")) (get_member (codes "twamp") (table_view table.now))) }
{
    let value = match find(table, "twamp") {
        None => return Ok(None),
        Some(value) => value,
    };
    let text = str_of(alloc, "twamp", value)?;
    match Name::make(text.as_bytes()) {
        None => Err(bad_value(alloc, "twamp")),
        Some(name) => {
            if !is_config(table, text) {
                return Err(bad_value(alloc, "twamp"));
            }
            Ok(Some(name))
        }
    }
}

pub(crate) fn config_named(configs: &[Named], name: Option<Name>) -> Option<Config>
    ensures { result ≡ spec.config_named configs.now name }
{
    match name {
        None => None,
        Some(name) => find_config(&name, configs),
    }
}
