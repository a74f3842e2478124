//! One table of the file: which keys it has, and its values of the plain types.

ghost use Rattle.std.specs.Prelude.{◌≡◌, ◌≤◌, List, ℕ, map, option_map, IfOk, Ok, Err, Some};
ghost use Rattle.toml.specs.Data.{get_member};
ghost use Rattle.toml.specs.View.{view, table_view, array_view};
ghost use Rattle.conf_text.specs.Faults.{Gives};
ghost use Rattle.conf_text.specs.Tables as spec;
ghost use Rattle.text_forms.specs.Endpoints.{endpoint_from};

use crate::fault::{ConfFault, bad_value, limit, missing, unknown};
use refl_types::Endpoint;
use std::alloc::Global;
use text_forms::endpoint_from;
use toml::value::Array;
use toml::{Table, Value};

/// The value at a key.
pub(crate) fn find<'a>(table: &'a Table, key: &str) -> Option<&'a Value>
    ensures { option_map (λ x. view x.now) result ≡ get_member key.now (table_view table.now) }
{
    table.get(key)
}

/// Whether the text is one of these.
fn is_among(key: &str, keys: &[&str]) -> bool
    ensures { result ≡ spec.is_among key.now (map (λ k. k.now) keys.now) }
{
    keys.contains(&key)
}

/// Refuses a table with a key that is none of these.
pub(crate) fn known_keys(alloc: Global, known: &[&str], table: &Table) -> Result<(), ConfFault>
    ensures { Gives (λ _. tt) result (spec.known_keys (map (λ k. k.now) known.now) (table_view table.now)) }
{
    for (key, _) in table.iter() {
        if !is_among(key.as_str(), known) {
            return Err(unknown(alloc, key.as_str()));
        }
    }
    Ok(())
}

/// Refuses a table without this key.
pub(crate) fn needed(alloc: Global, table: &Table, key: &str) -> Result<(), ConfFault>
    ensures { Gives (λ _. tt) result (spec.needed key.now (get_member key.now (table_view table.now))) }
{
    match find(table, key) {
        Some(_) => Ok(()),
        None => Err(missing(alloc, key)),
    }
}

/// A number within its range.
pub(crate) fn number_of(
    alloc: Global,
    path: &str,
    low: u64,
    high: u64,
    value: &Value,
) -> Result<u64, ConfFault>
    ensures value { Gives (λ n. n) result (spec.number_of path.now low high (view value.now)) }
    ensures range { IfOk result (λ n. (low ≤ n) × (n ≤ high)) }
{
    match value.as_integer() {
        None => Err(bad_value(alloc, path)),
        Some(number) => {
            if number < 0 {
                return Err(limit(alloc, path));
            }
            let number = number as u64;
            if number < low || high < number {
                return Err(limit(alloc, path));
            }
            Ok(number)
        }
    }
}

/// The number at a key, which may be left out.
pub(crate) fn number_at(
    alloc: Global,
    table: &Table,
    key: &str,
    low: u64,
    high: u64,
    default: u64,
) -> Result<u64, ConfFault>
    requires { (low ≤ default) × (default ≤ high) }
    ensures value { Gives (λ n. n) result (spec.number_at key.now low high default (table_view table.now)) }
    ensures range { IfOk result (λ n. (low ≤ n) × (n ≤ high)) }
{
    match find(table, key) {
        None => Ok(default),
        Some(value) => number_of(alloc, key, low, high, value),
    }
}

/// A flag.
fn flag_of(alloc: Global, path: &str, value: &Value) -> Result<bool, ConfFault>
    ensures { Gives (λ b. b) result (spec.flag_of path.now (view value.now)) }
{
    match value.as_bool() {
        Some(flag) => Ok(flag),
        None => Err(bad_value(alloc, path)),
    }
}

/// The flag at a key, which may be left out.
pub(crate) fn flag_at(
    alloc: Global,
    table: &Table,
    key: &str,
    default: bool,
) -> Result<bool, ConfFault>
    ensures { Gives (λ b. b) result (spec.flag_at key.now default (table_view table.now)) }
{
    match find(table, key) {
        None => Ok(default),
        Some(value) => flag_of(alloc, key, value),
    }
}

/// An endpoint.
pub(crate) fn endpoint_of(alloc: Global, path: &str, value: &Value) -> Result<Endpoint, ConfFault>
    ensures { Gives (λ e. e) result (spec.text_of endpoint_from path.now (view value.now)) }
{
    match value.as_str() {
        None => Err(bad_value(alloc, path)),
        Some(text) => match endpoint_from(text.as_bytes()) {
            Some(endpoint) => Ok(endpoint),
            None => Err(bad_value(alloc, path)),
        },
    }
}

/// The endpoint at a key, which may be left out.
#[tactic(auto, using(crate::proofs::FaultFacts::passed))]
pub(crate) fn maybe_endpoint(
    alloc: Global,
    table: &Table,
    key: &str,
) -> Result<Option<Endpoint>, ConfFault>
    ensures { Gives (λ e. e) result (spec.maybe (spec.text_of endpoint_from key.now) (get_member key.now (table_view table.now))) }
{
    match find(table, key) {
        None => Ok(None),
        Some(value) => {
            let endpoint = endpoint_of(alloc, key, value)?;
            Ok(Some(endpoint))
        }
    }
}

/// A list.
pub(crate) fn list_of<'a>(
    alloc: Global,
    path: &str,
    value: &'a Value,
) -> Result<&'a Array, ConfFault>
    ensures { Gives (λ v. array_view v.now) result (spec.list_of path.now (view value.now)) }
{
    match value.as_array() {
        Some(list) => Ok(list),
        None => Err(bad_value(alloc, path)),
    }
}

/// A count within its range.
pub(crate) fn counted(
    alloc: Global,
    path: &str,
    low: u64,
    high: u64,
    count: u64,
) -> Result<(), ConfFault>
    ensures { Gives (λ _. tt) result (spec.counted path.now low high count) }
{
    if count < low || high < count {
        return Err(limit(alloc, path));
    }
    Ok(())
}

/// How many places a list has.
pub(crate) fn len_of(list: &Array) -> u64
    ensures { result ≡ spec.items_len (array_view list.now) }
{
    list.len() as u64
}

/// How many keys a table has.
pub(crate) fn keys_len(table: &Table) -> u64
    ensures { result ≡ spec.members_len (table_view table.now) }
{
    table.len() as u64
}

/// A text.
pub(crate) fn str_of<'a>(alloc: Global, path: &str, value: &'a Value) -> Result<&'a str, ConfFault>
    ensures { Gives (λ s. s.now) result (spec.text_of (λ s. Some s) path.now (view value.now)) }
{
    match value.as_str() {
        Some(text) => Ok(text),
        None => Err(bad_value(alloc, path)),
    }
}

/// A table.
pub(crate) fn table_of<'a>(
    alloc: Global,
    path: &str,
    value: &'a Value,
) -> Result<&'a Table, ConfFault>
    ensures { Gives (λ t. table_view t.now) result (spec.table_of path.now (view value.now)) }
{
    match value.as_table() {
        Some(table) => Ok(table),
        None => Err(bad_value(alloc, path)),
    }
}

/// The endpoint at a key, which must be there.
pub(crate) fn required_endpoint(
    alloc: Global,
    table: &Table,
    key: &str,
) -> Result<Endpoint, ConfFault>
    ensures { Gives (λ e. e) result (spec.required (spec.text_of endpoint_from key.now) key.now (get_member key.now (table_view table.now))) }
{
    match find(table, key) {
        None => Err(missing(alloc, key)),
        Some(value) => endpoint_of(alloc, key, value),
    }
}
