//! The faults of a configuration file.

ghost use Rattle.std.specs.Prelude.{◌≡◌, IfSome, IfOk, Some, option_map, string_bytes, decimal};
ghost use Rattle.conf_text.specs.declared.fault.ConfFault.TheVariants.{Memory};
ghost use Rattle.conf_text.specs.Faults as spec;
ghost use Rattle.conf_text.specs.Faults.{fault_of, Tells};

use itoa::Buffer;
use std::alloc::{AllocError, AllocFailed, Global};

/// Why a text is no configuration. Each path is its keys, joined by dots.
#[derive(Debug, Drop)]
pub enum ConfFault {
    /// There was no memory.
    Memory,
    /// The text is no TOML.
    NotToml,
    /// A table has a key that is none of its own.
    Unknown(String),
    /// A key isn't there.
    Missing(String),
    /// A value is none that its key may have.
    BadValue(String),
    /// A number or a count is out of its range.
    Limit(String),
}

impl From<AllocError> for ConfFault {
    ghost from_gives = { λ _ e. e ≡ Memory };

    fn from(_: AllocError) -> ConfFault {
        ConfFault::Memory
    }
}

impl<T: Drop> From<AllocFailed<T>> for ConfFault {
    ghost from_gives = { λ _ e. e ≡ Memory };

    fn from(_: AllocFailed<T>) -> ConfFault {
        ConfFault::Memory
    }
}

pub(crate) fn unknown(alloc: Global, path: &str) -> ConfFault
    ensures { Tells result (spec.Unknown path.now) }
{
    match String::from_str(alloc, path) {
        Ok(path) => ConfFault::Unknown(path),
        Err(_) => ConfFault::Memory,
    }
}

pub(crate) fn missing(alloc: Global, path: &str) -> ConfFault
    ensures { Tells result (spec.Missing path.now) }
{
    match String::from_str(alloc, path) {
        Ok(path) => ConfFault::Missing(path),
        Err(_) => ConfFault::Memory,
    }
}

pub(crate) fn bad_value(alloc: Global, path: &str) -> ConfFault
    ensures { Tells result (spec.BadValue path.now) }
{
    match String::from_str(alloc, path) {
        Ok(path) => ConfFault::BadValue(path),
        Err(_) => ConfFault::Memory,
    }
}

pub(crate) fn limit(alloc: Global, path: &str) -> ConfFault
    ensures { Tells result (spec.Limit path.now) }
{
    match String::from_str(alloc, path) {
        Ok(path) => ConfFault::Limit(path),
        Err(_) => ConfFault::Memory,
    }
}

/// A path below a key.
pub(crate) fn step(alloc: Global, key: &str, path: &str) -> Result<String, AllocError>
    ensures { IfOk result (λ s. string_bytes s ≡ spec.step key.now path.now) }
{
    let mut all = String::from_str(alloc, key)?;
    all.push_str(".")?;
    all.push_str(path)?;
    Ok(all)
}

/// The path of a place of a list.
pub(crate) fn place(alloc: Global, key: &str, index: usize) -> Result<String, AllocError>
    ensures { IfOk result (λ s. string_bytes s ≡ spec.step key.now (decimal index)) }
{
    let mut buffer = Buffer::new();
    step(alloc, key, buffer.format(index))
}

/// A fault of a table, where the table stands at a key.
pub(crate) fn below(alloc: Global, key: &str, fault: ConfFault) -> ConfFault
    ensures { IfSome (fault_of result) (λ f. option_map (spec.below key.now) (fault_of fault) ≡ Some f) }
{
    match fault {
        ConfFault::Memory => ConfFault::Memory,
        ConfFault::NotToml => ConfFault::NotToml,
        ConfFault::Unknown(path) => match step(alloc, key, &path) {
            Ok(path) => ConfFault::Unknown(path),
            Err(_) => ConfFault::Memory,
        },
        ConfFault::Missing(path) => match step(alloc, key, &path) {
            Ok(path) => ConfFault::Missing(path),
            Err(_) => ConfFault::Memory,
        },
        ConfFault::BadValue(path) => match step(alloc, key, &path) {
            Ok(path) => ConfFault::BadValue(path),
            Err(_) => ConfFault::Memory,
        },
        ConfFault::Limit(path) => match step(alloc, key, &path) {
            Ok(path) => ConfFault::Limit(path),
            Err(_) => ConfFault::Memory,
        },
    }
}
