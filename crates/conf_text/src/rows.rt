//! How many rows the configurations in use take.

ghost use Rattle.std.specs.Prelude.{◌≡◌, ◌∷◌, List, length, IfOk, OnOk, IsTrue, IsFalse};
ghost use Rattle.std.specs.List.{list_any};
ghost use Rattle.refl_types.specs.declared.config.ConfigParts.{ConfigParts};
ghost use Rattle.refl_types.specs.Same.{same_config};
ghost use Rattle.conf_text.specs.Rows.{distinct, session_configs, in_use, Keeps};

use crate::sessions::Provided;
use refl_types::Config;
use std::alloc::{AllocError, Global};

fn equals(config: &Config, other: &Config) -> bool
    ensures same { IsTrue result → config.now ≡ other.now }
    ensures differs { IsFalse result → ¬ (config.now ≡ other.now) }
{
    config == other
}

fn is_same(config: &Config, other: &Config) -> bool
    ensures { result ≡ same_config config.now other.now }
{
    equals(config, other)
}

fn is_among(config: &Config, kept: &[Config]) -> bool
    ensures { result ≡ list_any (same_config config.now) kept.now }
{
    kept.iter().any(|other| is_same(config, other))
}

/// Keeps a configuration that isn't kept yet.
fn keep(kept: &mut Vec<Config>, config: &Config) -> Result<(), AllocError>
    ensures { OnOk result ((configs : List ConfigParts) → Keeps kept.old.items configs → Keeps kept.new.items (config.now ∷ configs)) }
{
    if is_among(config, kept) {
        return Ok(());
    }
    kept.push(*config)?;
    Ok(())
}

/// The configurations of sessions, each once.
fn kept_of(alloc: Global, sessions: &[Provided]) -> Result<Vec<Config>, AllocError>
    ensures { IfOk result (λ v. Keeps v.items (session_configs sessions.now)) }
{
    let mut kept = Vec::new(alloc);
    for index in (0..sessions.len()).rev() {
        keep(&mut kept, &sessions[index].config)?;
    }
    Ok(kept)
}

/// How many configurations are in use that differ.
pub(crate) fn rows_in_use(
    alloc: Global,
    twamp: &Option<Config>,
    sessions: &[Provided],
) -> Result<u64, AllocError>
    ensures { IfOk result (λ n. n ≡ length (distinct (in_use twamp.now sessions.now))) }
{
    let mut kept = kept_of(alloc, sessions)?;
    match twamp {
        None => Ok(kept.len() as u64),
        Some(config) => {
            keep(&mut kept, config)?;
            Ok(kept.len() as u64)
        }
    }
}
