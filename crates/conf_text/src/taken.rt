//! Which keys are taken by the sessions read so far, so that a session is compared with all earlier ones at once.

ghost use Rattle.std.specs.Prelude.{◌≡◌, ◌++◌, ◌∷◌, [], List, OnOk, false};
ghost use Rattle.std.specs.List.{list_any};
ghost use Rattle.refl_types.specs.Spelling.{FitsKey};
ghost use Rattle.session_key.specs.Matching.{excludes};
ghost use Rattle.conf_text.specs.declared.sessions.Provided.{Provided};
ghost use Rattle.conf_text.specs.Taken.{plain_words, ends_words, is_other, is_taken, TakenBy};

use refl_types::{Extra, Key, Mode};
use session_key::key_words;
use std::alloc::{AllocError, Global};
use std::collections::{BTreeMap, BTreeSet};

const NO_EXTRA: Extra = Extra {
    symmetrical: false,
    reflect: 0,
};

/// The keys of the sessions read so far.
#[derive(Drop)]
pub(crate) struct Taken {
    /// The mode of the sessions between two ends, by the words of the ends.
    modes: BTreeMap<[u64; 4], Mode>,
    /// The words of the keys but for their mode.
    keys: BTreeSet<[u64; 4]>,
}

/// The words of a key but for its mode.
fn plain_words(key: &Key) -> [u64; 4]
    ensures value { result ≡ plain_words key.now }
{
    let plain = Key {
        local: key.local,
        peer: key.peer,
        mode: Mode::Plain,
        ssid: key.ssid,
    };
    key_words(&plain, &NO_EXTRA)
}

/// The words of the two ends of a key.
fn ends_words(key: &Key) -> [u64; 4]
    ensures value { result ≡ ends_words key.now }
{
    let ends = Key {
        local: key.local,
        peer: key.peer,
        mode: Mode::Plain,
        ssid: 0,
    };
    key_words(&ends, &NO_EXTRA)
}

fn is_other(mode: Mode, other: Option<Mode>) -> bool
    ensures { result ≡ is_other mode other }
{
    match other {
        None => false,
        Some(other) => mode != other,
    }
}

/// Says what the type of a key says of its numbers.
fn key_fits(key: &Key)
    ensures { FitsKey key.now }
{
    let _words = key_words(key, &NO_EXTRA);
}

impl Taken {
    /// No keys.
    pub(crate) fn new(alloc: Global) -> Taken
        ensures { TakenBy result [] }
    {
        Taken {
            modes: BTreeMap::new(alloc),
            keys: BTreeSet::new(alloc),
        }
    }

    #[tactic(auto, unfolding(crate::specs::Taken::is_taken))]
    fn has(&self, key: &Key) -> bool
        ensures value { result ≡ is_taken self.now key.now }
        ensures fits { FitsKey key.now }
    {
        key_fits(key);
        let words = plain_words(key);
        let ends = ends_words(key);
        self.keys.contains(&words) || is_other(key.mode, self.modes.get(&ends).copied())
    }

    /// Whether a session's key excludes this one.
    pub(crate) fn excludes(&self, key: &Key) -> bool
        ensures { (sessions : List Provided) → TakenBy self.now sessions → result ≡ list_any (λ s. excludes key.now s.key) sessions }
    {
        self.has(key)
    }

    /// Takes the key of a session that no earlier session excludes.
    pub(crate) fn add(&mut self, key: &Key) -> Result<(), AllocError>
        ensures { OnOk result ((sessions : List Provided) (s : Provided) → s.key ≡ key.now → TakenBy self.old sessions → list_any (λ e. excludes key.now e.key) sessions ≡ false → TakenBy self.new (sessions ++ s ∷ [])) }
    {
        key_fits(key);
        let words = plain_words(key);
        let ends = ends_words(key);
        self.keys.insert(words)?;
        self.modes.insert(ends, key.mode)?;
        Ok(())
    }
}
