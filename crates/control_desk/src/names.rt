//! The configurations that operators name.

ghost use Rattle.std.specs.Prelude.{◌≡◌, [], ◌∷◌, ◌++◌, ◌+◌, ◌<◌, ◌≤◌, length, vec_capacity, IsTrue, ◌↔◌, IfOk};
ghost use Rattle.refl_types.specs.Same.{same_octets};
ghost use Rattle.control_desk.specs.State.{config_in};

use conf_text::Named;
use refl_types::{Config, Memory};
use std::alloc::Global;
use std::marker::Model;
use text_forms::Name;

/// Names that configurations may have at once.
pub const NAME_LIMIT: usize = 256;

/// The named configurations, in the order in which they were made. Room for all is taken at first. Contracts see a list.
#[derive(Drop)]
pub struct Names {
    list: Vec<Named>,
}

impl Model for Names {
    ghost use Rattle.std.specs.Prelude.{List, ◌≤◌, vec_len, vec_capacity};
    ghost use Rattle.conf_text.specs.declared.configs.Named.{Named};

    ghost Value = { List Named };

    ghost view = { λ n. n.list.items };

    ghost invariant = { λ n. (vec_len n.list ≤ 256) × (256 ≤ vec_capacity n.list) };
}

/// Whether two names are the same.
#[tactic(auto, using(crate::proofs::NameFacts::octets_test))]
fn same_octets(a: &[u8], b: &[u8]) -> bool
    ensures { result ≡ same_octets a.now b.now }
{
    a == b
}

/// The configuration of a name.
fn config_in(list: &[Named], name: &[u8]) -> Option<Config>
    ensures { result ≡ config_in list.now name.now }
{
    for named in list {
        if same_octets(named.name.octets(), name) {
            return Some(named.config);
        }
    }
    None
}

/// Adds items for which there is room.
fn extend_within(items: &mut Vec<Named>, more: &[Named])
    requires { length items.old.items + length more.now ≤ vec_capacity items.old }
    ensures items { items.new.items ≡ items.old.items ++ more.now }
    ensures capacity { vec_capacity items.old ≤ vec_capacity items.new }
{
    if items.extend_from_slice(more).is_err() {
        unreachable!();
    }
}

impl Names {
    ghost use Rattle.conf_text.specs.declared.configs.Named.{Named};

    /// The names that a file gives. Only want of memory refuses.
    pub fn make(alloc: Global, configs: &[Named]) -> Result<Names, Memory>
        requires { length configs.now ≤ NAME_LIMIT }
        ensures { IfOk result (λ names. names ≡ configs.now) }
    {
        let Ok(mut list) = Vec::with_capacity(alloc, NAME_LIMIT) else {
            return Err(Memory);
        };
        extend_within(&mut list, configs);
        Ok(Names { list })
    }

    /// The configuration of a name.
    pub fn find(&self, name: &Name) -> Option<Config>
        ensures { result ≡ config_in self.now name.now }
    {
        config_in(&self.list, name.octets())
    }

    pub fn is_full(&self) -> bool
        ensures { IsTrue result ↔ (NAME_LIMIT ≤ length self.now) }
    {
        self.list.len() >= NAME_LIMIT
    }

    pub fn add(&mut self, name: &Name, config: &Config)
        requires { length self.old < NAME_LIMIT }
        ensures { self.new ≡ self.old ++ record { name = name.now; config = config.now } ∷ [] }
    {
        let named = Named {
            name: *name,
            config: *config,
        };
        if self.list.push(named).is_err() {
            unreachable!();
        }
    }
}
