//! Files in memory.

ghost use Rattle.std.specs.Prelude.{◌≡◌, vec_len, length, Some, None, IfOk, IsOk, MatchOption};
ghost use Rattle.port_io.specs.Files.{content, IsCopy};
ghost use Rattle.port_io.specs.MemFiles.{files_of};

use crate::files::{FileFault, Files};
use crate::outside::count_failure;
use crate::plan::FailurePlan;
use refl_types::Memory;
use std::alloc::Global;
use std::marker::Model;

/// Files in memory. The numbers of the loads that fail are given, counted from 1.
#[derive(Drop)]
pub struct MemFiles {
    names: Vec<String>,
    contents: Vec<Vec<u8>>,
    plan: FailurePlan,
    faults: u64,
}

impl Model for MemFiles {
    ghost use Rattle.std.specs.Prelude.{◌≡◌, vec_len};
    ghost use Rattle.port_io.specs.MemFiles.{FilesState, files_of};

    ghost Value = { FilesState };

    ghost view = { λ s. record { files = files_of s.names.items s.contents.items; plan = s.plan; faults = s.faults } };

    ghost invariant = { λ s. vec_len s.names ≡ vec_len s.contents };
}

impl MemFiles {
    ghost use Rattle.port_io.specs.MemFiles.{FilesState};

    /// A file for each name, with the content at its place. Of two with one name, the first is meant. It takes no memory of
    /// its own.
    pub fn make(
        _alloc: Global,
        names: Vec<String>,
        contents: Vec<Vec<u8>>,
        failing: Vec<u64>,
    ) -> Result<MemFiles, Memory>
        requires { vec_len names ≡ vec_len contents }
        ensures always { IsOk result }
        ensures value { IfOk result (λ s. s ≡ record { files = files_of names.items contents.items; plan = record { failing = failing.items; calls = 0 }; faults = 0 }) }
    {
        Ok(MemFiles {
            names,
            contents,
            plan: FailurePlan::make(failing),
            faults: 0,
        })
    }
}

impl Files for MemFiles {
    ghost use Rattle.std.specs.Prelude.{◌≡◌, ◌<◌, ◌⊎◌, ◌↔◌, Some, None, IsTrue, Ok, Err, IfOk};
    ghost use Rattle.port_io.specs.Files.{Loads, content, content_length};
    ghost use Rattle.port_io.specs.Memory.{next_fails};
    ghost use Rattle.port_io.specs.MemFiles.{FilesState, files_loaded, files_failed};
    ghost use Rattle.port_io.specs.declared.files.FileFault.TheVariants.{Failed};

    ghost files = { λ s. Some s.files };

    ghost faults = { λ s. s.faults };

    fn load(&mut self, alloc: Global, name: &str, limit: u64) -> Result<Vec<u8>, FileFault>
        ensures loaded { Loads (Some self.old.files) name.now limit self.old.faults self.new.faults result }
        ensures kept { Some self.new.files ≡ Some self.old.files }
        // Just the planned loads fail, and those of names that aren't there. Each is counted once.
        ensures planned { (result ≡ Err FileFault.Failed) ↔ (IsTrue (next_fails self.old.plan) ⊎ (content name.now self.old.files ≡ None)) }
        ensures failed { result ≡ Err FileFault.Failed → self.new ≡ files_failed self.old }
        ensures others { (result ≡ Err FileFault.Failed → ⊥) → self.new ≡ files_loaded self.old }
    {
        if self.plan.next_fails() {
            let _failed = count_failure(&mut self.faults);
            return Err(FileFault::Failed);
        }
        let Some(octets) = content_of(&self.names, &self.contents, name) else {
            let _failed = count_failure(&mut self.faults);
            return Err(FileFault::Failed);
        };
        copy_within(alloc, octets, limit)
    }
}

/// The content of the first file of that name.
fn content_of<'a>(names: &[String], contents: &'a [Vec<u8>], name: &str) -> Option<&'a [u8]>
    requires { length names.now ≡ length contents.now }
    ensures { MatchOption result (content name.now (files_of names.now contents.now) ≡ None) (λ octets. content name.now (files_of names.now contents.now) ≡ Some octets.now) }
{
    for (at, known) in names.iter().enumerate() {
        if known.as_str() == name {
            return Some(&contents[at]);
        }
    }
    None
}

/// A copy of octets, unless there are more than `limit`.
fn copy_within(alloc: Global, octets: &[u8], limit: u64) -> Result<Vec<u8>, FileFault>
    ensures { IsCopy octets.now limit result }
{
    let len = octets.len() as u64;
    if len > limit {
        return Err(FileFault::TooLong(len));
    }
    Vec::from_slice(alloc, octets).map_err(|_| FileFault::Memory)
}
