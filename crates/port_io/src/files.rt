//! Files, by their names.

ghost use Rattle.std.specs.Prelude.{◌≡◌, ℕ, List, Option};
ghost use Rattle.port_io.specs.Files.{File, Loads};

use std::alloc::Global;

/// Why a file isn't loaded.
#[derive(Clone, Copy, Debug, PartialEq, Eq)]
pub enum FileFault {
    /// There is no such file or it can't be read. The object counted it.
    Failed,
    /// It has so many octets, or more where the files aren't told, and that is above the limit.
    TooLong(u64),
    /// There was no memory.
    Memory,
}

/// Where files come from.
pub trait Files {
    // The files, where they are told.
    ghost files: { Self → Option (List File) };
    // How often a load has failed.
    ghost faults: { Self → ℕ };

    /// Loads a whole file of at most `limit` octets.
    fn load(&mut self, alloc: Global, name: &str, limit: u64) -> Result<Vec<u8>, FileFault>
        ensures loaded { Loads (files self.old) name.now limit (faults self.old) (faults self.new) result }
        ensures kept { files self.new ≡ files self.old };
}
