//! Files on disk.

ghost use Rattle.std.specs.Prelude.{◌≡◌, ◌≤◌, length, Err, IfOk, IfErr, IsOk, None};
ghost use Rattle.port_io.specs.Outside.{counted};
ghost use Rattle.port_io.specs.Files.{IsAbove, Loads};

use crate::files::{FileFault, Files};
use crate::outside::count_failure;
use refl_types::Memory;
use std::alloc::Global;
use std::io::Read;
use std::marker::Model;
use std::{fs, rt};

/// Octets of the pieces in which a file is read.
const PIECE: usize = 4096;

/// Files on disk. It tells nothing of them.
#[derive(Drop)]
pub struct DiskFiles<R> {
    rt: R,
    faults: u64,
}

impl<R> Model for DiskFiles<R> {
    ghost use Rattle.port_io.specs.Standard.{Stream};

    ghost Value = { Stream R };

    ghost view = { λ s. record { inner = s.rt; faults = s.faults } };
}

impl<R: rt::Files> DiskFiles<R> {
    /// The files that the runtime opens.
    pub fn make(rt: R, _alloc: Global) -> Result<DiskFiles<R>, Memory>
        ensures always { IsOk result }
        ensures value { IfOk result (λ s. s.faults ≡ 0) }
    {
        Ok(DiskFiles { rt, faults: 0 })
    }
}

impl<R: rt::Files + Drop> Files for DiskFiles<R> {
    ghost files = { λ s. None };

    ghost faults = { λ s. s.faults };

    fn load(&mut self, alloc: Global, name: &str, limit: u64) -> Result<Vec<u8>, FileFault>
        ensures loaded { Loads None name.now limit self.old.faults self.new.faults result }
        // A failure is counted once.
        ensures failed { result ≡ Err FileFault.Failed → self.new.faults ≡ counted self.old.faults }
    {
        let loaded = match fs::open(&self.rt, name) {
            Ok(mut file) => read_all(alloc, &mut file, limit),
            Err(_) => Err(FileFault::Failed),
        };
        if let Err(FileFault::Failed) = loaded {
            let _failed = count_failure(&mut self.faults);
        }
        loaded
    }
}

/// Reads to the end, unless there are more octets than `limit`.
fn read_all<F: Read>(alloc: Global, file: &mut F, limit: u64) -> Result<Vec<u8>, FileFault>
    ensures bound { IfOk result (λ v. length v.items ≤ limit) }
    ensures above { IfErr result (IsAbove limit) }
{
    let mut all = Vec::new(alloc);
    let mut piece = [0; PIECE];
    for _ in 0..u64::MAX {
        let Ok(count) = file.read(&mut piece) else {
            return Err(FileFault::Failed);
        };
        if count == 0 {
            return Ok(all);
        }
        let len = all.len() as u64 + count as u64;
        if limit < len {
            return Err(FileFault::TooLong(len));
        }
        if all.extend_from_slice(&piece[..count]).is_err() {
            return Err(FileFault::Memory);
        }
    }
    Err(FileFault::Failed)
}
