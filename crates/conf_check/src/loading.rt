//! A configuration file by its name.

ghost use Rattle.std.specs.Prelude.{◌≡◌};
ghost use Rattle.conf_check.specs.Loading.{LoadsConf};

use conf_text::{Conf, ConfFault, read_conf};
use port_io::{FileFault, Files};
use std::alloc::Global;

/// Octets of the longest configuration file.
const FILE_LIMIT: u64 = 1 << 20;

/// Why a name gives no configuration.
#[derive(Debug, Drop)]
pub enum Refusal {
    /// The file can't be loaded. The object counted it.
    Failed,
    /// It has more than 1,048,576 octets.
    TooLong,
    /// Its text has a fault, or there was no memory.
    Faulty(ConfFault),
}

/// Loads the configuration file of that name, of at most 1,048,576 octets, and reads it. A fault of its text is the first
/// one, in the order of `read_conf`.
pub fn load_conf<F: Files>(alloc: Global, files: &mut F, name: &str) -> Result<Conf, Refusal>
    ensures loaded { LoadsConf (F.files files.old) name.now (F.faults files.old) (F.faults files.new) result }
    ensures kept { F.files files.new ≡ F.files files.old }
{
    match files.load(alloc, name, FILE_LIMIT) {
        Ok(text) => match read_conf(alloc, &text) {
            Ok(conf) => Ok(conf),
            Err(fault) => Err(Refusal::Faulty(fault)),
        },
        Err(FileFault::Failed) => Err(Refusal::Failed),
        Err(FileFault::TooLong(_)) => Err(Refusal::TooLong),
        Err(FileFault::Memory) => Err(Refusal::Faulty(ConfFault::Memory)),
    }
}
