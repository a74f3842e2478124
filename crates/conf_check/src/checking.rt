//! The check of a configuration file.

ghost use Rattle.conf_check.specs.Checking.{Checked};

use crate::lines::accepted_line;
use crate::loading::load_conf;
use crate::writing::write_refusal;
use port_io::{Files, Sink, write_all};
use std::alloc::Global;

/// Loads the configuration file of that name, of at most 1,048,576 octets, writes how many local addresses, configurations
/// and sessions it has, or why it isn't taken, and gives the status with which the program ends: 0 where the file is
/// accepted, 3 where its text has a fault, 4 for want of memory, 5 where it wasn't loaded and 8 where a write failed. A line
/// that tells of 3 or 5 and can't be written is dropped.
pub fn check_file<F: Files, K: Sink>(alloc: Global, name: &str, files: &mut F, out: &mut K) -> u8
    ensures checked { Checked (F.files files.old) (F.files files.new) (F.faults files.old) (F.faults files.new) name.now (K.shown out.old) (K.shown out.new) result }
{
    let conf = match load_conf(alloc, files, name) {
        Ok(conf) => conf,
        Err(refusal) => return write_refusal(alloc, &refusal, out),
    };
    let Ok(line) = accepted_line(alloc, &conf) else {
        return 4;
    };
    match write_all(out, line.as_bytes()) {
        Ok(()) => 0,
        Err(_) => 8,
    }
}
