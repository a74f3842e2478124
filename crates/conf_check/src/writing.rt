//! What is told to whoever started the program, and the statuses of a file that isn't taken.

ghost use Rattle.conf_check.specs.Writing.{WritesLine, WritesRefusal};
ghost use Rattle.conf_check.specs.declared.loading.Refusal.TheVariants.{Faulty};

use crate::lines::fault_line;
use crate::loading::Refusal;
use conf_text::ConfFault;
use port_io::{Sink, write_all};
use std::alloc::Global;

/// Writes a line. Where a write fails, the rest of the line is dropped.
pub fn write_line<K: Sink>(out: &mut K, line: &[u8])
    ensures { WritesLine line.now (K.shown out.old) (K.shown out.new) }
{
    let _written = write_all(out, line);
}

/// Tells the fault of a text, and gives the status.
fn write_fault_line<K: Sink>(alloc: Global, fault: &ConfFault, out: &mut K) -> u8
    ensures { WritesRefusal (Faulty fault.now) result (K.shown out.old) (K.shown out.new) }
{
    match fault_line(alloc, fault) {
        Ok(line) => {
            write_line(out, line.as_bytes());
            3
        }
        Err(_) => 4,
    }
}

/// Tells why a file isn't taken, and gives the status with which the program ends: 3 for a fault of the text, 4 for want of
/// memory, of which nothing is told, and 5 where the file wasn't loaded.
pub fn write_refusal<K: Sink>(alloc: Global, refusal: &Refusal, out: &mut K) -> u8
    ensures { WritesRefusal refusal.now result (K.shown out.old) (K.shown out.new) }
{
    match refusal {
        Refusal::Failed => {
            write_line(out, FAILED);
            5
        }
        Refusal::TooLong => {
            write_line(out, TOO_LONG);
            5
        }
        Refusal::Faulty(fault) => write_fault_line(alloc, fault, out),
    }
}

const FAILED: &[u8] = b"stampd: file failed\n";

const TOO_LONG: &[u8] = b"stampd: file too long\n";
