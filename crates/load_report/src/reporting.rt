//! The report of a load.

ghost use Rattle.std.specs.Prelude.{◌≡◌, ◌≤◌, IfOk, string_bytes};
ghost use Rattle.load_report.specs.Report.{Generated, report, count_limit};

use crate::lines::lines_of;
use crate::replaying::count_answers;
use port_io::{Sink, write_all};
use refl_types::Memory;
use std::alloc::Global;

/// The most datagrams of a load.
pub const COUNT_LIMIT: u32 = 1_000_000;

/// The lines of the load of a seed.
#[tactic(auto, unfolding(crate::specs::Report::report))]
fn report_text(alloc: Global, seed: u64, count: u32) -> Result<String, Memory>
    requires { count ≤ count_limit }
    ensures { IfOk result (λ s. string_bytes s ≡ report seed count) }
{
    let counts = count_answers(alloc, seed, count)?;
    match lines_of(alloc, count, &counts) {
        Ok(text) => Ok(text),
        Err(_) => Err(Memory),
    }
}

/// Replays the load of a seed with so many datagrams in memory, writes how many there are, how many were answered, how many
/// no session matched and how many octets all answers have, each in a line, and gives the status with which the program
/// ends: 0, 4 for want of memory, of which nothing is told, and 8 where a write failed.
pub fn report_load<K: Sink>(alloc: Global, seed: u64, count: u32, out: &mut K) -> u8
    requires { count ≤ count_limit }
    ensures generated { Generated seed count (K.shown out.old) (K.shown out.new) result }
{
    let Ok(text) = report_text(alloc, seed, count) else {
        return 4;
    };
    match write_all(out, text.as_bytes()) {
        Ok(()) => 0,
        Err(_) => 8,
    }
}
