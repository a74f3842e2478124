//! What is told of a recorded run.

ghost use Rattle.audit_report.specs.Runs.{Audited, TellsVerdict};

use crate::auditing::{RunEnd, audit_run};
use crate::lines::{LINE_MAX, Verdict};
use port_io::{Sink, Source, write_all};
use std::alloc::Global;

/// Writes the line of a verdict, and gives the status.
fn tell<K: Sink>(verdict: Verdict, out: &mut K) -> u8
    ensures { TellsVerdict verdict (K.shown out.old) (K.shown out.new) result }
{
    let mut line = [0; LINE_MAX];
    let len = verdict.write(&mut line);
    match write_all(out, &line[..len]) {
        Ok(()) => verdict.status(),
        Err(_) => 8,
    }
}

/// Checks the entries of a recorded run, writes one line of it, and gives the status with which the program ends: 0 and
/// `yes N` where its N entries are a history, 12 and `no OFFSET` where they aren't, 6 and `bad OFFSET` where they leave the
/// grammar of entries; and without a line 4 for want of memory and 7 where a read failed, and 8 where a write failed.
pub fn report_audit<S: Source, K: Sink>(alloc: Global, input: &mut S, out: &mut K) -> u8
    ensures { Audited (S.left input.old) (S.left input.new) (S.faults input.old) (S.faults input.new) (K.shown out.old) (K.shown out.new) result }
{
    match audit_run(alloc, input) {
        RunEnd::Told(verdict) => tell(verdict, out),
        RunEnd::Memory => 4,
        RunEnd::Input => 7,
    }
}
