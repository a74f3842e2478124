//! The program over the objects that it is given.

ghost use Rattle.std.specs.Prelude.{ℕ, ◌≡◌, List, Some, None, map, string_bytes};
ghost use Rattle.conf_check.specs.Checking.{Checked};
ghost use Rattle.audit_report.specs.Runs.{Audited};
ghost use Rattle.load_report.specs.Report.{Generated};
ghost use Rattle.file_service.specs.Service.{Ran};
ghost use Rattle.program.specs.Command.{Replay, Audit, Check, Gen, Run, command_in, WroteUsage};
ghost use Rattle.program.specs.Replay.{Replayed};

use crate::commands::Command;
use crate::offline::offline;
use crate::words::read_command;
use file_service::run_file;
use net_io::{Desk, Port};
use port_io::{Files, Sink, Source};
use std::alloc::Global;
use std::thread::Threads;

/// Runs the command that the words name, and gives the status with which the program ends.
///
/// `run FILE` serves by a configuration file at the first ports, one for each of its workers, with the desk beside them,
/// until all have ended, and writes the report: 0 where each worker and the desk came to their end, 9 where a port failed, 10
/// where the desk did, and 11 where a budget was spent; 3 for a fault of the file or too few ports, 4 for want of memory, 5
/// where the file wasn't loaded, and 8 where the report wasn't written. All other words are those of `offline`.
pub fn stampd<R: Threads + Sync, S: Source, K: Sink, F: Files, P: Port + Send, D: Desk>(
    rt: &R,
    alloc: Global,
    words: &[String],
    input: &mut S,
    out: &mut K,
    files: &mut F,
    ports: &mut [P],
    desk: &mut D,
) -> u8
    ensures usage { command_in (map string_bytes words.now) ≡ None
        → WroteUsage (K.shown out.old) (K.shown out.new) result
        × (input.new ≡ input.old) × (files.new ≡ files.old) × (ports.new ≡ ports.old) × (desk.new ≡ desk.old) }
    ensures replay { command_in (map string_bytes words.now) ≡ Some Replay
        → Replayed (S.left input.old) (S.left input.new) (S.faults input.old) (S.faults input.new) (K.shown out.old) (K.shown out.new) result
        × (files.new ≡ files.old) × (ports.new ≡ ports.old) × (desk.new ≡ desk.old) }
    ensures audit { command_in (map string_bytes words.now) ≡ Some Audit
        → Audited (S.left input.old) (S.left input.new) (S.faults input.old) (S.faults input.new) (K.shown out.old) (K.shown out.new) result
        × (files.new ≡ files.old) × (ports.new ≡ ports.old) × (desk.new ≡ desk.old) }
    ensures check { (name : List ℕ) → command_in (map string_bytes words.now) ≡ Some (Check name)
        → Checked (F.files files.old) (F.files files.new) (F.faults files.old) (F.faults files.new) name (K.shown out.old) (K.shown out.new) result
        × (input.new ≡ input.old) × (ports.new ≡ ports.old) × (desk.new ≡ desk.old) }
    ensures load { (seed count : ℕ) → command_in (map string_bytes words.now) ≡ Some (Gen seed count)
        → Generated seed count (K.shown out.old) (K.shown out.new) result
        × (input.new ≡ input.old) × (files.new ≡ files.old) × (ports.new ≡ ports.old) × (desk.new ≡ desk.old) }
    ensures run { (name : List ℕ) → command_in (map string_bytes words.now) ≡ Some (Run name)
        → Ran P.shown D.shown D.goes (F.files files.old) (F.files files.new) (F.faults files.old) (F.faults files.new) name
        ports.old ports.new desk.old desk.new (K.shown out.old) (K.shown out.new) result
        × (input.new ≡ input.old) }
{
    match read_command(words) {
        Some(Command::Run(name)) => run_file(rt, alloc, name, files, out, ports, desk),
        _ => offline(alloc, words, input, out, files),
    }
}
