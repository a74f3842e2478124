//! The commands that wait for nobody.

ghost use Rattle.std.specs.Prelude.{ℕ, ◌≡◌, ◌≢◌, ◌⊎◌, ◌++◌, List, Some, None, map, string_bytes};
ghost use Rattle.std.specs.Io.KnownBytes.{Appends};
ghost use Rattle.replay_format.specs.Answers.{Left, answer_octets};
ghost use Rattle.program.specs.Buffers.{due};
ghost use Rattle.port_io.specs.Outside.{Rises, AppendsFront};
ghost use Rattle.conf_check.specs.Checking.{Checked};
ghost use Rattle.audit_report.specs.Runs.{Audited};
ghost use Rattle.load_report.specs.Report.{Generated};
ghost use Rattle.program.specs.Command.{Replay, Audit, Check, Gen, Run, command_in, WroteUsage};
ghost use Rattle.program.specs.Replay.{Replayed, IsDone, HasLeft, WasCutOff, WasStopped, IsUntouched};

use crate::commands::Command;
use crate::outbox::{Outbox, Taken};
use crate::words::read_command;
use audit_report::report_audit;
use conf_check::{check_file, write_line};
use load_report::report_load;
use port_io::{Files, Sink, Source};
use read_ahead::{ReadAhead, STREAM_LIMIT};
use shared_replay::Sessions;
use std::alloc::Global;

/// How a replay ended.
#[derive(Clone, Copy, Debug, PartialEq, Eq)]
pub enum ReplayEnd {
    /// All records are answered.
    Done,
    /// There was no memory for the buffers.
    Memory,
    /// The stream left its grammar.
    Grammar,
    /// A read failed.
    Input,
    /// A write failed.
    Output,
}

/// Writes where the stream left its grammar, behind what is due.
fn leave<K: Sink>(outbox: &mut Outbox, out: &mut K, offset: u64) -> ReplayEnd
    ensures ends { (result ≡ ReplayEnd.Grammar) ⊎ (result ≡ ReplayEnd.Output) }
    ensures grammar { result ≡ ReplayEnd.Grammar → Appends (K.shown out.old).written (K.shown out.new).written (due outbox.old ++ answer_octets (Left offset)) }
    ensures output { result ≡ ReplayEnd.Output → AppendsFront (K.shown out.old).written (K.shown out.new).written (due outbox.old ++ answer_octets (Left offset)) }
    ensures still { result ≡ ReplayEnd.Grammar → (K.shown out.new).faults ≡ (K.shown out.old).faults }
    ensures cause { result ≡ ReplayEnd.Output → Rises (K.shown out.old).faults (K.shown out.new).faults }
{
    let Ok(()) = outbox.make_room(out) else {
        return ReplayEnd::Output;
    };
    outbox.leave(offset);
    match outbox.flush(out) {
        Ok(()) => ReplayEnd::Grammar,
        Err(_) => ReplayEnd::Output,
    }
}

/// Answers the records of the source, one after the other.
pub fn replay<S: Source, K: Sink>(alloc: Global, input: &mut S, out: &mut K) -> ReplayEnd
    ensures done { result ≡ ReplayEnd.Done → IsDone (S.left input.old) (S.left input.new) (K.shown out.old).written (K.shown out.new).written }
    ensures memory { result ≡ ReplayEnd.Memory → IsUntouched (S.left input.old) (S.left input.new) (K.shown out.old).written (K.shown out.new).written }
    ensures grammar { result ≡ ReplayEnd.Grammar → HasLeft (S.left input.old) (S.left input.new) (K.shown out.old).written (K.shown out.new).written }
    ensures input { result ≡ ReplayEnd.Input → WasCutOff (S.left input.old) (S.left input.new) (K.shown out.old).written (K.shown out.new).written }
    ensures read_fault { result ≡ ReplayEnd.Input → Rises (S.faults input.old) (S.faults input.new) }
    ensures no_read_fault { result ≢ ReplayEnd.Input → S.faults input.new ≡ S.faults input.old }
    ensures output { result ≡ ReplayEnd.Output → WasStopped (S.left input.old) (S.left input.new) (K.shown out.old).written (K.shown out.new).written }
    ensures write_fault { result ≡ ReplayEnd.Output → Rises (K.shown out.old).faults (K.shown out.new).faults }
    ensures no_write_fault { result ≢ ReplayEnd.Output → (K.shown out.new).faults ≡ (K.shown out.old).faults }
{
    let Ok(mut ahead) = ReadAhead::make(alloc) else {
        return ReplayEnd::Memory;
    };
    let Ok(mut outbox) = Outbox::make(alloc) else {
        return ReplayEnd::Memory;
    };
    let Ok(mut sessions) = Sessions::make(alloc) else {
        return ReplayEnd::Memory;
    };
    let mut passed: u64 = 0;
    'records: loop {
        let Ok(()) = outbox.make_room(out) else {
            return ReplayEnd::Output;
        };
        match outbox.take(&mut sessions, ahead.pending(), STREAM_LIMIT - passed) {
            Taken::Answered(len) => {
                passed += len as u64;
                ahead.advance(len);
            }
            Taken::TooLong => return leave(&mut outbox, out, passed),
            Taken::Bad => return leave(&mut outbox, out, passed),
            Taken::More => {
                let held = ahead.pending().len();
                if passed + held as u64 > STREAM_LIMIT {
                    return leave(&mut outbox, out, passed);
                }
                let Ok(()) = outbox.flush(out) else {
                    return ReplayEnd::Output;
                };
                let Ok(count) = ahead.fill(input) else {
                    return ReplayEnd::Input;
                };
                if count == 0 {
                    if held == 0 {
                        return ReplayEnd::Done;
                    }
                    return leave(&mut outbox, out, passed);
                }
            }
        }
    }
}

/// Answers the records of the source, and gives the status.
fn replay_all<S: Source, K: Sink>(alloc: Global, input: &mut S, out: &mut K) -> u8
    ensures replayed { Replayed (S.left input.old) (S.left input.new) (S.faults input.old) (S.faults input.new) (K.shown out.old) (K.shown out.new) result }
{
    match replay(alloc, input, out) {
        ReplayEnd::Done => 0,
        ReplayEnd::Memory => 4,
        ReplayEnd::Grammar => 6,
        ReplayEnd::Input => 7,
        ReplayEnd::Output => 8,
    }
}

/// The line that is written where the words are no command.
const USAGE: &[u8] = b"stampd: usage\n";

/// Runs the command that the words name, and gives the status with which the program ends.
///
/// `replay` answers the records of the input: 0 where all were answered, 6 where the input left its grammar, 7 where a read
/// failed. `audit` says whether the input is a recorded run that is a history: 0 where it is, 12 where it isn't, 6 where it is no
/// list of entries, 7 where a read failed. `check FILE` says what a configuration file has: 0 where it is accepted, 3 where its text has a fault, 5 where it
/// wasn't loaded. `gen SEED COUNT` replays a generated load in memory and writes four lines of it: 0. Each ends with 4 for
/// want of memory and with 8 where a write failed. Other words are no command, for which the status is 2.
pub fn offline<S: Source, K: Sink, F: Files>(
    alloc: Global,
    words: &[String],
    input: &mut S,
    out: &mut K,
    files: &mut F,
) -> u8
    ensures usage { command_in (map string_bytes words.now) ≡ None
        → WroteUsage (K.shown out.old) (K.shown out.new) result × (input.new ≡ input.old) × (files.new ≡ files.old) }
    ensures run { (name : List ℕ) → command_in (map string_bytes words.now) ≡ Some (Run name)
        → WroteUsage (K.shown out.old) (K.shown out.new) result × (input.new ≡ input.old) × (files.new ≡ files.old) }
    ensures replay { command_in (map string_bytes words.now) ≡ Some Replay
        → Replayed (S.left input.old) (S.left input.new) (S.faults input.old) (S.faults input.new) (K.shown out.old) (K.shown out.new) result
        × (files.new ≡ files.old) }
    ensures audit { command_in (map string_bytes words.now) ≡ Some Audit
        → Audited (S.left input.old) (S.left input.new) (S.faults input.old) (S.faults input.new) (K.shown out.old) (K.shown out.new) result
        × (files.new ≡ files.old) }
    ensures check { (name : List ℕ) → command_in (map string_bytes words.now) ≡ Some (Check name)
        → Checked (F.files files.old) (F.files files.new) (F.faults files.old) (F.faults files.new) name (K.shown out.old) (K.shown out.new) result
        × (input.new ≡ input.old) }
    ensures load { (seed count : ℕ) → command_in (map string_bytes words.now) ≡ Some (Gen seed count)
        → Generated seed count (K.shown out.old) (K.shown out.new) result × (input.new ≡ input.old) × (files.new ≡ files.old) }
{
    match read_command(words) {
        Some(Command::Replay) => replay_all(alloc, input, out),
        Some(Command::Audit) => report_audit(alloc, input, out),
        Some(Command::Check(name)) => check_file(alloc, name, files, out),
        Some(Command::Gen(seed, count)) => report_load(alloc, seed, count, out),
        Some(Command::Run(_)) | None => {
            write_line(out, USAGE);
            2
        }
    }
}
