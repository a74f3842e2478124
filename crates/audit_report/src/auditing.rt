//! The entries of a recorded run are checked, one after the other.

ghost use Rattle.std.specs.Prelude.{◌≡◌, ◌≢◌, []};
ghost use Rattle.port_io.specs.Outside.{Rises};
ghost use Rattle.read_ahead.specs.Buffers.{pending};
ghost use Rattle.reply_audit.specs.Looks.{first_state};
ghost use Rattle.audit_report.specs.Runs.{EndsRun, TellsEnd};

use crate::front::{Front, check_front};
use crate::lines::Verdict;
use port_io::Source;
use read_ahead::{ReadAhead, STREAM_LIMIT};
use reply_audit::Audit;
use std::alloc::Global;

/// How the audit of a recorded run ended.
#[derive(Clone, Copy, Debug, PartialEq, Eq)]
pub enum RunEnd {
    /// With what the run is.
    Told(Verdict),
    /// There was no memory.
    Memory,
    /// A read failed.
    Input,
}

/// What a run is whose source has ended, behind entries that all hold.
fn at_end(audit: &Audit, held: usize, passed: u64, count: u64) -> Verdict
    ensures { TellsEnd audit.now.looks held passed count result }
{
    if held > 0 {
        Verdict::Bad(passed)
    } else if audit.closed() {
        Verdict::Yes(count)
    } else {
        Verdict::No(passed)
    }
}

/// Checks the entries of the source, one after the other, until one doesn't hold or none comes.
fn check_entries<S: Source>(input: &mut S, ahead: &mut ReadAhead, audit: &mut Audit) -> RunEnd
    requires nothing { pending ahead.old ≡ [] }
    requires first { audit.old ≡ first_state }
    ensures ended { EndsRun (S.left input.old) (S.left input.new) result }
    ensures cause { result ≡ RunEnd.Input → Rises (S.faults input.old) (S.faults input.new) }
    ensures still { result ≢ RunEnd.Input → S.faults input.new ≡ S.faults input.old }
{
    let mut passed: u64 = 0;
    let mut count: u64 = 0;
    'entries: loop {
        match check_front(audit, ahead.pending(), STREAM_LIMIT - passed) {
            Front::Holds(len) => {
                passed += len as u64;
                count += 1;
                ahead.advance(len);
            }
            Front::Fails => return RunEnd::Told(Verdict::No(passed)),
            Front::Bad => return RunEnd::Told(Verdict::Bad(passed)),
            Front::Memory => return RunEnd::Memory,
            Front::More => {
                let held = ahead.pending().len();
                let Ok(got) = ahead.fill(input) else {
                    return RunEnd::Input;
                };
                if got == 0 {
                    return RunEnd::Told(at_end(audit, held, passed, count));
                }
            }
        }
    }
}

fn let_go(_ahead: ReadAhead, _audit: Audit) {}

/// Audits the run that a source has.
pub fn audit_run<S: Source>(alloc: Global, input: &mut S) -> RunEnd
    ensures ended { EndsRun (S.left input.old) (S.left input.new) result }
    ensures cause { result ≡ RunEnd.Input → Rises (S.faults input.old) (S.faults input.new) }
    ensures still { result ≢ RunEnd.Input → S.faults input.new ≡ S.faults input.old }
{
    let Ok(mut audit) = Audit::make(alloc) else {
        return RunEnd::Memory;
    };
    let Ok(mut ahead) = ReadAhead::make(alloc) else {
        return RunEnd::Memory;
    };
    let end = check_entries(input, &mut ahead, &mut audit);
    let_go(ahead, audit);
    end
}
