//! How a run ended, by its report.

ghost use Rattle.std.specs.Prelude.{◌≡◌};
ghost use Rattle.std.specs.List.{list_any};
ghost use Rattle.file_service.specs.Ends as spec;

use conf_check::write_line;
use control_desk::DeskEnd;
use port_io::Sink;
use receive_worker::{Tally, WorkEnd};
use reflector_serve::Report;

/// How a run ended.
#[derive(Clone, Copy, Debug, PartialEq, Eq)]
pub enum RunEnd {
    /// Each worker ended by its port's end or by its limit, and the desk by its end or by the line `quit`.
    Done,
    /// The port of a worker failed 64 times in a row.
    PortFailed,
    /// The desk failed 64 times in a row.
    DeskFailed,
    /// A worker or the desk made as many calls as it may.
    BudgetSpent,
}

fn is_port_fault(end: WorkEnd) -> bool
    ensures { result ≡ spec.is_port_fault end }
{
    matches!(end, WorkEnd::PortFault)
}

fn is_spent(end: WorkEnd) -> bool
    ensures { result ≡ spec.is_spent end }
{
    matches!(end, WorkEnd::Budget)
}

fn has_port_fault(workers: &[Tally]) -> bool
    ensures { result ≡ list_any (λ t. spec.is_port_fault t.end) workers.now }
{
    workers.iter().any(|tally| is_port_fault(tally.end))
}

fn has_spent(workers: &[Tally]) -> bool
    ensures { result ≡ list_any (λ t. spec.is_spent t.end) workers.now }
{
    workers.iter().any(|tally| is_spent(tally.end))
}

/// How a run ended, of which this is the report: where several things are to be told, the first of the desk's fault, a
/// port's, and a budget.
pub(crate) fn run_end(report: &Report) -> RunEnd
    ensures { result ≡ spec.run_end report.now }
{
    let failed = has_port_fault(&report.workers);
    let spent = has_spent(&report.workers);
    match report.desk.end {
        DeskEnd::Fault => RunEnd::DeskFailed,
        _ if failed => RunEnd::PortFailed,
        DeskEnd::Budget => RunEnd::BudgetSpent,
        DeskEnd::End | DeskEnd::Quit if spent => RunEnd::BudgetSpent,
        DeskEnd::End | DeskEnd::Quit => RunEnd::Done,
    }
}

const PORT_FAILED: &[u8] = b"stampd: port failed\n";

const DESK_FAILED: &[u8] = b"stampd: desk failed\n";

const BUDGET_SPENT: &[u8] = b"stampd: budget spent\n";

/// Tells how a run ended, and gives the status.
pub(crate) fn tell_end<K: Sink>(end: RunEnd, out: &mut K) -> u8
    ensures { spec.TellsEnd end result (K.shown out.old) (K.shown out.new) }
{
    match end {
        RunEnd::Done => 0,
        RunEnd::PortFailed => {
            write_line(out, PORT_FAILED);
            9
        }
        RunEnd::DeskFailed => {
            write_line(out, DESK_FAILED);
            10
        }
        RunEnd::BudgetSpent => {
            write_line(out, BUDGET_SPENT);
            11
        }
    }
}
