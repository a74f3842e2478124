//! The report of a run: what each worker and the desk counted. The format is this project's own.
#![tactic(auto)]

ghost use Rattle.std.specs.Prelude.{◌≡◌, ◌++◌, IfOk, map};
ghost use Rattle.report_text.specs.Report as spec;

mod learned;

use control_desk::{DeskEnd, DeskTally};
use itoa::Buffer;
pub use learned::Learned;
use receive_worker::{Tally, WorkEnd};
use refl_types::Memory;
use std::alloc::{AllocError, Global};

/// Adds words, each followed by a number.
fn add_items(out: &mut Vec<u8>, items: &[(&str, u64)]) -> Result<(), AllocError>
    ensures { IfOk result (λ _. out.new.items ≡ out.old.items ++ spec.items_text (map (λ p. (p.0.now, p.1)) items.now)) }
{
    for (word, number) in items {
        let mut buffer = Buffer::new();
        out.extend_from_slice(word.as_bytes())?;
        out.extend_from_slice(buffer.format(*number).as_bytes())?;
    }
    Ok(())
}

fn work_end_text(end: WorkEnd) -> &'static str
    ensures { result.now ≡ spec.work_end_text end }
{
    match end {
        WorkEnd::End => " end\n",
        WorkEnd::Limit => " limit\n",
        WorkEnd::Budget => " budget\n",
        WorkEnd::PortFault => " port\n",
    }
}

fn desk_end_text(end: DeskEnd) -> &'static str
    ensures { result.now ≡ spec.desk_end_text end }
{
    match end {
        DeskEnd::End => " end\n",
        DeskEnd::Quit => " quit\n",
        DeskEnd::Budget => " budget\n",
        DeskEnd::Fault => " desk\n",
    }
}

fn add_worker(out: &mut Vec<u8>, worker: u64, tally: &Tally) -> Result<(), AllocError>
    ensures { IfOk result (λ _. out.new.items ≡ out.old.items ++ spec.worker_text worker tally.now) }
{
    let items = [
        ("worker ", worker),
        (" taken ", tally.taken),
        (" sent ", tally.sent),
        (" nosession ", tally.no_session),
        (" short ", tally.short),
        (" badhmac ", tally.bad_hmac),
        (" changed ", tally.changed),
        (" noreply ", tally.no_reply),
        (" sendfault ", tally.send_fault),
        (" recvfault ", tally.recv_fault),
    ];
    add_items(out, &items)?;
    out.extend_from_slice(work_end_text(tally.end).as_bytes())
}

fn add_desk(out: &mut Vec<u8>, desk: &DeskTally) -> Result<(), AllocError>
    ensures { IfOk result (λ _. out.new.items ≡ out.old.items ++ spec.desk_text desk.now) }
{
    let items = [("desk events ", desk.events), (" faults ", desk.faults)];
    add_items(out, &items)?;
    out.extend_from_slice(desk_end_text(desk.end).as_bytes())
}

fn add_sessions(out: &mut Vec<u8>, desk: &DeskTally, live: u32) -> Result<(), AllocError>
    ensures { IfOk result (λ _. out.new.items ≡ out.old.items ++ spec.sessions_text desk.now live) }
{
    let items = [
        ("sessions live ", live as u64),
        (" closed ", desk.closed),
        (" expired ", desk.expired),
    ];
    add_items(out, &items)?;
    out.extend_from_slice(b"\n")
}

fn add_workers(out: &mut Vec<u8>, workers: &[Tally]) -> Result<(), AllocError>
    ensures { IfOk result (λ _. out.new.items ≡ out.old.items ++ spec.workers_text 0 workers.now) }
{
    for worker in 0..workers.len() {
        add_worker(out, worker as u64, &workers[worker])?;
    }
    Ok(())
}

fn add_report(
    out: &mut Vec<u8>,
    workers: &[Tally],
    desk: &DeskTally,
    live: u32,
) -> Result<(), AllocError>
    ensures { IfOk result (λ _. out.new.items ≡ out.old.items ++ spec.report_text workers.now desk.now live) }
{
    add_workers(out, workers)?;
    add_desk(out, desk)?;
    add_sessions(out, desk, live)
}

/// Writes the report: a line for each worker in the order of their ports, one for the desk, and one for the sessions, of which
/// `live` are left. Only want of memory refuses it.
pub fn write_report(
    alloc: Global,
    workers: &[Tally],
    desk: &DeskTally,
    live: u32,
) -> Result<Vec<u8>, Memory>
    ensures { IfOk result (λ v. v.items ≡ spec.report_text workers.now desk.now live) }
{
    let mut out = Vec::new(alloc);
    match add_report(&mut out, workers, desk, live) {
        Ok(()) => Ok(out),
        Err(_) => Err(Memory),
    }
}

fn add_learned(out: &mut Vec<u8>, learned: &Learned) -> Result<(), AllocError>
    ensures { IfOk result (λ _. out.new.items ≡ out.old.items ++ spec.learned_line learned.now) }
{
    let items = [
        ("learned opened ", learned.opened),
        (" refused ", learned.refused),
        (" left ", learned.left),
        (" full ", learned.full),
    ];
    add_items(out, &items)?;
    out.extend_from_slice(b"\n")
}

/// Writes the report of a run with learned sessions, which ends with a line for these. Only want of memory refuses it.
pub fn write_learned(
    alloc: Global,
    workers: &[Tally],
    desk: &DeskTally,
    live: u32,
    learned: &Learned,
) -> Result<Vec<u8>, Memory>
    ensures { IfOk result (λ v. v.items ≡ spec.report_text workers.now desk.now live ++ spec.learned_line learned.now) }
{
    let mut out = write_report(alloc, workers, desk, live)?;
    match add_learned(&mut out, learned) {
        Ok(()) => Ok(out),
        Err(_) => Err(Memory),
    }
}

#[cfg(test)]
mod tests;
