//! Serving by the name of a file.

ghost use Rattle.std.specs.Prelude.{◌≡◌, ◌⊎◌, ◌≤◌, length, codes, IfOk, IfErr};
ghost use Rattle.port_io.specs.Outside.{Rises, AppendsPart};
ghost use Rattle.conf_text.specs.Faults.{Limit};
ghost use Rattle.conf_check.specs.Lines.{fault_line};
ghost use Rattle.conf_check.specs.Loading.{IsAccepted};
ghost use Rattle.conf_check.specs.Writing.{WritesLine, WritesNothing};
ghost use Rattle.file_service.specs.Ends as spec;
ghost use Rattle.file_service.specs.Service.{Ran, ServeEnds, WasNotTaken, WritesReport};

use crate::ends::{RunEnd, run_end, tell_end};
use conf_check::{Refusal, load_conf, write_refusal};
use conf_text::{Conf, ConfFault};
use net_io::{Desk, Port};
use port_io::{Files, Sink, write_all};
use reflector_serve::{Report, ServeFault, serve};
use report_text::write_report;
use std::alloc::Global;
use std::thread::Threads;

/// The file of that name, or the status with which it was refused, after its line was written.
fn open_conf<F: Files, K: Sink>(
    alloc: Global,
    name: &str,
    files: &mut F,
    out: &mut K,
) -> Result<Conf, u8>
    ensures accepted { IfOk result (λ f. IsAccepted (F.files files.old) name.now f × (out.new ≡ out.old) × (F.faults files.new ≡ F.faults files.old)) }
    ensures refused { IfErr result (WasNotTaken (F.files files.old) name.now (F.faults files.old) (F.faults files.new) (K.shown out.old) (K.shown out.new)) }
    ensures kept { F.files files.new ≡ F.files files.old }
{
    match load_conf(alloc, files, name) {
        Ok(conf) => Ok(conf),
        Err(refusal) => Err(write_refusal(alloc, &refusal, out)),
    }
}

/// Tells that the file has more workers than there are ports, and gives the status.
fn refuse_workers<K: Sink>(alloc: Global, out: &mut K) -> u8
    ensures { ((result ≡ 3) × WritesLine (fault_line (Limit (codes "workers"))) (K.shown out.old) (K.shown out.new))
        ⊎ ((result ≡ 4) × WritesNothing (K.shown out.old) (K.shown out.new)) }
{
    let Ok(path) = String::from_str(alloc, "workers") else {
        return 4;
    };
    write_refusal(alloc, &Refusal::Faulty(ConfFault::Limit(path)), out)
}

/// Writes the report and tells how the run ended, and gives the status: 4 where there is no memory for the report, and 8
/// where it can't be written.
fn tell_report<K: Sink>(alloc: Global, report: &Report, out: &mut K) -> u8
    ensures memory { result ≡ 4 → WritesNothing (K.shown out.old) (K.shown out.new) }
    ensures lost { result ≡ 8 → AppendsPart (K.shown out.old).written (K.shown out.new).written (spec.report_text report.now) × Rises (K.shown out.old).faults (K.shown out.new).faults }
    ensures told { (result ≡ 4) ⊎ (result ≡ 8) ⊎ WritesReport report.now result (K.shown out.old) (K.shown out.new) }
{
    let Ok(text) = write_report(alloc, &report.workers, &report.desk, report.live) else {
        return 4;
    };
    let Ok(()) = write_all(out, &text) else {
        return 8;
    };
    tell_end(run_end(report), out)
}

/// Serves by a file at the first ports, one for each of its workers, writes the report and tells what failed.
fn serve_conf<R: Threads + Sync, K: Sink, P: Port + Send, D: Desk>(
    rt: &R,
    alloc: Global,
    conf: &Conf,
    out: &mut K,
    ports: &mut [P],
    desk: &mut D,
) -> u8
    requires { conf.now.workers ≤ length ports.old }
    ensures ends { ServeEnds P.shown D.shown D.goes conf.now ports.old ports.new desk.old desk.new (K.shown out.old) (K.shown out.new) result }
{
    match serve(rt, alloc, conf, ports, desk) {
        Ok(report) => tell_report(alloc, &report, out),
        Err(ServeFault::Memory) => 4,
        Err(ServeFault::PortOpen) => tell_end(RunEnd::PortFailed, out),
        Err(ServeFault::DeskOpen) => tell_end(RunEnd::DeskFailed, out),
    }
}

/// Serves by the configuration file of that name at the first ports, one for each of its workers, with the desk beside them,
/// until all have ended; then writes the report, and a line where something failed. It gives the status with which the
/// program ends: 0 where each worker and the desk came to their end, 9 where a port failed, 10 where the desk did, and 11
/// where a budget was spent; 3 for a fault of the file or too few ports, 4 for want of memory, 5 where the file wasn't
/// loaded, and 8 where the report wasn't written. A line of a status that can't be written is dropped.
pub fn run_file<R: Threads + Sync, K: Sink, F: Files, P: Port + Send, D: Desk>(
    rt: &R,
    alloc: Global,
    name: &str,
    files: &mut F,
    out: &mut K,
    ports: &mut [P],
    desk: &mut D,
) -> u8
    ensures ran { Ran P.shown D.shown D.goes (F.files files.old) (F.files files.new) (F.faults files.old) (F.faults files.new) name.now
        ports.old ports.new desk.old desk.new (K.shown out.old) (K.shown out.new) result }
{
    let conf = match open_conf(alloc, name, files, out) {
        Ok(conf) => conf,
        Err(status) => return status,
    };
    if ports.len() < conf.workers() as usize {
        return refuse_workers(alloc, out);
    }
    serve_conf(rt, alloc, &conf, out, ports, desk)
}
