//! The command: a measurement at the first port, and what is told of it.

ghost use Rattle.std.specs.Prelude.{◌≡◌, ◌⊎◌, ◌≤◌, []};
ghost use Rattle.port_io.specs.Outside.{counted, Rises, AppendsPart};
ghost use Rattle.conf_check.specs.Writing.{WritesLine, WritesNothing};
ghost use Rattle.probe_run.specs.Plan.{IsProbe};
ghost use Rattle.probe_run.specs.Lines as spec;
ghost use Rattle.probe_run.specs.Telling.{OfFirst, TellsEnd, WritesMeasured, HasTold, HasLostLines, HasNoLines, HasClosed, NothingFails, EndedByItself};

use crate::lines::lines_of;
use crate::measuring::measure;
use crate::probe::{MeasureFault, Measured, Probe};
use crate::progress::ProbeEnd;
use conf_check::write_line;
use net_io::Port;
use port_io::{Sink, write_all};
use std::alloc::Global;

const PORT_FAILED: &[u8] = b"stampd: port failed\n";

const BUDGET_SPENT: &[u8] = b"stampd: budget spent\n";

const NO_PORT: &[u8] = b"stampd: configuration: limit workers\n";

/// Tells how a measurement ended, and gives the status.
fn tell_end<K: Sink>(end: ProbeEnd, out: &mut K) -> u8
    ensures no_write_fault { result ≡ 0 → (K.shown out.new).faults ≡ (K.shown out.old).faults }
    ensures told { TellsEnd end result (K.shown out.old) (K.shown out.new) }
{
    match end {
        ProbeEnd::Finished | ProbeEnd::End => 0,
        ProbeEnd::PortFault => {
            write_line(out, PORT_FAILED);
            9
        }
        ProbeEnd::Budget => {
            write_line(out, BUDGET_SPENT);
            11
        }
    }
}

/// Tells that there is no port, and gives the status.
#[tactic(auto, unfolding(conf_check::specs::Lines::fault_line))]
fn refuse<K: Sink>(out: &mut K) -> u8
    ensures { (result ≡ 3) × WritesLine spec.no_port_line (K.shown out.old) (K.shown out.new) }
{
    write_line(out, NO_PORT);
    3
}

/// Writes the lines of a measurement and tells how it ended, and gives the status: 4 where there is no memory for the lines, and
/// 8 where they can't be written.
fn tell_measured<K: Sink>(alloc: Global, measured: &Measured, out: &mut K) -> u8
    ensures memory { result ≡ 4 → WritesNothing (K.shown out.old) (K.shown out.new) }
    ensures lost { result ≡ 8 → AppendsPart (K.shown out.old).written (K.shown out.new).written (spec.lines_of measured.now.counts) × Rises (K.shown out.old).faults (K.shown out.new).faults }
    ensures no_write_fault { (result ≡ 0) ⊎ (result ≡ 4) → (K.shown out.new).faults ≡ (K.shown out.old).faults }
    ensures told { (result ≡ 4) ⊎ (result ≡ 8) ⊎ WritesMeasured measured.now result (K.shown out.old) (K.shown out.new) }
{
    let Ok(text) = lines_of(alloc, &measured.counts) else {
        return 4;
    };
    let Ok(()) = write_all(out, text.as_bytes()) else {
        return 8;
    };
    tell_end(measured.end, out)
}

/// Measures at one port, tells of it, and gives the status.
fn probe_at<K: Sink, P: Port>(alloc: Global, probe: &Probe, out: &mut K, port: &mut P) -> u8
    requires { IsProbe probe.now }
    ensures statuses { (result ≡ 0) ⊎ (result ≡ 4) ⊎ (result ≡ 8) ⊎ (result ≡ 9) ⊎ (result ≡ 11) }
    ensures done { result ≡ 0 → HasTold P.shown probe.now 0 (K.shown out.old) (K.shown out.new) port.old port.new }
    ensures memory { result ≡ 4 → WritesNothing (K.shown out.old) (K.shown out.new) × HasNoLines P.shown probe.now port.old port.new }
    ensures lost { result ≡ 8 → HasLostLines P.shown probe.now (K.shown out.old) (K.shown out.new) port.old port.new }
    ensures port_failed { result ≡ 9 → HasClosed P.shown (K.shown out.old) (K.shown out.new) port.old port.new ⊎ HasTold P.shown probe.now 9 (K.shown out.old) (K.shown out.new) port.old port.new }
    ensures budget_spent { result ≡ 11 → HasTold P.shown probe.now 11 (K.shown out.old) (K.shown out.new) port.old port.new }
    ensures port_cause { result ≡ 9 → counted (P.shown port.old).faults ≤ (P.shown port.new).faults }
    ensures made { (P.shown port.new).made ≡ (P.shown port.old).made }
    ensures write_fault { result ≡ 8 → Rises (K.shown out.old).faults (K.shown out.new).faults }
    ensures no_write_fault { (result ≡ 0) ⊎ (result ≡ 4) → (K.shown out.new).faults ≡ (K.shown out.old).faults }
    ensures complete { NothingFails P.shown probe.now (K.shown out.old) (K.shown out.new) port.old port.new → (result ≡ 0) ⊎ (result ≡ 4) }
    ensures ended { EndedByItself P.shown probe.now (K.shown out.old) (K.shown out.new) port.old port.new → (result ≡ 0) ⊎ (result ≡ 4) }
{
    match measure(alloc, probe, port) {
        Ok(measured) => tell_measured(alloc, &measured, out),
        Err(MeasureFault::Memory) => 4,
        Err(MeasureFault::PortOpen) => tell_end(ProbeEnd::PortFault, out),
    }
}

/// Measures at the first port as a probe says, writes eight lines of what was counted, and tells what failed. It gives the status
/// with which the program ends: 0 where all requests were sent or the port said that nothing comes any more, 3 where there is no
/// port, 4 for want of memory, 8 where the lines weren't written, 9 where the port failed, and 11 where `recv` was called as
/// often as it may be. A line of a status that can't be written is dropped.
pub fn run_probe<K: Sink, P: Port>(alloc: Global, probe: &Probe, out: &mut K, ports: &mut [P]) -> u8
    requires { IsProbe probe.now }
    ensures statuses { (result ≡ 0) ⊎ (result ≡ 3) ⊎ (result ≡ 4) ⊎ (result ≡ 8) ⊎ (result ≡ 9) ⊎ (result ≡ 11) }
    ensures no_port { result ≡ 3 → (ports.old ≡ []) × WritesLine spec.no_port_line (K.shown out.old) (K.shown out.new) }
    ensures empty { ports.old ≡ [] → (result ≡ 3) × (ports.new ≡ []) }
    ensures done { result ≡ 0 → OfFirst (HasTold P.shown probe.now 0 (K.shown out.old) (K.shown out.new)) ports.old ports.new }
    ensures memory { result ≡ 4 → WritesNothing (K.shown out.old) (K.shown out.new) × OfFirst (HasNoLines P.shown probe.now) ports.old ports.new }
    ensures lost { result ≡ 8 → OfFirst (HasLostLines P.shown probe.now (K.shown out.old) (K.shown out.new)) ports.old ports.new }
    ensures port_failed { result ≡ 9 → OfFirst (λ p q. HasClosed P.shown (K.shown out.old) (K.shown out.new) p q ⊎ HasTold P.shown probe.now 9 (K.shown out.old) (K.shown out.new) p q) ports.old ports.new }
    ensures budget_spent { result ≡ 11 → OfFirst (HasTold P.shown probe.now 11 (K.shown out.old) (K.shown out.new)) ports.old ports.new }
    ensures made { (result ≡ 3) ⊎ OfFirst (λ p q. (P.shown q).made ≡ (P.shown p).made) ports.old ports.new }
    ensures port_cause { result ≡ 9 → OfFirst (λ p q. counted (P.shown p).faults ≤ (P.shown q).faults) ports.old ports.new }
    ensures write_fault { result ≡ 8 → Rises (K.shown out.old).faults (K.shown out.new).faults }
    ensures no_write_fault { (result ≡ 0) ⊎ (result ≡ 4) → (K.shown out.new).faults ≡ (K.shown out.old).faults }
    ensures complete { OfFirst (NothingFails P.shown probe.now (K.shown out.old) (K.shown out.new)) ports.old ports.new → (result ≡ 0) ⊎ (result ≡ 4) }
    ensures ended { OfFirst (EndedByItself P.shown probe.now (K.shown out.old) (K.shown out.new)) ports.old ports.new → (result ≡ 0) ⊎ (result ≡ 4) }
{
    match ports {
        [] => refuse(out),
        [port, ..] => probe_at(alloc, probe, out, port),
    }
}
