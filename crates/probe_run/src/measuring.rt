//! A session sender at a port.

ghost use Rattle.std.specs.Prelude.{◌≡◌, ◌≢◌, ◌⊎◌, ◌<◌, ◌≤◌, ◌∷◌, [], ℕ, List, length, Err, IfOk, IsTrue, IsFalse};
ghost use Rattle.port_io.specs.Outside.{Rises};
ghost use Rattle.net_io.specs.Log.{Grows};
ghost use Rattle.net_io.specs.Port.{read, done};
ghost use Rattle.sender_core.specs.Sending.{due_at};
ghost use Rattle.sender_core.specs.State.{IsAfter};
ghost use Rattle.probe_run.specs.Plan.{plan_of, IsProbe};
ghost use Rattle.sender_core.specs.Deeds.{Deed};
ghost use Rattle.probe_run.specs.Runs as spec;
ghost use Rattle.probe_run.specs.Runs.{Measures, HasNotBegun};
ghost use Rattle.probe_run.specs.Steps.{HasSent, HasReceived, HasTaken};

use crate::probe::{GAP, MeasureFault, Measured, Probe, WAIT};
use crate::progress::{Came, ProbeEnd, Progress};
use net_io::{DATAGRAM_ROOM, Got, Port};
use refl_types::Endpoint;
use sender_core::{Counts, Due, SendPlan, Sender};
use std::alloc::Global;

/// Sends the request that is due at a moment, if one is. Where its sending fails, it is sent all the same.
fn send_due<P: Port>(sender: &mut Sender, port: &mut P, peer: &Endpoint, now: u64)
    requires bound { 0 < length (P.shown port.old).bound }
    requires going { due_at sender.old.plan sender.old.start sender.old.sendings now ≢ Due.Finished }
    ensures sent { HasSent peer.now now sender.old sender.new (P.shown port.old).log (P.shown port.new).log (P.shown port.old).faults (P.shown port.new).faults }
    ensures bound { (P.shown port.new).bound ≡ (P.shown port.old).bound }
    ensures made { (P.shown port.new).made ≡ (P.shown port.old).made }
{
    if let Due::Send(_) = sender.due(now) {
        let mut request = [0; 44];
        sender.request(now, &mut request);
        let _sent = port.send(0, peer, &request);
    }
}

fn is_same(a: &Endpoint, b: &Endpoint) -> bool
    ensures same { IsTrue result → a.now ≡ b.now }
    ensures other { IsFalse result → a.now ≢ b.now }
{
    a == b
}

/// Calls `recv`, and hands a datagram of the peer to the sender.
fn receive<P: Port>(sender: &mut Sender, port: &mut P, peer: &Endpoint, input: &mut [u8]) -> Came
    requires bound { 0 < length (P.shown port.old).bound }
    requires room { length input.old ≡ 65536 }
    ensures received { HasReceived peer.now sender.old sender.new (P.shown port.old).log (P.shown port.new).log (P.shown port.old).faults (P.shown port.new).faults result }
    ensures bound { (P.shown port.new).bound ≡ (P.shown port.old).bound }
    ensures made { (P.shown port.new).made ≡ (P.shown port.old).made }
{
    match port.recv(input) {
        Err(_) => Came::Failed,
        Ok(Got::Nothing) => Came::Idle,
        Ok(Got::End) => Came::Over,
        Ok(Got::Datagram(meta)) => {
            if !is_same(&meta.peer, peer) {
                return Came::Foreign;
            }
            let _taken = sender.accept(&input[..meta.len], meta.arrival);
            Came::Reply
        }
    }
}

/// Takes turns until an end is due. A turn reads the moment, sends the request that is due and calls `recv`. It gives the end, and
/// how many datagrams of others came.
fn take_turns<P: Port>(
    sender: &mut Sender,
    port: &mut P,
    peer: &Endpoint,
    input: &mut [u8],
) -> (ProbeEnd, u32)
    requires bound { 0 < length (P.shown port.old).bound }
    requires room { length input.old ≡ 65536 }
    requires fresh { IsAfter [] sender.old }
    ensures taken { HasTaken peer.now sender.old sender.new (P.shown port.old).log (P.shown port.new).log (P.shown port.old).faults (P.shown port.new).faults result.0 result.1 }
    ensures bound { (P.shown port.new).bound ≡ (P.shown port.old).bound }
    ensures made { (P.shown port.new).made ≡ (P.shown port.old).made }
{
    let mut progress = Progress::new();
    'turns: loop {
        let now = port.now();
        if let Due::Finished = sender.due(now) {
            return (ProbeEnd::Finished, progress.foreign);
        }
        send_due(sender, port, peer, now);
        let came = receive(sender, port, peer, input);
        progress.add(came);
        if let Some(end) = progress.end(came) {
            return (end, progress.foreign);
        }
    }
}

/// What was counted, where so many datagrams of others came besides.
fn counts_with(sender: &Sender, others: u32) -> Counts
    ensures { (ds : List Deed) → IsAfter ds sender.now → result ≡ spec.counts_with sender.now.plan.ssid ds others }
{
    let mut counts = sender.counts();
    counts.strangers = counts.strangers.saturating_add(u64::from(others));
    counts
}

/// Opens a port at the local address and measures the peer, until all requests are sent and a second has gone by since, the port
/// says that nothing comes any more, its last 64 calls of `recv` failed, or it was called 10,000,000 times. A datagram of another
/// endpoint is counted as a stranger.
pub fn measure<P: Port>(
    alloc: Global,
    probe: &Probe,
    port: &mut P,
) -> Result<Measured, MeasureFault>
    requires { IsProbe probe.now }
    ensures measured { IfOk result (λ m. Measures (plan_of probe.now) probe.now.peer (P.shown port.old).log (P.shown port.new).log (P.shown port.old).faults (P.shown port.new).faults m.counts m.end) }
    ensures bound { IfOk result (λ _. (P.shown port.new).bound ≡ probe.now.local ∷ []) }
    ensures memory { result ≡ Err MeasureFault.Memory → HasNotBegun probe.now.local (P.shown port.old) (P.shown port.new) × ((P.shown port.new).faults ≡ (P.shown port.old).faults) }
    ensures port_open { result ≡ Err MeasureFault.PortOpen → ((P.shown port.new).log ≡ (P.shown port.old).log) × ((P.shown port.new).bound ≡ (P.shown port.old).bound) × Rises (P.shown port.old).faults (P.shown port.new).faults }
    ensures made { (P.shown port.new).made ≡ (P.shown port.old).made }
{
    let Ok(mut input) = vec![in alloc; 0u8; DATAGRAM_ROOM] else {
        return Err(MeasureFault::Memory);
    };
    let Ok(()) = port.open(&[probe.local]) else {
        return Err(MeasureFault::PortOpen);
    };
    let start = port.now();
    let plan = SendPlan {
        ssid: probe.ssid,
        count: probe.count,
        gap: GAP,
        wait: WAIT,
    };
    let Ok(mut sender) = Sender::make(alloc, plan, start) else {
        port.done();
        return Err(MeasureFault::Memory);
    };
    let (end, others) = take_turns(&mut sender, port, &probe.peer, &mut input);
    port.done();
    let counts = counts_with(&sender, others);
    Ok(Measured { counts, end })
}
