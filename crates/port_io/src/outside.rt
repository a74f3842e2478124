//! A source of octets and a sink of octets.

ghost use Rattle.std.specs.Prelude.{◌≡◌, ℕ, ◌<◌, ◌≤◌, List, Option, length, IfOk, OnOk, OnErr};
ghost use Rattle.std.specs.Io.KnownBytes.{ReadConsumes, WriteAppends, Appends};
ghost use Rattle.port_io.specs.Outside.{Rises, AppendsFront, AppendsPart, counted};
ghost use Rattle.port_io.specs.SinkShown.{SinkShown};

/// A call of the outside failed, and the object counted it.
#[derive(Clone, Copy, Debug, PartialEq, Eq)]
pub struct Failed;

/// Counts a failure. The count stands still at the last value of 64 bits.
pub fn count_failure(faults: &mut u64) -> Failed
    ensures one { faults.new ≡ counted faults.old }
    ensures rises { Rises faults.old faults.new }
{
    *faults = faults.saturating_add(1);
    Failed
}

/// Where octets come from.
pub trait Source {
    // The octets left, where this is told.
    ghost left: { Self → Option (List ℕ) };
    // How often it has failed.
    ghost faults: { Self → ℕ };

    /// Reads octets to the front of a buffer. 0 for a buffer that isn't empty is the end. A read that fails takes none, and
    /// is counted; one that doesn't fail is not.
    fn read(&mut self, buf: &mut [u8]) -> Result<usize, Failed>
        ensures bound { IfOk result (λ n. n ≤ length buf.new) }
        ensures octets { ReadConsumes (left self.old) (left self.new) result buf.new }
        ensures still { OnOk result (faults self.new ≡ faults self.old) }
        ensures cause { OnErr result (Rises (faults self.old) (faults self.new)) };
}

/// Where octets go.
pub trait Sink {
    // What it shows of itself.
    ghost shown: { Self → SinkShown };

    /// Writes octets from the front of a piece, at least one where there is one. A write that fails takes none, and is
    /// counted; one that doesn't fail is not.
    fn write(&mut self, octets: &[u8]) -> Result<usize, Failed>
        ensures bound { IfOk result (λ n. n ≤ length octets.now) }
        ensures some { IfOk result (λ n. 0 < length octets.now → 0 < n) }
        ensures octets { WriteAppends (shown self.old).written (shown self.new).written result octets.now }
        ensures still { OnOk result ((shown self.new).faults ≡ (shown self.old).faults) }
        ensures cause { OnErr result (Rises (shown self.old).faults (shown self.new).faults) };
}

/// Writes all of the octets, unless a write fails; then a front of them was written, and not all.
#[tactic(auto, using(crate::proofs::Known::appends_front))]
pub fn write_all<K: Sink>(out: &mut K, octets: &[u8]) -> Result<(), Failed>
    ensures all { OnOk result (Appends (K.shown out.old).written (K.shown out.new).written octets.now) }
    ensures front { OnErr result (AppendsFront (K.shown out.old).written (K.shown out.new).written octets.now) }
    ensures part { OnErr result (AppendsPart (K.shown out.old).written (K.shown out.new).written octets.now) }
    ensures still { OnOk result ((K.shown out.new).faults ≡ (K.shown out.old).faults) }
    ensures cause { OnErr result (Rises (K.shown out.old).faults (K.shown out.new).faults) }
{
    let mut at = 0;
    while at < octets.len() {
        at += out.write(&octets[at..])?;
    }
    Ok(())
}
