//! A port: where datagrams come from and replies go.

ghost use Rattle.std.specs.Prelude.{◌≡◌, [], ◌∷◌, ◌≤◌, ◌<◌, length, IfOk, OnOk, OnErr};
ghost use Rattle.refl_types.specs.declared.types.Endpoint.{Endpoint};
ghost use Rattle.refl_types.specs.Limits.{datagram_limit};
ghost use Rattle.port_io.specs.Outside.{Rises};
ghost use Rattle.net_io.specs.Log.{Grows};
ghost use Rattle.net_io.specs.PortShown.{PortShown};
ghost use Rattle.net_io.specs.Port.{Receives, recv_entry, send_entry, read, done, datagram_len};

use port_io::Failed;
use refl_types::{Endpoint, LocalAddr, Meta};

/// Octets of a buffer that holds each datagram.
pub const DATAGRAM_ROOM: usize = 65_536;

/// What a port gives.
#[derive(Clone, Copy, Debug, PartialEq, Eq)]
pub enum Got {
    /// A datagram, of which this is told. Its octets stand at the front of the buffer.
    Datagram(Meta),
    /// Nothing has come for now.
    Nothing,
    /// Nothing comes any more.
    End,
}

/// Where datagrams come from and replies go. A call that succeeds leaves the count of faults as it is.
pub trait Port {
    /// What a port tells of how it was made: nothing, or data that no call changes.
    type Setup;

    // What it shows of itself.
    ghost shown: { Self → PortShown Self.Setup };

    /// Binds it to 1 to 16 local addresses. Where that fails, it is bound as before.
    fn open(&mut self, locals: &[LocalAddr]) -> Result<(), Failed>
        requires some { 1 ≤ length locals.now }
        requires few { length locals.now ≤ 16 }
        ensures bound { OnOk result ((shown self.new).bound ≡ locals.now) }
        ensures unbound { OnErr result ((shown self.new).bound ≡ (shown self.old).bound) }
        ensures coming { (shown self.new).coming ≡ (shown self.old).coming }
        ensures log { (shown self.new).log ≡ (shown self.old).log }
        ensures made { (shown self.new).made ≡ (shown self.old).made }
        ensures still { OnOk result ((shown self.new).faults ≡ (shown self.old).faults) }
        ensures cause { OnErr result (Rises (shown self.old).faults (shown self.new).faults) };

    /// Makes it receive on and send from the local addresses that another port is bound to. Where that fails, it is bound as
    /// before.
    fn share(&mut self, first: &Self) -> Result<(), Failed>
        requires { 0 < length (shown first.now).bound }
        ensures bound { OnOk result ((shown self.new).bound ≡ (shown first.now).bound) }
        ensures unbound { OnErr result ((shown self.new).bound ≡ (shown self.old).bound) }
        ensures coming { (shown self.new).coming ≡ (shown self.old).coming }
        ensures log { (shown self.new).log ≡ (shown self.old).log }
        ensures made { (shown self.new).made ≡ (shown self.old).made }
        ensures still { OnOk result ((shown self.new).faults ≡ (shown self.old).faults) }
        ensures cause { OnErr result (Rises (shown self.old).faults (shown self.new).faults) };

    /// Receives a datagram of at most 65,507 octets to the front of a buffer. A receive that fails takes none.
    fn recv(&mut self, buf: &mut [u8]) -> Result<Got, Failed>
        requires bound { 0 < length (shown self.old).bound }
        requires room { length buf.old ≡ DATAGRAM_ROOM }
        ensures len { IfOk result (λ got. datagram_len got ≤ datagram_limit) }
        ensures bound { (shown self.new).bound ≡ (shown self.old).bound }
        ensures coming { Receives (shown self.old).coming (shown self.new).coming buf.new result }
        ensures log { Grows (shown self.old).log (shown self.new).log (recv_entry buf.new result ∷ []) }
        ensures made { (shown self.new).made ≡ (shown self.old).made }
        ensures still { OnOk result ((shown self.new).faults ≡ (shown self.old).faults) }
        ensures cause { OnErr result (Rises (shown self.old).faults (shown self.new).faults) };

    /// The moment, in nanoseconds since the start of 1970.
    fn now(&mut self) -> u64
        ensures bound { (shown self.new).bound ≡ (shown self.old).bound }
        ensures coming { (shown self.new).coming ≡ (shown self.old).coming }
        ensures log { Grows (shown self.old).log (shown self.new).log (read result ∷ []) }
        ensures made { (shown self.new).made ≡ (shown self.old).made }
        ensures still { (shown self.new).faults ≡ (shown self.old).faults };

    /// Sends octets from the local address of that number.
    fn send(&mut self, from: u16, to: &Endpoint, octets: &[u8]) -> Result<(), Failed>
        requires { 0 < length (shown self.old).bound }
        ensures bound { (shown self.new).bound ≡ (shown self.old).bound }
        ensures coming { (shown self.new).coming ≡ (shown self.old).coming }
        ensures log { Grows (shown self.old).log (shown self.new).log (send_entry from to.now octets.now result ∷ []) }
        ensures made { (shown self.new).made ≡ (shown self.old).made }
        ensures still { OnOk result ((shown self.new).faults ≡ (shown self.old).faults) }
        ensures cause { OnErr result (Rises (shown self.old).faults (shown self.new).faults) };

    /// Says that its worker has ended.
    fn done(&mut self)
        ensures bound { (shown self.new).bound ≡ (shown self.old).bound }
        ensures coming { (shown self.new).coming ≡ (shown self.old).coming }
        ensures log { Grows (shown self.old).log (shown self.new).log (done ∷ []) }
        ensures made { (shown self.new).made ≡ (shown self.old).made }
        ensures still { (shown self.new).faults ≡ (shown self.old).faults };
}
