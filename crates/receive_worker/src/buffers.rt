//! The memory of a worker.

ghost use Rattle.std.specs.Prelude.{◌≡◌, ◌≤◌, ◌<◌, ◌∷◌, [], length, take, Ok, IfOk, OnOk, OnErr};
ghost use Rattle.refl_types.specs.declared.types.Meta.{Meta};
ghost use Rattle.port_io.specs.Outside.{Rises};
ghost use Rattle.net_io.specs.Log.{Grows};
ghost use Rattle.net_io.specs.declared.port.Got.TheVariants.{Datagram};
ghost use Rattle.net_io.specs.Port.{Receives, recv_entry, datagram_len};

use net_io::{DATAGRAM_ROOM, Got, Port};
use port_io::Failed;
use refl_types::Memory;
use session_table::KnownRows;
use std::alloc::Global;

/// The buffer into which datagrams are received, the one in which replies are written, and the configurations that are
/// kept by row.
#[derive(Drop)]
pub struct Buffers {
    pub(crate) input: Vec<u8>,
    pub(crate) output: Vec<u8>,
    pub(crate) known: KnownRows,
    ghost input_room: { length input.items ≡ 65536 },
    ghost output_room: { length output.items ≡ 65536 },
}

fn room(alloc: Global) -> Result<Vec<u8>, Memory>
    ensures { IfOk result (λ octets. length octets.items ≡ 65536) }
{
    match vec![in alloc; 0u8; DATAGRAM_ROOM] {
        Ok(octets) => Ok(octets),
        Err(_) => Err(Memory),
    }
}

impl Buffers {
    ghost use Rattle.receive_worker.specs.Buffers.{received, kept_rows};
    ghost use Rattle.receive_worker.specs.Turn.{LastTook};

    /// Takes the memory: two buffers of 65,536 octets, and room for the configurations.
    pub fn make(alloc: Global) -> Result<Buffers, Memory> {
        let input = room(alloc)?;
        let output = room(alloc)?;
        let known = KnownRows::make(alloc)?;
        Ok(Buffers {
            input,
            output,
            known,
        })
    }

    /// Receives a datagram, as `Port::recv` does. Its octets stand at the front of those that are received.
    pub fn recv<P: Port>(&mut self, port: &mut P) -> Result<Got, Failed>
        requires { 0 < length (P.shown port.old).bound }
        ensures kept { kept_rows self.new ≡ kept_rows self.old }
        ensures len { IfOk result (λ got. datagram_len got ≤ 65507) }
        ensures bound { (P.shown port.new).bound ≡ (P.shown port.old).bound }
        ensures coming { Receives (P.shown port.old).coming (P.shown port.new).coming (received self.new) result }
        ensures log { Grows (P.shown port.old).log (P.shown port.new).log (recv_entry (received self.new) result ∷ []) }
        ensures took { (meta : Meta) → result ≡ Ok (Datagram meta) → LastTook (P.shown port.new).log meta (take meta.len (received self.new)) }
        ensures made { (P.shown port.new).made ≡ (P.shown port.old).made }
        ensures still { OnOk result ((P.shown port.new).faults ≡ (P.shown port.old).faults) }
        ensures cause { OnErr result (Rises (P.shown port.old).faults (P.shown port.new).faults) }
    {
        port.recv(&mut self.input)
    }
}
