//! A desk: where control connections and operators come in.

ghost use Rattle.std.specs.Prelude.{◌≡◌, [], ◌∷◌, ◌≤◌, length, Option, IsTrue, IfOk, OnOk, OnErr};
ghost use Rattle.port_io.specs.Outside.{Rises};
ghost use Rattle.net_io.specs.Log.{Grows};
ghost use Rattle.net_io.specs.DeskShown.{DeskShown};
ghost use Rattle.net_io.specs.Desk.{DeskEntry, Gives, next_entry, send_entry, open_entry, hung_up, finished, octet_count, piece_limit};

use port_io::Failed;
use refl_types::{Address, LocalAddr};

/// The most octets that come with one event.
pub const PIECE_ROOM: usize = 4_096;

/// Who speaks on a connection.
#[derive(Clone, Copy, Debug, PartialEq, Eq)]
pub enum ConnKind {
    /// A client of TWAMP-Control (RFC 4656, section 3; RFC 5357, section 3).
    Control,
    Operator,
}

/// What happens at a desk.
#[derive(Clone, Copy, Debug, PartialEq, Eq)]
pub enum DeskEvent {
    /// A connection was opened, which has this number from now on.
    Opened {
        conn: u32,
        kind: ConnKind,
        peer: Address,
        local: Address,
    },
    /// So many octets came on a connection, at most 4,096.
    Bytes {
        conn: u32,
        len: usize,
    },
    /// Its peer has closed a connection.
    Closed {
        conn: u32,
    },
    /// Time has passed.
    Tick,
    /// Nothing happens any more.
    End,
}

/// An event and its moment, in nanoseconds since the start of 1970.
#[derive(Clone, Copy, Debug, PartialEq, Eq)]
pub struct Timed {
    pub moment: u64,
    pub event: DeskEvent,
}

/// Where control connections and operators come in. A call that succeeds leaves the count of faults as it is.
pub trait Desk {
    /// What a desk tells of how it was made: nothing, or data that no call changes.
    type Setup;

    // What it shows of itself.
    ghost shown: { Self → DeskShown Self.Setup };
    // How it goes on by an entry of its log, whether the log is told or not: from what it was before the call, to what it is then.
    ghost goes: { Self → DeskEntry → Self → Type 0 } = { λ _ _ _. Unit {0} };

    /// Listens for control connections and for operators, where there is an address for them. Where that fails, the desk is
    /// open only if it was before.
    fn open(
        &mut self,
        control: Option<LocalAddr>,
        operator: Option<LocalAddr>,
    ) -> Result<(), Failed>
        ensures open { OnOk result (IsTrue (shown self.new).is_open) }
        ensures not_open { OnErr result ((shown self.new).is_open ≡ (shown self.old).is_open) }
        ensures coming { (shown self.new).coming ≡ (shown self.old).coming }
        ensures log { Grows (shown self.old).log (shown self.new).log (open_entry control operator result ∷ []) }
        ensures made { (shown self.new).made ≡ (shown self.old).made }
        ensures goes { goes self.old (open_entry control operator result) self.new }
        ensures still { OnOk result ((shown self.new).faults ≡ (shown self.old).faults) }
        ensures cause { OnErr result (Rises (shown self.old).faults (shown self.new).faults) };

    /// Waits for the next event. The octets that come with it stand at the front of the buffer. A call that fails takes none.
    fn next(&mut self, buf: &mut [u8]) -> Result<Timed, Failed>
        requires open { IsTrue (shown self.old).is_open }
        requires room { piece_limit ≤ length buf.old }
        ensures len { IfOk result (λ t. octet_count t.event ≤ piece_limit) }
        ensures open { (shown self.new).is_open ≡ (shown self.old).is_open }
        ensures coming { Gives (shown self.old).coming (shown self.new).coming buf.new result }
        ensures log { Grows (shown self.old).log (shown self.new).log (next_entry buf.new result ∷ []) }
        ensures made { (shown self.new).made ≡ (shown self.old).made }
        ensures goes { goes self.old (next_entry buf.new result) self.new }
        ensures still { OnOk result ((shown self.new).faults ≡ (shown self.old).faults) }
        ensures cause { OnErr result (Rises (shown self.old).faults (shown self.new).faults) };

    /// Sends octets on a connection.
    fn send(&mut self, conn: u32, octets: &[u8]) -> Result<(), Failed>
        ensures open { (shown self.new).is_open ≡ (shown self.old).is_open }
        ensures coming { (shown self.new).coming ≡ (shown self.old).coming }
        ensures log { Grows (shown self.old).log (shown self.new).log (send_entry conn octets.now result ∷ []) }
        ensures made { (shown self.new).made ≡ (shown self.old).made }
        ensures goes { goes self.old (send_entry conn octets.now result) self.new }
        ensures still { OnOk result ((shown self.new).faults ≡ (shown self.old).faults) }
        ensures cause { OnErr result (Rises (shown self.old).faults (shown self.new).faults) };

    /// Hangs a connection up.
    fn hang_up(&mut self, conn: u32)
        ensures open { (shown self.new).is_open ≡ (shown self.old).is_open }
        ensures coming { (shown self.new).coming ≡ (shown self.old).coming }
        ensures log { Grows (shown self.old).log (shown self.new).log (hung_up conn ∷ []) }
        ensures made { (shown self.new).made ≡ (shown self.old).made }
        ensures goes { goes self.old (hung_up conn) self.new }
        ensures still { (shown self.new).faults ≡ (shown self.old).faults };

    /// Says that the desk has ended.
    fn finish(&mut self)
        ensures coming { (shown self.new).coming ≡ (shown self.old).coming }
        ensures log { Grows (shown self.old).log (shown self.new).log (finished ∷ []) }
        ensures made { (shown self.new).made ≡ (shown self.old).made }
        ensures goes { goes self.old finished self.new }
        ensures still { (shown self.new).faults ≡ (shown self.old).faults };
}
