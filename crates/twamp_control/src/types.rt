//! What passes between a connection and whoever keeps the sessions.

ghost use Rattle.std.specs.Prelude.{◌≡◌};
ghost use Rattle.twamp_control.specs.Connection.{is_hung_up};

use control_msgs::{Accept, REQUEST_LEN, Request};
use refl_types::Place;

/// A message of a client (RFC 5357, section 3).
#[derive(Clone, Copy, Debug, PartialEq, Eq)]
pub enum Message {
    /// The Set-Up-Response, with the mode that the client has chosen. It is the first message.
    SetUp { mode: u32 },
    /// A Request-TW-Session, not read yet.
    Request([u8; REQUEST_LEN]),
    /// A Start-Sessions.
    Start,
    /// A Stop-Sessions, with its Number of Sessions.
    Stop { number: u32 },
    /// An octet that is no command number of the open mode.
    Unknown(u8),
}

/// What is to be done with the connection's sessions before the reply is written.
#[derive(Clone, Copy, Debug, PartialEq, Eq)]
pub enum Ask {
    /// A session is to be reserved.
    Reserve(Request),
    /// All reserved sessions are to be started, in the order in which they were reserved.
    StartAll,
    /// Reserved sessions are to be abandoned, and started ones end after their timeout.
    StopAll { number: u32 },
    /// Nothing.
    Nothing,
    /// The connection is hung up, and nothing is sent before.
    HangUp,
}

/// What was done.
#[derive(Clone, Copy, Debug, PartialEq, Eq)]
pub enum DeskAnswer {
    /// A session was reserved at this place, for packets to this port.
    Reserved { place: Place, port: u16 },
    /// No session was reserved, since something isn't supported, or there is no room for it.
    Refused(Accept),
    /// What was asked was done, and wasn't a reservation.
    Done,
}

/// What a step of the connection leaves to be done.
#[derive(Clone, Copy, Debug, PartialEq, Eq)]
pub struct Stepped {
    /// How many octets of reply were written. With none, nothing is sent.
    pub len: usize,
    /// The connection is hung up, after the reply was sent.
    pub hang_up: bool,
}

/// How far a connection has come.
#[derive(Clone, Copy, Debug, PartialEq, Eq)]
pub enum Stage {
    /// The server has sent its greeting.
    SettingUp,
    /// Sessions may be asked for.
    Idle,
    /// The sessions run.
    Started,
    /// The connection is over, and nothing more of it is read.
    HungUp,
}

impl Stage {
    /// Whether the connection is over.
    pub fn is_hung_up(self) -> bool
        ensures { result ≡ is_hung_up self }
    {
        matches!(self, Stage::HungUp)
    }
}
