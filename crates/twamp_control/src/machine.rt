//! The machine of a connection: it holds octets until a message is whole, and goes from stage to stage.

ghost use Rattle.std.specs.Prelude.{◌≡◌, ◌<◌, ◌++◌, length, slice_index};
ghost use Rattle.twamp_control.specs.Connection.{Feeds, opened};
ghost use Rattle.twamp_control.specs.Table.{
  Steps,
  ask_of,
  request_row,
  row_of,
  set_up_row,
  start_row,
  stepped_of,
  stop_row,
  hang_up_row,
};

use crate::replies::{
    put_accept, put_refusal, put_server_start, put_start_ack, reflected, session_id,
};
use crate::stream::{length_of, message_at};
use crate::types::{Ask, DeskAnswer, Message, Stage, Stepped};
use control_msgs::{Accept, REQUEST_LEN, SET_UP_LEN, is_open_mode, read_request};
use octet_format::put;
use std::marker::Model;

/// A connection of TWAMP-Control, after its greeting was sent. Contracts see it as a `Connection`: how far its octets
/// have been read, its stage, its mode and its count of sessions.
#[derive(Drop)]
pub struct Machine {
    start: u64,
    first: bool,
    buffer: [u8; SET_UP_LEN],
    count: usize,
    stage: Stage,
    mode: u32,
    sessions: u32,
}

impl Model for Machine {
    ghost use Rattle.std.specs.Prelude.{◌<◌, take};
    ghost use Rattle.twamp_control.specs.Stream.{message_length};
    ghost use Rattle.twamp_control.specs.Connection.{Connection};

    ghost Value = { Connection };

    ghost view = { λ m. record {
      start = m.start;
      reading = record { first = m.first; held = take m.count m.buffer };
      stage = m.stage;
      mode = m.mode;
      sessions = m.sessions;
    } };

    ghost invariant = { λ m. m.count < message_length m.first m.buffer };
}

/// The first octet of what is held and of what comes.
fn first_octet(held: &[u8], piece: &[u8]) -> u8
    requires { 0 < length piece.now }
    ensures { result ≡ slice_index (held.now ++ piece.now) 0 }
{
    match held {
        [octet, ..] => *octet,
        [] => piece[0],
    }
}

impl Machine {
    /// A connection whose greeting was sent. `start` is the moment at which the server was started, in nanoseconds
    /// since the start of 1970. It awaits the Set-Up-Response.
    pub fn new(start: u64) -> Machine
        ensures { result ≡ opened start }
    {
        Machine {
            start,
            first: true,
            buffer: [0; SET_UP_LEN],
            count: 0,
            stage: Stage::SettingUp,
            mode: 0,
            sessions: 0,
        }
    }

    /// The mode that was agreed on, and 0 until a Set-Up-Response was accepted.
    pub fn mode(&self) -> u32
        ensures { result ≡ self.now.mode }
    {
        self.mode
    }

    /// How far the connection has come.
    pub fn stage(&self) -> Stage
        ensures { result ≡ self.now.stage }
    {
        self.stage
    }

    /// Takes octets up to the end of one message, and says how many. Without a message the whole piece was taken.
    /// Once the connection is hung up all octets are taken, and no message comes.
    pub fn feed(&mut self, piece: &[u8]) -> (usize, Option<Message>)
        ensures { Feeds self.old self.new piece.now result.0 result.1 }
    {
        if self.stage.is_hung_up() {
            return (piece.len(), None);
        }
        if piece.is_empty() {
            return (0, None);
        }
        let octet = first_octet(&self.buffer[..self.count], piece);
        let whole = length_of(self.first, octet);
        let taken = piece.len().min(whole - self.count);
        put(&mut self.buffer, self.count, &piece[..taken]);
        if self.count + taken < whole {
            self.count += taken;
            return (taken, None);
        }
        let message = message_at(self.first, &self.buffer);
        self.first = false;
        self.count = 0;
        (taken, Some(message))
    }

    /// What a message asks to be done with the connection's sessions. `HangUp` is answered where it is out of turn, and
    /// to mode 0: then nothing is sent.
    pub fn ask(&self, message: &Message) -> Ask
        ensures { result ≡ ask_of self.now message.now }
    {
        match (self.stage, message) {
            (Stage::SettingUp, Message::SetUp { mode }) => {
                if *mode == 0 {
                    Ask::HangUp
                } else {
                    Ask::Nothing
                }
            }
            (Stage::Idle, Message::Request(octets)) => match read_request(octets) {
                Ok(request) => Ask::Reserve(request),
                Err(_) => Ask::Nothing,
            },
            (Stage::Idle, Message::Start) => Ask::StartAll,
            (Stage::Idle | Stage::Started, Message::Stop { number }) => {
                Ask::StopAll { number: *number }
            }
            _ => Ask::HangUp,
        }
    }

    /// Writes the reply to a message at the front of `out`, and goes on to the next stage. `answer` is what was done
    /// of what `ask` said, and `now` is the moment of the message, in nanoseconds since the start of 1970: the SID of
    /// a reserved session is its slot, its generation and this moment. To a request, `Done` is a refusal with 3; to any
    /// other message the answer isn't looked at. The rest of `out` stays.
    pub fn step(
        &mut self,
        message: &Message,
        answer: &DeskAnswer,
        now: u64,
        out: &mut [u8; 64],
    ) -> Stepped
        ensures { Steps (row_of self.old message.now answer.now now) out.old out.new self.new result }
    {
        match (self.stage, message) {
            (Stage::SettingUp, Message::SetUp { mode }) => self.set_up(*mode, out),
            (Stage::Idle, Message::Request(octets)) => self.request(octets, answer, now, out),
            (Stage::Idle, Message::Start) => self.start_all(out),
            (Stage::Idle, Message::Stop { number }) => self.stop(0, *number),
            (Stage::Started, Message::Stop { number }) => {
                let started = self.sessions;
                self.stop(started, *number)
            }
            _ => self.hang_up(),
        }
    }

    /// A message out of turn, or mode 0.
    fn hang_up(&mut self) -> Stepped
        ensures next { self.new ≡ (hang_up_row self.old).next }
        ensures stepped { result ≡ stepped_of (hang_up_row self.old) }
    {
        self.stage = Stage::HungUp;
        Stepped {
            len: 0,
            hang_up: true,
        }
    }

    fn set_up(&mut self, mode: u32, out: &mut [u8; 64]) -> Stepped
        ensures { Steps (set_up_row self.old mode) out.old out.new self.new result }
    {
        if mode == 0 {
            return self.hang_up();
        }
        if !is_open_mode(mode) {
            let len = put_server_start(Accept::NotSupported.code(), self.start, out);
            self.stage = Stage::HungUp;
            return Stepped { len, hang_up: true };
        }
        let len = put_server_start(Accept::Accepted.code(), self.start, out);
        self.stage = Stage::Idle;
        self.mode = mode;
        Stepped {
            len,
            hang_up: false,
        }
    }

    fn request(
        &mut self,
        octets: &[u8; REQUEST_LEN],
        answer: &DeskAnswer,
        now: u64,
        out: &mut [u8; 64],
    ) -> Stepped
        requires { self.old.stage ≡ Stage.Idle }
        ensures { Steps (request_row self.old octets.now answer.now now) out.old out.new self.new result }
    {
        let reflected = reflected(self.mode, octets);
        let len = match answer {
            DeskAnswer::Reserved { place, port } => {
                self.sessions = self.sessions.saturating_add(1);
                put_accept(*port, &session_id(place, now), &reflected, out)
            }
            DeskAnswer::Refused(accept) => put_refusal(accept.code(), &reflected, out),
            DeskAnswer::Done => put_refusal(Accept::NotSupported.code(), &reflected, out),
        };
        Stepped {
            len,
            hang_up: false,
        }
    }

    fn start_all(&mut self, out: &mut [u8; 64]) -> Stepped
        ensures { Steps (start_row self.old) out.old out.new self.new result }
    {
        self.stage = Stage::Started;
        let len = put_start_ack(Accept::Accepted.code(), out);
        Stepped {
            len,
            hang_up: false,
        }
    }

    /// The connection goes on where the client has counted its sessions rightly.
    fn stop(&mut self, expected: u32, number: u32) -> Stepped
        ensures next { self.new ≡ (stop_row self.old expected number).next }
        ensures stepped { result ≡ stepped_of (stop_row self.old expected number) }
    {
        self.sessions = 0;
        if number != expected {
            self.stage = Stage::HungUp;
            return Stepped {
                len: 0,
                hang_up: true,
            };
        }
        self.stage = Stage::Idle;
        Stepped {
            len: 0,
            hang_up: false,
        }
    }
}
