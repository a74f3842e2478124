//! The joined desk.

ghost use Rattle.std.specs.Prelude.{◌≡◌, ◌≤◌, ◌<◌, [], Some, IfOk, length, take, drop};
ghost use Rattle.net_io.specs.Desk.{octet_count, piece_limit};
ghost use Rattle.joined_desk.specs.Joined.{at_moment, given_in, octets_in, reaches, stage_behind, stage_hung_up, tick_moment};

use crate::carry::carry;
use crate::setup::{JoinSetup, JoinStage};
use net_io::{ConnKind, Desk, DeskDeed, DeskEvent, Log, Timed};
use port_io::Failed;
use refl_types::{Address, LocalAddr, Memory};
use std::alloc::Global;
use std::marker::Model;
use twamp_client::Client;

/// The number of the one connection.
const CONNECTION: u32 = 0;

/// From where it comes.
const PEER: Address = Address::V4([192, 0, 2, 1]);

/// The moment of the Tick, behind which nothing comes.
const TICK_MOMENT: u64 = 1 << 63;

/// The most octets that a client writes.
const WRITE_LIMIT: usize = 2_020;

/// The room of the log.
const ENTRY_ROOM: usize = 4_096;

const OCTET_ROOM: usize = 1_048_576;

/// A desk in memory that joins one client to a server. Contracts see it as a `JoinState`. It never fails.
#[derive(Drop)]
pub struct JoinDesk {
    setup: JoinSetup,
    client: Client,
    written: Vec<u8>,
    at: usize,
    stage: JoinStage,
    log: Log<DeskDeed>,
}

impl Model for JoinDesk {
    ghost use Rattle.std.specs.Prelude.{◌≤◌, ◌<◌, ◌+◌, drop, vec_len, vec_capacity};
    ghost use Rattle.twamp_client.specs.Room.{left_to_write};
    ghost use Rattle.joined_desk.specs.Joined.{JoinState};

    ghost Value = { JoinState };

    ghost view = { λ s. record { setup = s.setup; client = s.client; pending = drop s.at s.written.items; stage = s.stage; log = s.log } };

    ghost invariant = { λ s. (0 < s.setup.piece) × (s.setup.piece ≤ 4096) × (s.at ≤ vec_len s.written)
        × (vec_len s.written + left_to_write s.client ≤ vec_capacity s.written) };
}

/// The next event, and how many octets come with it, which go to the front of the buffer.
fn give(stage: JoinStage, setup: &JoinSetup, pending: &[u8], buf: &mut [u8]) -> (Timed, usize)
    requires most { setup.now.piece ≤ 4096 }
    requires some { 0 < setup.now.piece }
    requires room { piece_limit ≤ length buf.old }
    ensures event { result.0 ≡ given_in stage setup.now pending.now }
    ensures count { result.1 ≡ octet_count result.0.event }
    ensures few { result.1 ≤ piece_limit }
    ensures len { result.1 ≡ length (octets_in stage setup.now pending.now) }
    ensures octets { take result.1 buf.new ≡ octets_in stage setup.now pending.now }
{
    match stage {
        JoinStage::Unopened => {
            let event = DeskEvent::Opened {
                conn: CONNECTION,
                kind: ConnKind::Control,
                peer: PEER,
                local: setup.local,
            };
            (Timed { moment: 0, event }, 0)
        }
        JoinStage::Carrying => {
            if pending.is_empty() {
                return (tick(), 0);
            }
            let len = pending.len().min(setup.piece);
            buf[..len].copy_from_slice(&pending[..len]);
            let event = DeskEvent::Bytes {
                conn: CONNECTION,
                len,
            };
            (Timed { moment: 0, event }, len)
        }
        JoinStage::HungUp => (tick(), 0),
        JoinStage::Over => {
            let event = DeskEvent::End;
            (Timed { moment: 0, event }, 0)
        }
    }
}

fn tick() -> Timed
    ensures { result ≡ at_moment tick_moment DeskEvent.Tick }
{
    Timed {
        moment: TICK_MOMENT,
        event: DeskEvent::Tick,
    }
}

/// How far the desk has come behind an event, before which octets were pending or not.
fn stage_behind(stage: JoinStage, pending: &[u8]) -> JoinStage
    ensures { result ≡ stage_behind stage pending.now }
{
    match stage {
        JoinStage::Unopened => JoinStage::Carrying,
        JoinStage::Carrying => {
            if pending.is_empty() {
                return JoinStage::Over;
            }
            JoinStage::Carrying
        }
        JoinStage::HungUp => JoinStage::Over,
        JoinStage::Over => JoinStage::Over,
    }
}

/// Whether the connection is open, and this is its number.
fn reaches(conn: u32, stage: JoinStage) -> bool
    ensures { result ≡ reaches conn stage }
{
    match stage {
        JoinStage::Carrying => conn == CONNECTION,
        JoinStage::Unopened | JoinStage::HungUp | JoinStage::Over => false,
    }
}

fn stage_hung_up(conn: u32, stage: JoinStage) -> JoinStage
    ensures { result ≡ stage_hung_up conn stage }
{
    if reaches(conn, stage) {
        return JoinStage::HungUp;
    }
    stage
}

/// The octets from a place on.
fn rest_of(octets: &[u8], at: usize) -> &[u8]
    requires { at ≤ length octets.now }
    ensures { result.now ≡ drop at octets.now }
{
    &octets[at..]
}

impl JoinDesk {
    ghost use Rattle.std.specs.Prelude.{◌≡◌, ◌≤◌, ◌<◌, [], Some, IfOk};
    ghost use Rattle.joined_desk.specs.Joined.{entry_room, octet_room};

    /// A desk that opens one control connection from 192.0.2.1 to this address, over which it carries what either side writes in
    /// pieces of at most so many octets. It is open from now on. All memory is taken here; the client is given up where there is
    /// none.
    pub fn make(
        alloc: Global,
        client: Client,
        local: Address,
        piece: usize,
    ) -> Result<JoinDesk, Memory>
        requires some { 0 < piece }
        requires most { piece ≤ 4096 }
        ensures { IfOk result (λ s. s ≡ record {
          setup = record { client = client; local = local; piece = piece };
          client = client;
          pending = [];
          stage = JoinStage.Unopened;
          log = record { told = Some []; entries = entry_room; octets = octet_room };
        }) }
    {
        client.law_sound();
        let log = Log::make(alloc, ENTRY_ROOM, OCTET_ROOM)?;
        let copied = client.copy_in(alloc)?;
        let Ok(written) = Vec::with_capacity(alloc, WRITE_LIMIT) else {
            return Err(Memory);
        };
        Ok(JoinDesk {
            setup: JoinSetup {
                client: copied,
                local,
                piece,
            },
            client,
            written,
            at: 0,
            stage: JoinStage::Unopened,
            log,
        })
    }

    /// The client as it stands now.
    pub fn client(&self) -> &Client
        ensures { result.now ≡ self.now.client }
    {
        &self.client
    }
}

impl Desk for JoinDesk {
    ghost use Rattle.std.specs.Prelude.{◌≡◌, ◌≤◌, [], ◌∷◌, length, None, Some, true, IsTrue, IfOk, OnOk, OnErr};
    ghost use Rattle.port_io.specs.Outside.{Rises};
    ghost use Rattle.net_io.specs.Log.{Grows};
    ghost use Rattle.net_io.specs.Desk.{DeskEntry, Gives, next_entry, send_entry, open_entry, hung_up, finished, octet_count, piece_limit};
    ghost use Rattle.joined_desk.specs.Joined.{JoinState, JoinGoes, told_log};

    type Setup = JoinSetup;

    ghost shown = { λ s. record { is_open = true; coming = None; log = told_log s; made = s.setup; faults = 0 } };

    ghost goes = { JoinGoes };

    fn open(
        &mut self,
        control: Option<LocalAddr>,
        operator: Option<LocalAddr>,
    ) -> Result<(), Failed> {
        self.log.note(DeskDeed::Opened { control, operator }, &[]);
        Ok(())
    }

    fn next(&mut self, buf: &mut [u8]) -> Result<Timed, Failed> {
        let pending = rest_of(&self.written, self.at);
        let (timed, len) = give(self.stage, &self.setup, pending, buf);
        self.stage = stage_behind(self.stage, pending);
        self.at += len;
        self.log.note(DeskDeed::Gave(timed), &buf[..len]);
        Ok(timed)
    }

    fn send(&mut self, conn: u32, octets: &[u8]) -> Result<(), Failed> {
        let reached = reaches(conn, self.stage);
        carry(
            &mut self.client,
            &mut self.written,
            self.setup.piece,
            octets,
            reached,
        );
        self.log.note(DeskDeed::Sent { conn }, octets);
        Ok(())
    }

    fn hang_up(&mut self, conn: u32) {
        self.stage = stage_hung_up(conn, self.stage);
        self.log.note(DeskDeed::HungUp { conn }, &[]);
    }

    fn finish(&mut self) {
        self.log.note(DeskDeed::Finished, &[]);
    }
}
