//! What operators and clients say to a desk, what the desk does for it, and a run in which just that happens.

ghost use Rattle.std.specs.Prelude.{◌≡◌, All};
ghost use Rattle.net_io.specs.Desk.{octet_count};
ghost use Rattle.net_io.specs.ScriptDesk.{IsWhole};

use super::{NAME, one_file, port_at};
use crate::shared::{CLIENT, SECOND, SERVER};
use file_service::run_file;
use net_io::{ConnKind, DeskDeed, DeskEvent, DeskItem, PIECE_ROOM, ScriptDesk, ScriptPort, Timed};
use port_io::{MemFiles, MemSink};
use refl_types::LocalAddr;
use std::alloc::Global;
use std::process::Abort;
use std::thread::Threads;

/// The line of a worker whose port gave its end alone.
const QUIET_WORKER: &[u8] =
    b"worker 0 taken 0 sent 0 nosession 0 short 0 badhmac 0 changed 0 noreply 0 sendfault 0 recvfault 0 end\n";

/// What happens at a desk, and all that it has to do, in their order.
#[derive(Drop)]
pub struct Talk {
    alloc: Global,
    items: Vec<DeskItem>,
    deeds: Vec<(DeskDeed, Vec<u8>)>,
    sends: u64,
    fail_send: Vec<u64>,
    ghost whole: { All IsWhole items.items },
}

impl Talk {
    /// The desk is opened at these addresses.
    pub fn new(
        rt: &impl Abort,
        alloc: Global,
        control: Option<LocalAddr>,
        operator: Option<LocalAddr>,
    ) -> Talk {
        let mut talk = Talk {
            alloc,
            items: Vec::new(alloc),
            deeds: Vec::new(alloc),
            sends: 0,
            fail_send: Vec::new(alloc),
        };
        talk.does(rt, DeskDeed::Opened { control, operator }, b"");
        talk
    }

    fn does(&mut self, rt: &impl Abort, deed: DeskDeed, octets: &[u8]) {
        let octets = Vec::from_slice(self.alloc, octets).expect(rt, "octets");
        self.deeds.push((deed, octets)).expect(rt, "room");
    }

    /// An event that comes without octets.
    fn tells(&mut self, rt: &impl Abort, moment: u64, event: DeskEvent)
        requires { octet_count event ≡ 0 }
    {
        let item = DeskItem {
            moment,
            event,
            octets: Vec::new(self.alloc),
        };
        self.items.push(item).expect(rt, "room");
        self.does(rt, DeskDeed::Gave(Timed { moment, event }), b"");
    }

    pub fn opens(&mut self, rt: &impl Abort, moment: u64, conn: u32, kind: ConnKind) {
        let event = DeskEvent::Opened {
            conn,
            kind,
            peer: CLIENT,
            local: SERVER,
        };
        self.tells(rt, moment, event);
    }

    pub fn gives(&mut self, rt: &impl Abort, moment: u64, conn: u32, octets: &[u8]) {
        assert!(rt; octets.len() <= PIECE_ROOM);
        let event = DeskEvent::Bytes {
            conn,
            len: octets.len(),
        };
        let item = DeskItem {
            moment,
            event,
            octets: Vec::from_slice(self.alloc, octets).expect(rt, "octets"),
        };
        self.items.push(item).expect(rt, "room");
        self.does(rt, DeskDeed::Gave(Timed { moment, event }), octets);
    }

    pub fn closes(&mut self, rt: &impl Abort, moment: u64, conn: u32) {
        self.tells(rt, moment, DeskEvent::Closed { conn });
    }

    pub fn ticks(&mut self, rt: &impl Abort, moment: u64) {
        self.tells(rt, moment, DeskEvent::Tick);
    }

    pub fn ends(&mut self, rt: &impl Abort, moment: u64) {
        self.tells(rt, moment, DeskEvent::End);
    }

    /// The desk sends octets.
    pub fn is_sent(&mut self, rt: &impl Abort, conn: u32, octets: &[u8]) {
        self.sends = self.sends.saturating_add(1);
        self.does(rt, DeskDeed::Sent { conn }, octets);
    }

    /// The desk fails to send octets.
    pub fn is_lost(&mut self, rt: &impl Abort, conn: u32, octets: &[u8]) {
        self.sends = self.sends.saturating_add(1);
        self.fail_send.push(self.sends).expect(rt, "room");
        self.does(rt, DeskDeed::SendFailed { conn }, octets);
    }

    /// The desk hangs a connection up.
    pub fn is_hung_up(&mut self, rt: &impl Abort, conn: u32) {
        self.does(rt, DeskDeed::HungUp { conn }, b"");
    }
}

/// Ends the test where a desk did something else.
fn expect_deeds(rt: &impl Abort, desk: &ScriptDesk, deeds: &[(DeskDeed, Vec<u8>)]) {
    for (at, (deed, octets)) in deeds.iter().enumerate() {
        let Some((done, with)) = desk.entry(at) else {
            panic!(rt; "there is no entry {at}");
        };
        assert_eq!(rt; done, *deed, "entry {at}");
        assert_eq!(rt; with, octets.as_slice(), "entry {at}");
    }
    assert!(rt; desk.entry(deeds.len()).is_none());
}

/// Serves by a file's text with one worker, whose port tells the moment of the opening, second 5, and then its end. Ends the
/// test where the desk does something else than in this talk, or another report is written than of a quiet worker and these
/// last two lines.
pub fn run<R: Threads + Abort + Sync>(
    rt: &R,
    alloc: Global,
    text: &str,
    mut talk: Talk,
    report: &[u8],
) {
    talk.does(rt, DeskDeed::Finished, b"");
    let Talk {
        items,
        deeds,
        fail_send,
        ..
    } = talk;
    let mut desk = ScriptDesk::make(
        alloc,
        items,
        Vec::new(alloc),
        Vec::new(alloc),
        fail_send,
        200,
        10_000,
    )
    .expect(rt, "a desk");
    let mut ports = one_port(rt, alloc);
    let mut files = one_file(rt, alloc, text);
    let mut out = MemSink::make(alloc, 1000, Vec::new(alloc)).expect(rt, "a sink");
    let status = run_file(
        rt,
        alloc,
        NAME,
        &mut files,
        &mut out,
        ports.as_mut_slice(),
        &mut desk,
    );
    assert_eq!(rt; status, 0);
    expect_report(rt, alloc, &out, report);
    expect_deeds(rt, &desk, &deeds);
    let_go(ports, files, out, desk, deeds);
}

fn one_port(rt: &impl Abort, alloc: Global) -> Vec<ScriptPort> {
    let port = port_at(rt, alloc, 5 * SECOND);
    let mut ports = Vec::new(alloc);
    ports.push(port).expect(rt, "room");
    ports
}

/// Ends the test where another report was written than of a quiet worker and these last two lines.
fn expect_report(rt: &impl Abort, alloc: Global, out: &MemSink, report: &[u8]) {
    let mut wanted = Vec::from_slice(alloc, QUIET_WORKER).expect(rt, "a report");
    wanted.extend_from_slice(report).expect(rt, "room");
    assert_eq!(rt; out.written(), wanted.as_slice());
    let_go_octets(wanted);
}

fn let_go_octets(_octets: Vec<u8>) {}

fn let_go(
    _ports: Vec<ScriptPort>,
    _files: MemFiles,
    _out: MemSink,
    _desk: ScriptDesk,
    _deeds: Vec<(DeskDeed, Vec<u8>)>,
) {}
