//! What happens at a desk, each at its place in an order, and what the desk does for it.

ghost use Rattle.std.specs.Prelude.{◌≡◌, All};
ghost use Rattle.net_io.specs.Desk.{octet_count};
ghost use Rattle.net_io.specs.ScriptDesk.{IsWhole};

use super::order::{Order, Turns};
use crate::shared::{CLIENT, SERVER};
use net_io::{ConnKind, Desk, DeskDeed, DeskEvent, DeskItem, PIECE_ROOM, ScriptDesk, Timed};
use port_io::Failed;
use refl_types::LocalAddr;
use std::alloc::Global;
use std::process::Abort;

/// The connection of the operator.
const OPERATOR: u32 = 3;

/// What happens at a desk, and all that it has to do.
#[derive(Drop)]
pub struct DeskSide {
    alloc: Global,
    places: Vec<u64>,
    items: Vec<DeskItem>,
    deeds: Vec<(DeskDeed, Vec<u8>)>,
    ghost whole: { All IsWhole items.items },
}

impl DeskSide {
    pub fn new(rt: &impl Abort, alloc: Global) -> DeskSide {
        let mut side = DeskSide {
            alloc,
            places: Vec::new(alloc),
            items: Vec::new(alloc),
            deeds: Vec::new(alloc),
        };
        let opened = DeskDeed::Opened {
            control: None,
            operator: None,
        };
        side.does(rt, opened, b"");
        side
    }

    fn does(&mut self, rt: &impl Abort, deed: DeskDeed, octets: &[u8]) {
        let octets = Vec::from_slice(self.alloc, octets).expect(rt, "octets");
        self.deeds.push((deed, octets)).expect(rt, "room");
    }

    /// An event that comes without octets.
    fn tells(&mut self, rt: &impl Abort, place: u64, moment: u64, event: DeskEvent)
        requires { octet_count event ≡ 0 }
    {
        let item = DeskItem {
            moment,
            event,
            octets: Vec::new(self.alloc),
        };
        self.places.push(place).expect(rt, "room");
        self.items.push(item).expect(rt, "room");
        self.does(rt, DeskDeed::Gave(Timed { moment, event }), b"");
    }

    fn opens(&mut self, rt: &impl Abort, place: u64, conn: u32, kind: ConnKind) {
        let event = DeskEvent::Opened {
            conn,
            kind,
            peer: CLIENT,
            local: SERVER,
        };
        self.tells(rt, place, 0, event);
    }

    /// An operator's connection.
    pub fn opens_operator(&mut self, rt: &impl Abort, place: u64) {
        self.opens(rt, place, OPERATOR, ConnKind::Operator);
    }

    /// A client's connection, and what it is greeted with.
    pub fn opens_client(&mut self, rt: &impl Abort, place: u64, conn: u32, greeting: &[u8]) {
        self.opens(rt, place, conn, ConnKind::Control);
        self.sends(rt, conn, greeting);
    }

    pub fn gives(&mut self, rt: &impl Abort, place: u64, moment: u64, conn: u32, octets: &[u8]) {
        assert!(rt; octets.len() <= PIECE_ROOM);
        let event = DeskEvent::Bytes {
            conn,
            len: octets.len(),
        };
        let item = DeskItem {
            moment,
            event,
            octets: Vec::from_slice(self.alloc, octets).expect(rt, "octets"),
        };
        self.places.push(place).expect(rt, "room");
        self.items.push(item).expect(rt, "room");
        self.does(rt, DeskDeed::Gave(Timed { moment, event }), octets);
    }

    /// A line of the operator, and its answer.
    pub fn line(&mut self, rt: &impl Abort, place: u64, line: &[u8], answer: &[u8]) {
        self.gives(rt, place, 0, OPERATOR, line);
        self.sends(rt, OPERATOR, answer);
    }

    pub fn ticks(&mut self, rt: &impl Abort, place: u64, moment: u64) {
        self.tells(rt, place, moment, DeskEvent::Tick);
    }

    pub fn ends(&mut self, rt: &impl Abort, place: u64, moment: u64) {
        self.tells(rt, place, moment, DeskEvent::End);
    }

    /// The desk sends octets.
    pub fn sends(&mut self, rt: &impl Abort, conn: u32, octets: &[u8]) {
        self.does(rt, DeskDeed::Sent { conn }, octets);
    }

    /// The desk of this side, in an order.
    pub fn desk(self, rt: &impl Abort, order: &Order) -> SeatedDesk {
        let DeskSide {
            alloc,
            places,
            items,
            deeds,
            ..
        } = self;
        let desk = ScriptDesk::make(
            alloc,
            items,
            Vec::new(alloc),
            Vec::new(alloc),
            Vec::new(alloc),
            100,
            10_000,
        )
        .expect(rt, "a desk");
        SeatedDesk {
            desk,
            turns: order.seat(rt, places),
            deeds,
        }
    }
}

/// A desk in an order, and all that it has to do.
#[derive(Drop)]
pub struct SeatedDesk {
    desk: ScriptDesk,
    turns: Turns,
    deeds: Vec<(DeskDeed, Vec<u8>)>,
}

impl SeatedDesk {
    /// Ends the test where the desk has done something else, or hasn't ended.
    pub fn expect_done(&mut self, rt: &impl Abort, alloc: Global) {
        self.deeds
            .push((DeskDeed::Finished, Vec::new(alloc)))
            .expect(rt, "room");
        for (at, (deed, octets)) in self.deeds.iter().enumerate() {
            let Some((done, with)) = self.desk.entry(at) else {
                panic!(rt; "the desk has no entry {at}");
            };
            assert_eq!(rt; done, *deed, "entry {at} of the desk");
            assert_eq!(rt; with, octets.as_slice(), "entry {at} of the desk");
        }
        assert!(rt; self.desk.entry(self.deeds.len()).is_none());
    }
}

impl Desk for SeatedDesk {
    ghost use Rattle.std.specs.Prelude.{None};

    type Setup = ();

    ghost shown = { λ d. record { is_open = d.desk.is_open; coming = None; log = None; made = tt; faults = d.desk.faults } };

    fn open(
        &mut self,
        control: Option<LocalAddr>,
        operator: Option<LocalAddr>,
    ) -> Result<(), Failed> {
        self.desk.open(control, operator)
    }

    fn next(&mut self, buf: &mut [u8]) -> Result<Timed, Failed> {
        self.turns.take();
        self.desk.next(buf)
    }

    fn send(&mut self, conn: u32, octets: &[u8]) -> Result<(), Failed> {
        self.desk.send(conn, octets)
    }

    fn hang_up(&mut self, conn: u32) {
        self.desk.hang_up(conn);
    }

    fn finish(&mut self) {
        self.turns.end();
        self.desk.finish();
    }
}
