//! Runs in which one thing happens behind the other, at the desk or at a port.

use super::desk_side::DeskSide;
use super::order::Order;
use super::packets::{Packet, SENDING, sender};
use super::port_side::{PortSide, SeatedPort};
use super::{let_go, run};
use control_desk::DeskTally;
use receive_worker::Tally;
use reflector_serve::Report;
use std::alloc::Global;
use std::process::Abort;
use std::thread::Threads;

/// Something that happens, or that is done for it.
#[derive(Clone, Copy)]
pub enum Step<'a> {
    /// An operator connects.
    Operator,
    /// The operator's line, and its answer.
    Line(&'a [u8], &'a [u8]),
    /// A client of TWAMP-Control connects, and is sent this.
    Client(&'a [u8]),
    /// What the client says at the moment, and what it is sent.
    Talk(u64, &'a [u8], &'a [u8]),
    /// Time passes at the desk.
    Tick(u64),
    /// The desk ends, where no operator ends it.
    End(u64),
    /// The port of that number gets a datagram of the sender of that port.
    Takes(usize, u16, Packet<'a>),
    /// And answers it so.
    Sends(usize, u16, Packet<'a>),
}

/// A run, and what it comes to.
#[derive(Clone, Copy)]
pub struct Run<'a> {
    pub text: &'a str,
    /// What the first port tells at the opening.
    pub moment: u64,
    pub steps: &'a [Step<'a>],
    /// One for each port.
    pub tallies: &'a [Tally],
    pub desk: DeskTally,
    pub live: u32,
}

/// The connection of the client.
const CLIENT: u32 = 7;

/// What happens at the desk and at the ports, so far.
#[derive(Drop)]
struct Sides {
    alloc: Global,
    desk: DeskSide,
    ports: Vec<PortSide>,
    place: u64,
}

impl Sides {
    fn new(rt: &impl Abort, alloc: Global, ports: usize, moment: u64) -> Sides {
        let mut first = PortSide::new(alloc);
        first.tells(rt, moment);
        let mut sides = Sides {
            alloc,
            desk: DeskSide::new(rt, alloc),
            ports: Vec::new(alloc),
            place: 0,
        };
        sides.ports.push(first).expect(rt, "room");
        for _further in 1..ports {
            sides.ports.push(PortSide::new(alloc)).expect(rt, "room");
        }
        sides
    }

    /// The next place in the order.
    fn next(&mut self, rt: &impl Abort) -> u64 {
        let place = self.place;
        assert!(rt; place < 1_000);
        self.place = place + 1;
        place
    }

    fn port(&mut self, rt: &impl Abort, number: usize) -> &mut PortSide {
        let Some(side) = self.ports.get_mut(number) else {
            panic!(rt; "no port {number}");
        };
        side
    }

    fn takes(&mut self, rt: &impl Abort, number: usize, from: u16, packet: &Packet) {
        let place = self.next(rt);
        let octets = packet.octets(rt, self.alloc);
        self.port(rt, number)
            .takes(rt, place, &sender(from), octets.as_slice());
    }

    fn sends(&mut self, rt: &impl Abort, number: usize, to: u16, packet: &Packet) {
        let octets = packet.octets(rt, self.alloc);
        self.port(rt, number)
            .sends(rt, SENDING, &sender(to), octets.as_slice());
    }

    fn talks(&mut self, rt: &impl Abort, moment: u64, says: &[u8], sent: &[u8]) {
        let place = self.next(rt);
        self.desk.gives(rt, place, moment, CLIENT, says);
        if !sent.is_empty() {
            self.desk.sends(rt, CLIENT, sent);
        }
    }

    /// Something that happens at the desk.
    fn at_desk(&mut self, rt: &impl Abort, step: &Step) {
        let place = self.next(rt);
        match *step {
            Step::Operator => self.desk.opens_operator(rt, place),
            Step::Line(line, answer) => self.desk.line(rt, place, line, answer),
            Step::Client(greeting) => self.desk.opens_client(rt, place, CLIENT, greeting),
            Step::Tick(moment) => self.desk.ticks(rt, place, moment),
            Step::End(moment) => self.desk.ends(rt, place, moment),
            _ => {}
        }
    }

    fn add(&mut self, rt: &impl Abort, step: &Step) {
        match *step {
            Step::Takes(number, from, packet) => self.takes(rt, number, from, &packet),
            Step::Sends(number, to, packet) => self.sends(rt, number, to, &packet),
            Step::Talk(moment, says, sent) => self.talks(rt, moment, says, sent),
            _ => self.at_desk(rt, step),
        }
    }
}

/// The ports of these sides, in an order.
fn seated(rt: &impl Abort, alloc: Global, sides: Vec<PortSide>, order: &Order) -> Vec<SeatedPort> {
    let mut ports = Vec::new(alloc);
    for side in sides {
        ports.push(side.port(rt, order)).expect(rt, "room");
    }
    ports
}

fn expect_all_done(rt: &impl Abort, alloc: Global, ports: &mut [SeatedPort]) {
    for port in ports.iter_mut() {
        port.expect_done(rt, alloc);
    }
}

/// Ends the test where the report is another.
fn expect_report(rt: &impl Abort, report: &Report, play: &Run) {
    assert_eq!(rt; report.workers.as_slice(), play.tallies);
    assert_eq!(rt; report.desk, play.desk);
    assert_eq!(rt; report.live, play.live);
}

/// Serves at the ports and the desk of these sides, and ends the test where they have done something else.
fn run_sides<R: Threads + Sync + Abort>(rt: &R, sides: Sides, text: &str) -> Report {
    let Sides {
        alloc,
        desk,
        ports,
        ..
    } = sides;
    let order = Order::new(rt, alloc);
    let mut ports = seated(rt, alloc, ports, &order);
    let mut desk = desk.desk(rt, &order);
    let report = run(rt, alloc, text, ports.as_mut_slice(), &mut desk).expect(rt, "a report");
    expect_all_done(rt, alloc, ports.as_mut_slice());
    desk.expect_done(rt, alloc);
    let_go(order, ports, desk);
    report
}

/// Ends the test where the run comes to something else.
pub fn expect<R: Threads + Sync + Abort>(rt: &R, alloc: Global, play: &Run) {
    let mut sides = Sides::new(rt, alloc, play.tallies.len(), play.moment);
    for step in play.steps {
        sides.add(rt, step);
    }
    let report = run_sides(rt, sides, play.text);
    expect_report(rt, &report, play);
}
