use super::*;

const NOTHING: Tally = Tally {
    taken: 0,
    sent: 0,
    no_session: 0,
    short: 0,
    bad_hmac: 0,
    changed: 0,
    no_reply: 0,
    send_fault: 0,
    recv_fault: 0,
    end: WorkEnd::Budget,
};

const EACH: Tally = Tally {
    taken: 28,
    sent: 1,
    no_session: 2,
    short: 3,
    bad_hmac: 4,
    changed: 5,
    no_reply: 6,
    send_fault: 7,
    recv_fault: 18446744073709551615,
    end: WorkEnd::PortFault,
};

#[test]
fn a_report_has_a_line_for_each_worker_and_two_for_the_desk(rt: HostRuntime) {
    let desk = DeskTally {
        events: 2,
        faults: 64,
        closed: 1,
        expired: 3,
        end: DeskEnd::Fault,
    };
    let report = write_report(rt.alloc(), &[EACH, NOTHING], &desk, 40).expect(&rt, "a report");
    let lines =
        b"worker 0 taken 28 sent 1 nosession 2 short 3 badhmac 4 changed 5 noreply 6 sendfault 7 \
        recvfault 18446744073709551615 port\n\
        worker 1 taken 0 sent 0 nosession 0 short 0 badhmac 0 changed 0 noreply 0 sendfault 0 recvfault 0 budget\n\
        desk events 2 faults 64 desk\n\
        sessions live 40 closed 1 expired 3\n";
    assert_eq!(rt; report.as_slice(), lines.as_slice());
}
