//! Runs over objects in memory, of which some calls fail.

ghost use Rattle.std.specs.Prelude.{◌≡◌, None, vec_len};

use crate::offline::offline;
use crate::top::stampd;
use net_io::{PortItem, ScriptDesk, ScriptPort};
use port_io::{Failed, MemFiles, MemSink, MemSource, Source};
use std::alloc::Global;
use std::process::Abort;
use std::thread::Threads;

/// A source that gives a few octets a read.
#[derive(Drop)]
struct Trickle {
    source: MemSource,
    piece: usize,
}

impl Source for Trickle {
    ghost left = { λ s. None };

    ghost faults = { λ s. s.source.faults };

    fn read(&mut self, buf: &mut [u8]) -> Result<usize, Failed> {
        let most = buf.len().min(self.piece);
        self.source.read(&mut buf[..most])
    }
}

const OPENING: [u8; 36] = [
    1, 0, 0, 0, 103, 0, 0, 4, 192, 0, 2, 1, 0, 0, 0, 0, 0, 0, 0, 0, 0, 0, 0, 0, 0x13, 0x88, 0, 0,
    7, 0, 0, 0, 1, 0, 0, 1,
];

const DATAGRAM: [u8; 60] = [
    4, 0, 0, 0, 83, 0, 0, 4, 192, 0, 2, 1, 0, 0, 0, 0, 0, 0, 0, 0, 0, 0, 0, 0, 0x13, 0x88, 0, 0, 0,
    0, 0, 0, 0, 0, 0, 0, 0, 0, 0, 0, 0x3B, 0x9A, 0xC9, 0xFF, 0, 0, 0, 5, 0x11, 0x22, 0x33, 0x44,
    0x55, 0x66, 0x77, 0x88, 0, 1, 0, 7,
];

const ANSWERS: [u8; 81] = [
    0x81, 0, 0, 0, 1, 0, 0x84, 0, 0, 0, 70, 0, 0, 0, 4, 192, 0, 2, 1, 0, 0, 0, 0, 0, 0, 0, 0, 0, 0,
    0, 0, 0x13, 0x88, 0, 0, 0, 0, 0, 0, 0, 0, 0x83, 0xAA, 0x7E, 0x80, 0xFF, 0xFF, 0xFF, 0xFB, 0, 1,
    0, 7, 0x83, 0xAA, 0x7E, 0x80, 0, 0, 0, 0, 0, 0, 0, 5, 0x11, 0x22, 0x33, 0x44, 0x55, 0x66, 0x77,
    0x88, 0, 1, 0, 0, 0xFF, 0, 0, 0,
];

/// An opening of 108 octets, and then as many datagrams of 88.
fn stream(stop: &impl Abort, alloc: Global, datagrams: u8) -> Vec<u8> {
    let mut octets = Vec::new(alloc);
    octets.extend_from_slice(&OPENING).expect(stop, "room");
    octets.extend_from_slice(&[0; 72]).expect(stop, "room");
    for _ in 0..datagrams {
        octets.extend_from_slice(&DATAGRAM).expect(stop, "room");
        octets.extend_from_slice(&[0; 28]).expect(stop, "room");
    }
    octets
}

/// The numbers of the calls that fail: 0 is that of none.
fn calls(stop: &impl Abort, alloc: Global, failing: u64) -> Vec<u64> {
    let mut numbers = Vec::new(alloc);
    numbers.push(failing).expect(stop, "room");
    numbers
}

fn words(stop: &impl Abort, alloc: Global, texts: &[&str]) -> Vec<String> {
    let mut words = Vec::new(alloc);
    for text in texts {
        let word = String::from_str(alloc, text).expect(stop, "a word");
        words.push(word).expect(stop, "room");
    }
    words
}

fn sink(stop: &impl Abort, alloc: Global, failing: u64) -> MemSink {
    MemSink::make(alloc, 1000, calls(stop, alloc, failing)).expect(stop, "a sink")
}

fn source(stop: &impl Abort, alloc: Global, octets: Vec<u8>, failing: u64) -> MemSource {
    MemSource::make(alloc, octets, calls(stop, alloc, failing)).expect(stop, "a source")
}

const NAME: &str = "reflector.toml";

const TEXT: &str = "locals = [\"192.0.2.10:862\"]\n[configs.edge]\n";

fn one_name(stop: &impl Abort, alloc: Global) -> Vec<String>
    ensures { vec_len result ≡ 1 }
{
    let name = String::from_str(alloc, NAME).expect(stop, "a name");
    let mut names = Vec::new(alloc);
    names.push(name).expect(stop, "room");
    names
}

fn one_content(stop: &impl Abort, alloc: Global) -> Vec<Vec<u8>>
    ensures { vec_len result ≡ 1 }
{
    let content = Vec::from_slice(alloc, TEXT.as_bytes()).expect(stop, "octets");
    let mut contents = Vec::new(alloc);
    contents.push(content).expect(stop, "room");
    contents
}

/// One file, which is accepted.
fn one_file(stop: &impl Abort, alloc: Global) -> MemFiles {
    let names = one_name(stop, alloc);
    let contents = one_content(stop, alloc);
    MemFiles::make(alloc, names, contents, Vec::new(alloc)).expect(stop, "a file")
}

/// A stream of so many datagrams of which a read gives as many octets as a piece has at most, and the calls that fail.
#[derive(Clone, Copy)]
struct Case {
    datagrams: u8,
    piece: usize,
    failing_read: u64,
    failing_write: u64,
}

/// The status of a replay, and what was written.
fn replayed(stop: &impl Abort, alloc: Global, case: &Case) -> (u8, MemSink) {
    let octets = stream(stop, alloc, case.datagrams);
    let mut input = Trickle {
        source: source(stop, alloc, octets, case.failing_read),
        piece: case.piece,
    };
    let mut out = sink(stop, alloc, case.failing_write);
    let mut files = one_file(stop, alloc);
    let words = words(stop, alloc, &["replay"]);
    let status = offline(alloc, &words, &mut input, &mut out, &mut files);
    let_go_replay(input, files, words);
    (status, out)
}

fn let_go_replay(_input: Trickle, _files: MemFiles, _words: Vec<String>) {}

fn let_go_sink(_out: MemSink) {}

/// The status of a replay, and how many octets were written.
fn counted(stop: &impl Abort, alloc: Global, case: &Case) -> (u8, usize) {
    let (status, out) = replayed(stop, alloc, case);
    let len = out.written().len();
    let_go_sink(out);
    (status, len)
}

#[test]
fn one_datagram_is_answered_where_memory_is_ample(rt: HostRuntime) {
    let case = Case {
        datagrams: 1,
        piece: 1000,
        failing_read: 0,
        failing_write: 0,
    };
    let (status, out) = replayed(&rt, rt.alloc(), &case);
    assert_eq!(rt; status, 0);
    assert_eq!(rt; out.written(), ANSWERS.as_slice());
    let_go_sink(out);
}

/// The read that fails, and how many octets are written.
const READS: [(u64, usize); 8] = [
    (1, 0),
    (2, 0),
    (3, 0),
    (4, 6),
    (5, 81),
    (6, 81),
    (7, 156),
    (8, 156),
];

#[test]
fn each_failing_read_is_told_behind_the_answers_to_whole_records(rt: HostRuntime) {
    for (failing, answered) in READS {
        let case = Case {
            datagrams: 3,
            piece: 50,
            failing_read: failing,
            failing_write: 0,
        };
        let got = counted(&rt, rt.alloc(), &case);
        assert_eq!(rt; got, (7, answered), "read {failing}");
    }
}

/// The write that fails, the status, and how many octets are written.
const WRITES: [(u64, u8, usize); 9] = [
    (1, 8, 0),
    (2, 8, 6),
    (3, 8, 81),
    (4, 8, 156),
    (5, 8, 231),
    (6, 8, 306),
    (7, 8, 381),
    (8, 8, 456),
    (9, 0, 531),
];

#[test]
fn each_failing_write_is_told_and_leaves_a_front_of_the_answers(rt: HostRuntime) {
    for (failing, status, written) in WRITES {
        let case = Case {
            datagrams: 7,
            piece: 50,
            failing_read: 0,
            failing_write: failing,
        };
        let got = counted(&rt, rt.alloc(), &case);
        assert_eq!(rt; got, (status, written), "write {failing}");
    }
}

/// The status of words that wait for nobody, beside one file, and what was written.
fn done(stop: &impl Abort, alloc: Global, texts: &[&str]) -> (u8, MemSink) {
    let mut input = source(stop, alloc, Vec::new(alloc), 0);
    let mut out = sink(stop, alloc, 0);
    let mut files = one_file(stop, alloc);
    let words = words(stop, alloc, texts);
    let status = offline(alloc, &words, &mut input, &mut out, &mut files);
    let_go_done(input, files, words);
    (status, out)
}

fn let_go_done(_input: MemSource, _files: MemFiles, _words: Vec<String>) {}

const ACCEPTED: &[u8] = b"ok locals 1 configs 1 sessions 0\n";

const USAGE: &[u8] = b"stampd: usage\n";

const NOT_LOADED: &[u8] = b"stampd: file failed\n";

const NOTHING: &[u8] = b"";

const QUIET_REPORT: &[u8] =
    b"worker 0 taken 0 sent 0 nosession 0 short 0 badhmac 0 changed 0 noreply 0 sendfault 0 recvfault 0 end\ndesk events 1 faults 0 end\nsessions live 0 closed 0 expired 0\n";

/// Words, the status that they end with, and what is written.
type Row = (&'static [&'static str], u8, &'static [u8]);

const OFFLINE_ROWS: [Row; 9] = [
    (&["check", "reflector.toml"], 0, ACCEPTED),
    (&["check", ""], 5, NOT_LOADED),
    (&["check"], 2, USAGE),
    (&["check", "-reflector.toml"], 2, USAGE),
    (&["check", "reflector.toml", ""], 2, USAGE),
    (&["reflector.toml", "check"], 2, USAGE),
    (&["run", "reflector.toml"], 2, USAGE),
    (&["replay", "reflector.toml"], 2, USAGE),
    (&["replay"], 0, NOTHING),
];

/// Ends the test where words ended otherwise than their row says.
fn expect_row(stop: &impl Abort, row: &Row, got: u8, out: &MemSink) {
    let (texts, status, written) = *row;
    let as_told = got == status && out.written() == written;
    assert!(stop; as_told, "of {texts:?}");
}

#[test]
fn the_words_decide_what_is_done(rt: HostRuntime) {
    for row in OFFLINE_ROWS {
        let (got, out) = done(&rt, rt.alloc(), row.0);
        expect_row(&rt, &row, got, &out);
        let_go_sink(out);
    }
}

/// A port that gives nothing, and then its end.
fn quiet_port(stop: &impl Abort, alloc: Global) -> ScriptPort {
    let mut items = Vec::new(alloc);
    items.push(PortItem::Nothing).expect(stop, "room");
    ScriptPort::make(
        alloc,
        items,
        Vec::new(alloc),
        Vec::new(alloc),
        Vec::new(alloc),
        Vec::new(alloc),
        Vec::new(alloc),
        100,
        100,
    )
    .expect(stop, "a port")
}

/// The status of a run by these words beside one file, and what was written.
fn ended<R: Threads + Sync + Abort>(rt: &R, alloc: Global, texts: &[&str]) -> (u8, MemSink) {
    let mut files = one_file(rt, alloc);
    let mut input = source(rt, alloc, Vec::new(alloc), 0);
    let mut out = sink(rt, alloc, 0);
    let mut ports = Vec::new(alloc);
    ports.push(quiet_port(rt, alloc)).expect(rt, "room");
    let mut desk = quiet_desk(rt, alloc);
    let words = words(rt, alloc, texts);
    let got = stampd(
        rt,
        alloc,
        &words,
        &mut input,
        &mut out,
        &mut files,
        ports.as_mut_slice(),
        &mut desk,
    );
    let_go(input, files, ports, desk, words);
    (got, out)
}

fn quiet_desk(stop: &impl Abort, alloc: Global) -> ScriptDesk {
    ScriptDesk::make(
        alloc,
        Vec::new(alloc),
        Vec::new(alloc),
        Vec::new(alloc),
        Vec::new(alloc),
        100,
        100,
    )
    .expect(stop, "a desk")
}

fn let_go(
    _input: MemSource,
    _files: MemFiles,
    _ports: Vec<ScriptPort>,
    _desk: ScriptDesk,
    _words: Vec<String>,
) {}

const ROWS: [Row; 5] = [
    (&["run", "reflector.toml"], 0, QUIET_REPORT),
    (&["run"], 2, USAGE),
    (&["run", "-reflector.toml"], 2, USAGE),
    (&["run", "another.toml"], 5, NOT_LOADED),
    (&["check", "reflector.toml"], 0, ACCEPTED),
];

#[test]
fn run_serves_by_a_file_and_other_words_leave_the_ports_alone(rt: HostRuntime) {
    for row in ROWS {
        let (got, out) = ended(&rt, rt.alloc(), row.0);
        expect_row(&rt, &row, got, &out);
        let_go_sink(out);
    }
}
