use super::*;
use refl_types::{Address, Endpoint, Key, Mode};
use text_forms::Name;

const V4: Key = Key {
    local: 0,
    peer: Endpoint {
        address: Address::V4([192, 0, 2, 1]),
        port: 5000,
    },
    mode: Mode::Plain,
    ssid: 7,
};

const V6: Key = Key {
    local: 65535,
    peer: Endpoint {
        address: Address::V6([0x20, 1, 0x0d, 0xb8, 0, 0, 0, 0, 0, 0, 0, 0, 0, 0, 0, 1]),
        port: 862,
    },
    mode: Mode::Twamp,
    ssid: 0,
};

const CONFIG: &[u8] = b"config edge \
    0000000100000000000000280000000000000000000000000000000000000000000000000000\
    000000000000000000000000000000000000000000000000000000000000000000000000aBcD\n";

/// The octets of that configuration.
const OCTETS: [u8; 76] = [
    0, 0, 0, 1, 0, 0, 0, 0, 0, 0, 0, 0x28, 0, 0, 0, 0, 0, 0, 0, 0, 0, 0, 0, 0, 0, 0, 0, 0, 0, 0, 0,
    0, 0, 0, 0, 0, 0, 0, 0, 0, 0, 0, 0, 0, 0, 0, 0, 0, 0, 0, 0, 0, 0, 0, 0, 0, 0, 0, 0, 0, 0, 0, 0,
    0, 0, 0, 0, 0, 0, 0, 0, 0, 0, 0, 0xAB, 0xCD,
];

#[test]
fn each_kind_of_line_is_read(rt: HostRuntime) {
    let name = Name::make(b"edge").expect(&rt, "a name");
    let lines: [(&[u8], Line); 7] = [
        (
            CONFIG,
            Line::Config {
                name,
                octets: OCTETS,
            },
        ),
        (
            b"open 0 192.0.2.1:5000 plain 7 edge 10\n",
            Line::Open {
                key: V4,
                name,
                wait: 10_000_000_000,
            },
        ),
        (
            b"set 0 192.0.2.1:5000 plain 7 edge\n",
            Line::Set { key: V4, name },
        ),
        (
            b"close 65535 [2001:0db8:0000:0000:0000:0000:0000:0001]:862 twamp 0\n",
            Line::Close { key: V6 },
        ),
        (b"count 0 192.0.2.1:5000 plain 7\n", Line::Count { key: V4 }),
        (b"list\n", Line::List),
        (b"quit\n", Line::Quit),
    ];
    for (text, line) in lines {
        assert!(rt; read_line(text) == Ok(line));
    }
}

#[test]
fn another_text_is_no_line(rt: HostRuntime) {
    let texts: [&[u8]; 12] = [
        b"",
        b"\n",
        b"frob\n",
        b"list",
        b"list \n",
        b"list\nlist\n",
        b"count  0 192.0.2.1:5000 plain 7\n",
        b"count 00 192.0.2.1:5000 plain 7\n",
        b"count 0 192.0.2.1:5000 twamp 7\n",
        b"count 0 192.0.2.1:5000 plain 7 edge\n",
        b"open 0 192.0.2.1:5000 plain 7 edge 31536001\n",
        b"config edge 00\n",
    ];
    for text in texts {
        assert!(rt; read_line(text) == Err(LineFault));
    }
}

#[test]
fn each_kind_of_answer_is_written(rt: HostRuntime) {
    let full = Refusal::Full {
        live: 0,
        reserved: 1,
        retired: 4294967295,
        held: 2,
    };
    let answers: [(Answer, &[u8]); 7] = [
        (Answer::Done, b"ok\n"),
        (Answer::Number(4294967295), b"ok 4294967295\n"),
        (
            Answer::Listed { key: V4, number: 3 },
            b"0 192.0.2.1:5000 plain 7 3\n",
        ),
        (
            Answer::Listed { key: V6, number: 0 },
            b"65535 [2001:0db8:0000:0000:0000:0000:0000:0001]:862 twamp 0 0\n",
        ),
        (Answer::Bye, b"bye\n"),
        (Answer::Refused(Refusal::NamesFull), b"refused names full\n"),
        (
            Answer::Refused(full),
            b"refused full live 0 reserved 1 retired 4294967295 held 2\n",
        ),
    ];
    for (answer, text) in answers {
        let mut out = [0; LINE_MAX];
        let len = write_answer(&answer, &mut out);
        assert_eq!(rt; out.get(..len), Some(text));
    }
}
