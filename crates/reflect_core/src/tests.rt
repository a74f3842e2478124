//! Whole reflections, by tables. What is expected was worked out by hand, and HMACs by another implementation.
ghost use Rattle.std.specs.Prelude.{◌≡◌, true};
ghost use Rattle.refl_types.specs.HmacKey.{HasHmacKey};

use super::*;
use refl_types::{Address, Clock, Config, ConfigParts, Endpoint, Extra, Key, Meta, Mode, Silent};
use std::alloc::Global;
use std::test::Fail;

/// A configuration of a stateful NTP session without key.
const PARTS: ConfigParts = ConfigParts {
    stateful: true,
    clock: Clock::Ntp,
    offset: 0,
    synced: false,
    scale: 0,
    multiplier: 1,
    info: [0; 4],
    tlvs: 0,
    key: None,
};

/// The key "Jefe" in its block form.
const KEY: [u8; 64] = [
    0x4A, 0x65, 0x66, 0x65, 0, 0, 0, 0, 0, 0, 0, 0, 0, 0, 0, 0, 0, 0, 0, 0, 0, 0, 0, 0, 0, 0, 0, 0,
    0, 0, 0, 0, 0, 0, 0, 0, 0, 0, 0, 0, 0, 0, 0, 0, 0, 0, 0, 0, 0, 0, 0, 0, 0, 0, 0, 0, 0, 0, 0, 0,
    0, 0, 0, 0,
];

/// `PARTS` with the key, and with the TLV types 3 and 5.
const KEYED: ConfigParts = ConfigParts {
    tlvs: 40,
    key: Some(KEY),
    ..PARTS
};

const NO_EXTRA: Extra = Extra {
    symmetrical: false,
    reflect: 0,
};

/// A request with sequence number 5 and SSID 7.
const REQUEST: &[u8] =
    b"\x00\x00\x00\x05\x11\x22\x33\x44\x55\x66\x77\x88\x00\x01\x00\x07\x00\x00\x00\x00\x00\x00\x00\x00\x00\x00\x00\x00\x00\x00\x00\x00\x00\x00\x00\x00\x00\x00\x00\x00\x00\x00\x00\x00";

/// The same in mode Auth, under the key.
const AUTH_REQUEST: &[u8] =
    b"\x00\x00\x00\x05\x00\x00\x00\x00\x00\x00\x00\x00\x00\x00\x00\x00\x11\x22\x33\x44\x55\x66\x77\x88\x00\x01\x00\x07\x00\x00\x00\x00\x00\x00\x00\x00\x00\x00\x00\x00\x00\x00\x00\x00\x00\x00\x00\x00\x00\x00\x00\x00\x00\x00\x00\x00\x00\x00\x00\x00\x00\x00\x00\x00\x00\x00\x00\x00\x00\x00\x00\x00\x00\x00\x00\x00\x00\x00\x00\x00\x00\x00\x00\x00\x00\x00\x00\x00\x00\x00\x00\x00\x00\x00\x00\x00\xEB\x34\x8D\x31\xE1\xD9\xD7\xA0\xBD\x6A\x4F\x5B\x72\xC0\x37\xEF";

/// The same of a TWAMP sender.
const TEST_REQUEST: &[u8] = b"\x00\x00\x00\x05\x11\x22\x33\x44\x55\x66\x77\x88\x00\x01";

fn session(mode: Mode) -> Key
    ensures { result.mode ≡ mode }
{
    let ssid = if mode == Mode::Twamp { 0 } else { 7 };
    let peer = Endpoint {
        address: Address::V4([192, 0, 2, 1]),
        port: 5000,
    };
    Key {
        local: 3,
        peer,
        mode,
        ssid,
    }
}

fn has_key(mode: Mode, config: &Config) -> bool
    ensures { result ≡ true → HasHmacKey mode config.now }
{
    match mode {
        Mode::Auth => config.as_parts().key.is_some(),
        Mode::Plain | Mode::Twamp => true,
    }
}

/// The reply to a datagram that arrived at 0 and is answered just before the first second, or nothing.
fn answer(
    alloc: Global,
    key: &Key,
    extra: &Extra,
    config: &Config,
    n: u32,
    input: &[u8],
) -> Result<Vec<u8>, Fail>
    requires { HasHmacKey key.now.mode config.now }
{
    if input.len() > 65_507 {
        return Err("too long".into());
    }
    let Judged::Reflect = judge(key, config, input) else {
        return Ok(Vec::new(alloc));
    };
    let meta = Meta {
        local: 3,
        peer: key.peer,
        len: input.len(),
        ttl: None,
        arrival: 0,
    };
    let mut out = vec![in alloc; 0xEE; 65_536]?;
    let reply = reflect(
        key,
        extra,
        config,
        &[],
        n,
        &meta,
        999_999_999,
        input,
        &mut out,
    );
    out.truncate(reply.len);
    Ok(out)
}

/// The reply in a session of a mode, under a configuration of parts.
fn reply_to(
    alloc: Global,
    mode: Mode,
    extra: &Extra,
    parts: ConfigParts,
    n: u32,
    input: &[u8],
) -> Result<Vec<u8>, Fail> {
    let key = session(mode);
    let config = Config::make(parts).ok().ok_or("no configuration")?;
    if !has_key(mode, &config) {
        return Err("no key".into());
    }
    answer(alloc, &key, extra, &config, n, input)
}

/// The octets from a place on.
fn octets_from(alloc: Global, octets: &[u8], at: usize) -> Result<Vec<u8>, Fail> {
    if octets.len() < at {
        return Err("too short".into());
    }
    let (_, rest) = octets.split_at(at);
    let rest = Vec::from_slice(alloc, rest)?;
    Ok(rest)
}

/// A datagram of a base packet and TLVs.
fn joined(alloc: Global, base: &[u8], tail: &[u8]) -> Result<Vec<u8>, Fail> {
    let mut octets = Vec::from_slice(alloc, base)?;
    octets.extend_from_slice(tail)?;
    Ok(octets)
}

#[test]
fn tlvs_of_a_session_without_key_are_answered_by_their_type(rt: HostRuntime) -> Result<(), Fail> {
    let cases: [(ConfigParts, u32, &[u8], &[u8]); 6] = [
        (
            PARTS,
            0,
            b"\x80\xC8\x00\x00\x80\x01\x00\x02\xAA\xBB",
            b"\x80\xC8\x00\x00\x00\x01\x00\x02\xAA\xBB",
        ),
        (PARTS, 0, b"\x80\x01\x00\x09\xAA", b"\x40\x01\x00\x09\xAA"),
        (PARTS, 0, b"\x80\xC8\x00\x09\xAA", b"\xC0\xC8\x00\x09\xAA"),
        (
            PARTS,
            0,
            b"\x00\x00\x00\x00\x00\x00\x00\x00",
            b"\x80\x00\x00\x00\x80\x00\x00\x00",
        ),
        (PARTS, 0, b"\x80\x01", b"\x80\x01"),
        (
            PARTS,
            0,
            b"\x80\x08\x00\x10\x03\xBD\x18\xD3\x08\x6C\x94\x7F\x19\x7A\xAB\x44\xCB\x51\x2D\x89",
            b"\x80\x08\x00\x10\x03\xBD\x18\xD3\x08\x6C\x94\x7F\x19\x7A\xAB\x44\xCB\x51\x2D\x89",
        ),
    ];
    for (parts, n, tail, want) in cases {
        let input = joined(rt.alloc(), REQUEST, tail)?;
        let reply = reply_to(rt.alloc(), Mode::Plain, &NO_EXTRA, parts, n, &input)?;
        let got = octets_from(rt.alloc(), &reply, 44)?;
        assert_eq!(rt; got.as_slice(), want);
    }
    Ok(())
}

#[test]
fn measured_tlvs_are_filled_in(rt: HostRuntime) -> Result<(), Fail> {
    let cases: [(ConfigParts, u32, &[u8], &[u8]); 5] = [
        (
            ConfigParts { tlvs: 32, ..PARTS },
            4294967295,
            b"\x80\x05\x00\x0C\x00\x00\x00\x09\x00\x00\x00\x00\x00\x00\x00\x00",
            b"\x00\x05\x00\x0C\x00\x00\x00\x09\x00\x00\x00\x00\xFF\xFF\xFF\xFF",
        ),
        (
            ConfigParts {
                info: [1, 2, 3, 4],
                tlvs: 8,
                ..PARTS
            },
            0,
            b"\x80\x03\x00\x04\x00\x00\x00\x00",
            b"\x00\x03\x00\x04\x01\x02\x03\x04",
        ),
        (
            ConfigParts {
                info: [1, 2, 3, 4],
                tlvs: 8,
                ..PARTS
            },
            0,
            b"\x80\x03\x00\x02\x00\x00\x80\xC8\x00\x00",
            b"\x40\x03\x00\x02\x00\x00\x80\xC8\x00\x00",
        ),
        (
            ConfigParts {
                stateful: false,
                tlvs: 40,
                ..PARTS
            },
            7,
            b"\x80\x05\x00\x0C\x00\x00\x00\x09\x00\x00\x00\x00\x00\x00\x00\x00",
            b"\x00\x05\x00\x0C\x00\x00\x00\x09\x00\x00\x00\x08\x00\x00\x00\x07",
        ),
        (
            PARTS,
            0,
            b"\x80\x05\x00\x0C\x00\x00\x00\x09\x00\x00\x00\x00\x00\x00\x00\x00",
            b"\x80\x05\x00\x0C\x00\x00\x00\x09\x00\x00\x00\x00\x00\x00\x00\x00",
        ),
    ];
    for (parts, n, tail, want) in cases {
        let input = joined(rt.alloc(), REQUEST, tail)?;
        let reply = reply_to(rt.alloc(), Mode::Plain, &NO_EXTRA, parts, n, &input)?;
        let got = octets_from(rt.alloc(), &reply, 44)?;
        assert_eq!(rt; got.as_slice(), want);
    }
    Ok(())
}

#[test]
fn an_hmac_tlv_is_checked_and_sealed(rt: HostRuntime) -> Result<(), Fail> {
    let cases: [(ConfigParts, u32, &[u8], &[u8]); 7] = [
        (
            KEYED,
            0,
            b"\x80\x08\x00\x10\x00\x00\x00\x00\x00\x00\x00\x00\x00\x00\x00\x00\x00\x00\x00\x00\x80\x05\x00\x0C\x00\x00\x00\x00\x00\x00\x00\x00\x00\x00\x00\x00",
            b"\xA0\x08\x00\x10\x00\x00\x00\x00\x00\x00\x00\x00\x00\x00\x00\x00\x00\x00\x00\x00\xA0\x05\x00\x0C\x00\x00\x00\x00\x00\x00\x00\x00\x00\x00\x00\x00",
        ),
        (
            KEYED,
            9,
            b"\x80\x08\x00\x10\x03\xBD\x18\xD3\x08\x6C\x94\x7F\x19\x7A\xAB\x44\xCB\x51\x2D\x89",
            b"\x00\x08\x00\x10\x27\x0E\x76\x8C\x74\x9C\x61\xDD\x66\xA9\x92\xAC\x95\x28\xAF\x58",
        ),
        (
            ConfigParts {
                stateful: false,
                tlvs: 40,
                key: Some(KEY),
                ..PARTS
            },
            9,
            b"\x80\x01\x00\x02\xAA\xBB\x80\x08\x00\x10\x8A\x28\x0F\xF5\x05\x3D\xEA\xEF\x3B\xE6\xCD\x6A\x27\x0E\x39\xA5",
            b"\x00\x01\x00\x02\xAA\xBB\x00\x08\x00\x10\x42\xAC\xBB\x77\xA7\x35\x26\x87\x6C\x52\x47\xCC\x5E\x3D\x56\x1D",
        ),
        (
            KEYED,
            9,
            b"\x80\x01\x00\x02\xAA\xBB\x80\x08\x00\x10\x8A\x28\x0F\xF5\x05\x3D\xEA\xEF\x3B\xE6\xCD\x6A\x27\x0E\x39\xA5\x80\x01\x00\x02\xAA\xBB",
            b"\x00\x01\x00\x02\xAA\xBB\x00\x08\x00\x10\xE0\xCC\x74\x52\xC7\x42\x34\xA7\xA7\x74\xBC\x89\x7B\x35\x4E\x39\x00\x01\x00\x02\xAA\xBB",
        ),
        (
            KEYED,
            9,
            b"\x80\x03\x00\x02\x00\x00\x80\x08\x00\x10\xA6\xEE\xFA\x4A\x04\xA0\x43\xF7\xFA\x3D\xC9\x21\x3A\x38\x78\xCA",
            b"\x40\x03\x00\x02\x00\x00\x00\x08\x00\x10\xCC\x4D\x95\xD0\xA8\xEF\x5B\x36\x65\x24\xDA\x4E\x3E\xF4\xDF\x8F",
        ),
        (
            KEYED,
            9,
            b"\x80\x01\x00\x02\xAA\xBB\x80\x08\x00\x10\x8A\x28\x0F\xF5\x05\x3D\xEA\xEF\x3B\xE6\xCD\x6A\x27\x0E\x39\xA5\x80\xC8\x00\x00",
            b"\xA0\x01\x00\x02\xAA\xBB\xA0\x08\x00\x10\x8A\x28\x0F\xF5\x05\x3D\xEA\xEF\x3B\xE6\xCD\x6A\x27\x0E\x39\xA5\xA0\xC8\x00\x00",
        ),
        (
            KEYED,
            9,
            b"\x80\xC8\x00\x00\x80\x08\xFF\xFF",
            b"\xA0\xC8\x00\x00\xA0\x08\xFF\xFF",
        ),
    ];
    for (parts, n, tail, want) in cases {
        let input = joined(rt.alloc(), REQUEST, tail)?;
        let reply = reply_to(rt.alloc(), Mode::Plain, &NO_EXTRA, parts, n, &input)?;
        let got = octets_from(rt.alloc(), &reply, 44)?;
        assert_eq!(rt; got.as_slice(), want);
    }
    Ok(())
}

#[test]
fn a_tail_of_an_authenticated_session_needs_an_hmac_tlv(rt: HostRuntime) -> Result<(), Fail> {
    let cases: [(ConfigParts, u32, &[u8], &[u8]); 6] = [
        (
            KEYED,
            0,
            b"\x80\x01\x00\x02\xAA\xBB",
            b"\x00\x01\x00\x02\xAA\xBB",
        ),
        (KEYED, 0, b"\x80\xC8\x00\x00", b"\xA0\xC8\x00\x00"),
        (
            KEYED,
            0,
            b"\x80\x01\x00\x02\xAA\xBB\x80\x01\x00\x02\xAA\xBB",
            b"\xA0\x01\x00\x02\xAA\xBB\xA0\x01\x00\x02\xAA\xBB",
        ),
        (
            KEYED,
            0,
            b"\x80\xC8\x00\x00\x80\x08\x00\x10\x66\x69\x9C\x97\xFC\xA6\x1B\x34\xCC\xEB\xBE\x64\xB6\x17\xF5\xCF",
            b"\x80\xC8\x00\x00\x00\x08\x00\x10\x64\x87\xE1\x89\x71\xCB\x75\xE7\xBA\x71\xB8\xE1\xF1\xA0\x73\xFC",
        ),
        (KEYED, 0, b"\x80\x01\x00\x09\xAA", b"\x40\x01\x00\x09\xAA"),
        (KEYED, 0, b"\x80\x08\x00", b"\x80\x08\x00"),
    ];
    for (parts, n, tail, want) in cases {
        let input = joined(rt.alloc(), AUTH_REQUEST, tail)?;
        let reply = reply_to(rt.alloc(), Mode::Auth, &NO_EXTRA, parts, n, &input)?;
        let got = octets_from(rt.alloc(), &reply, 112)?;
        assert_eq!(rt; got.as_slice(), want);
    }
    Ok(())
}

#[test]
fn base_packets_are_answered_in_each_mode(rt: HostRuntime) -> Result<(), Fail> {
    let cases: [(Mode, bool, u16, ConfigParts, u32, &[u8], &[u8]); 6] = [
        (
            Mode::Plain,
            false,
            0,
            PARTS,
            0,
            REQUEST,
            b"\x00\x00\x00\x00\x83\xAA\x7E\x80\xFF\xFF\xFF\xFB\x00\x01\x00\x07\x83\xAA\x7E\x80\x00\x00\x00\x00\x00\x00\x00\x05\x11\x22\x33\x44\x55\x66\x77\x88\x00\x01\x00\x00\xFF\x00\x00\x00",
        ),
        (
            Mode::Plain,
            false,
            0,
            PARTS,
            1,
            REQUEST,
            b"\x00\x00\x00\x01\x83\xAA\x7E\x80\xFF\xFF\xFF\xFB\x00\x01\x00\x07\x83\xAA\x7E\x80\x00\x00\x00\x00\x00\x00\x00\x05\x11\x22\x33\x44\x55\x66\x77\x88\x00\x01\x00\x00\xFF\x00\x00\x00",
        ),
        (
            Mode::Plain,
            false,
            0,
            ConfigParts {
                stateful: false,
                ..PARTS
            },
            1,
            REQUEST,
            b"\x00\x00\x00\x05\x83\xAA\x7E\x80\xFF\xFF\xFF\xFB\x00\x01\x00\x07\x83\xAA\x7E\x80\x00\x00\x00\x00\x00\x00\x00\x05\x11\x22\x33\x44\x55\x66\x77\x88\x00\x01\x00\x00\xFF\x00\x00\x00",
        ),
        (
            Mode::Plain,
            false,
            0,
            ConfigParts {
                clock: Clock::Ptp,
                offset: 37,
                synced: true,
                scale: 63,
                multiplier: 255,
                ..PARTS
            },
            2,
            REQUEST,
            b"\x00\x00\x00\x02\x00\x00\x00\x25\x3B\x9A\xC9\xFF\xFF\xFF\x00\x07\x00\x00\x00\x25\x00\x00\x00\x00\x00\x00\x00\x05\x11\x22\x33\x44\x55\x66\x77\x88\x00\x01\x00\x00\xFF\x00\x00\x00",
        ),
        (
            Mode::Auth,
            false,
            0,
            ConfigParts {
                key: Some(KEY),
                ..PARTS
            },
            0,
            AUTH_REQUEST,
            b"\x00\x00\x00\x00\x00\x00\x00\x00\x00\x00\x00\x00\x00\x00\x00\x00\x83\xAA\x7E\x80\xFF\xFF\xFF\xFB\x00\x01\x00\x07\x00\x00\x00\x00\x83\xAA\x7E\x80\x00\x00\x00\x00\x00\x00\x00\x00\x00\x00\x00\x00\x00\x00\x00\x05\x00\x00\x00\x00\x00\x00\x00\x00\x00\x00\x00\x00\x11\x22\x33\x44\x55\x66\x77\x88\x00\x01\x00\x00\x00\x00\x00\x00\xFF\x00\x00\x00\x00\x00\x00\x00\x00\x00\x00\x00\x00\x00\x00\x00\x81\x80\xD3\x23\x47\xE2\x67\x2F\xB7\x3C\xCB\xAC\x25\x07\x55\xD7",
        ),
        (
            Mode::Twamp,
            false,
            0,
            PARTS,
            0,
            TEST_REQUEST,
            b"\x00\x00\x00\x00\x83\xAA\x7E\x80\xFF\xFF\xFF\xFB\x00\x01\x00\x00\x83\xAA\x7E\x80\x00\x00\x00\x00\x00\x00\x00\x05\x11\x22\x33\x44\x55\x66\x77\x88\x00\x01\x00\x00\xFF",
        ),
    ];
    for (mode, symmetrical, reflect, parts, n, input, want) in cases {
        let extra = Extra {
            symmetrical,
            reflect,
        };
        let reply = reply_to(rt.alloc(), mode, &extra, parts, n, input)?;
        assert_eq!(rt; reply.as_slice(), want);
    }
    Ok(())
}

#[test]
fn reflected_octets_come_after_41_octets(rt: HostRuntime) -> Result<(), Fail> {
    let cases: [(Mode, bool, u16, ConfigParts, u32, &[u8], &[u8]); 4] = [
        (
            Mode::Twamp,
            true,
            4,
            PARTS,
            0,
            b"\x00\x00\x00\x05\x11\x22\x33\x44\x55\x66\x77\x88\x00\x01\x00\x00\x00\x00\x00\x00\x00\x00\x00\x00\x00\x00\x00\x00\x00\x00\x00\x00\x00\x00\x00\x00\x00\x00\x00\x00\x00\xDE\xAD\xBE\xEF",
            b"\x00\x00\x00\x00\x83\xAA\x7E\x80\xFF\xFF\xFF\xFB\x00\x01\x00\x00\x83\xAA\x7E\x80\x00\x00\x00\x00\x00\x00\x00\x05\x11\x22\x33\x44\x55\x66\x77\x88\x00\x01\x00\x00\xFF\xDE\xAD\xBE\xEF",
        ),
        (
            Mode::Twamp,
            false,
            4,
            PARTS,
            0,
            b"\x00\x00\x00\x05\x11\x22\x33\x44\x55\x66\x77\x88\x00\x01\xDE\xAD\xBE\xEF",
            b"\x00\x00\x00\x00\x83\xAA\x7E\x80\xFF\xFF\xFF\xFB\x00\x01\x00\x00\x83\xAA\x7E\x80\x00\x00\x00\x00\x00\x00\x00\x05\x11\x22\x33\x44\x55\x66\x77\x88\x00\x01\x00\x00\xFF\xDE\xAD\xBE\xEF",
        ),
        (
            Mode::Twamp,
            false,
            4,
            PARTS,
            0,
            b"\x00\x00\x00\x05\x11\x22\x33\x44\x55\x66\x77\x88\x00\x01\xDE\xAD\xBE\xEF\x11\x11\x11\x11\x11\x11\x11\x11\x11\x11\x11\x11\x11\x11\x11\x11\x11\x11\x11\x11\x11\x11\x11\x11\x11\x11\x11\x11\x11\x11\x11\x11\x11\x11\x11\x11\x11\x11\x11\x11\x11\x11\x11\x11\x11\x11\x11\x11\x11\x11\x11\x11\x11\x11\x11\x11\x11\x11\x11\x11\x11\x11\x11\x11\x11\x11\x11\x11\x11\x11\x11\x11\x11\x11\x11\x11\x11\x11\x11\x11\x11\x11",
            b"\x00\x00\x00\x00\x83\xAA\x7E\x80\xFF\xFF\xFF\xFB\x00\x01\x00\x00\x83\xAA\x7E\x80\x00\x00\x00\x00\x00\x00\x00\x05\x11\x22\x33\x44\x55\x66\x77\x88\x00\x01\x00\x00\xFF\xDE\xAD\xBE\xEF\x00\x00\x00\x00\x00\x00\x00\x00\x00\x00\x00\x00\x00\x00\x00\x00\x00\x00\x00\x00\x00\x00\x00\x00\x00\x00\x00\x00\x00\x00\x00\x00\x00\x00\x00\x00\x00\x00\x00\x00\x00\x00\x00\x00\x00\x00\x00\x00\x00\x00\x00\x00\x00\x00\x00",
        ),
        (
            Mode::Twamp,
            true,
            4,
            PARTS,
            0,
            TEST_REQUEST,
            b"\x00\x00\x00\x00\x83\xAA\x7E\x80\xFF\xFF\xFF\xFB\x00\x01\x00\x00\x83\xAA\x7E\x80\x00\x00\x00\x00\x00\x00\x00\x05\x11\x22\x33\x44\x55\x66\x77\x88\x00\x01\x00\x00\xFF",
        ),
    ];
    for (mode, symmetrical, reflect, parts, n, input, want) in cases {
        let extra = Extra {
            symmetrical,
            reflect,
        };
        let reply = reply_to(rt.alloc(), mode, &extra, parts, n, input)?;
        assert_eq!(rt; reply.as_slice(), want);
    }
    Ok(())
}

#[test]
fn short_datagrams_and_other_hmacs_are_not_reflected(rt: HostRuntime) -> Result<(), Fail> {
    let config = Config::make(ConfigParts {
        key: Some(KEY),
        ..PARTS
    });
    let config = config.ok().ok_or("no configuration")?;
    let short = Judged::Silent(Silent::Short);
    for (mode, octets, least) in [
        (Mode::Plain, REQUEST, 44),
        (Mode::Auth, AUTH_REQUEST, 112),
        (Mode::Twamp, TEST_REQUEST, 14),
    ] {
        let key = session(mode);
        if mode == Mode::Auth && config.as_parts().key.is_none() {
            return Err("no key".into());
        }
        assert_eq!(rt; judge(&key, &config, octets), Judged::Reflect);
        let mut cut = Vec::from_slice(rt.alloc(), octets)?;
        cut.truncate(least - 1);
        assert_eq!(rt; judge(&key, &config, &cut), short);
        let mut other = Vec::from_slice(rt.alloc(), octets)?;
        if let Some(octet) = other.first_mut() {
            *octet ^= 1;
        }
        let verdict = judge(&key, &config, &other);
        let want = match mode {
            Mode::Auth => Judged::Silent(Silent::BadHmac),
            Mode::Plain | Mode::Twamp => Judged::Reflect,
        };
        assert_eq!(rt; verdict, want);
    }
    Ok(())
}

#[test]
fn a_tail_that_is_cut_is_answered_at_every_length(rt: HostRuntime) -> Result<(), Fail> {
    let whole = joined(
        rt.alloc(),
        REQUEST,
        b"\x80\x01\x00\x08\x01\x02\x03\x04\x05\x06\x07\x08",
    )?;
    for len in 0..57usize {
        let mut input = Vec::from_slice(rt.alloc(), &whole)?;
        input.truncate(len);
        let reply = reply_to(rt.alloc(), Mode::Plain, &NO_EXTRA, PARTS, 0, &input)?;
        let want = match len {
            0..=43 => None,
            44 => None,
            45..=47 => Some(0x80),
            48..=55 => Some(0x40),
            _ => Some(0x00),
        };
        assert_eq!(rt; reply.len(), if len < 44 { 0 } else { len });
        assert_eq!(rt; reply.get(44).copied(), want);
    }
    Ok(())
}

#[test]
fn the_longest_tails_are_answered(rt: HostRuntime) -> Result<(), Fail> {
    let mut padding = joined(rt.alloc(), REQUEST, b"\x80\x01\xFF\xB3")?;
    padding.resize(65_507, 0x11)?;
    let reply = reply_to(rt.alloc(), Mode::Plain, &NO_EXTRA, PARTS, 0, &padding)?;
    assert_eq!(rt; reply.len(), 65_507);
    assert_eq!(rt; reply.get(44).copied(), Some(0));
    let mut empty = joined(rt.alloc(), REQUEST, b"")?;
    for _ in 0..16_365 {
        empty.extend_from_slice(b"\x80\xC8\x00\x00")?;
    }
    empty.extend_from_slice(b"\x00\x00\x00")?;
    let reply = reply_to(rt.alloc(), Mode::Plain, &NO_EXTRA, PARTS, 0, &empty)?;
    assert_eq!(rt; reply.len(), 65_507);
    let got = octets_from(rt.alloc(), &reply, 44)?;
    let want = octets_from(rt.alloc(), &empty, 44)?;
    assert_eq!(rt; got.as_slice(), want.as_slice());
    Ok(())
}

const PEER: Endpoint = Endpoint {
    address: Address::V4([192, 0, 2, 1]),
    port: 5000,
};

/// The addresses of a reflector.
const LOCALS: [Endpoint; 2] = [
    Endpoint {
        address: Address::V4([192, 0, 2, 10]),
        port: 862,
    },
    Endpoint {
        address: Address::V4([192, 0, 2, 11]),
        port: 862,
    },
];

/// `PARTS` with the TLV types 9 and 10.
const REDIRECTED: ConfigParts = ConfigParts {
    tlvs: 0x600,
    ..PARTS
};

/// Where the reply to a request with a tail goes that arrived at the first local address, and its tail.
#[derive(Drop)]
struct SentReply {
    from: u16,
    to: Endpoint,
    tail: Vec<u8>,
}

/// What is sent, or why nothing is.
fn sent(alloc: Global, parts: ConfigParts, tail: &[u8]) -> Result<Result<SentReply, Silent>, Fail> {
    let config = Config::make(parts).ok().ok_or("no configuration")?;
    let key = Key {
        local: 0,
        peer: PEER,
        mode: Mode::Plain,
        ssid: 7,
    };
    let input = joined(alloc, REQUEST, tail)?;
    if input.len() > 65_507 {
        return Err("too long".into());
    }
    if let Judged::Silent(cause) = judge(&key, &config, &input) {
        return Ok(Err(cause));
    }
    let meta = Meta {
        local: 0,
        peer: PEER,
        len: input.len(),
        ttl: None,
        arrival: 0,
    };
    let mut out = vec![in alloc; 0xEE; 65_536]?;
    let reply = reflect(
        &key,
        &NO_EXTRA,
        &config,
        &LOCALS,
        0,
        &meta,
        999_999_999,
        &input,
        &mut out,
    );
    out.truncate(reply.len);
    Ok(Ok(SentReply {
        from: reply.elsewhere.map_or(meta.local, |ends| ends.from),
        to: reply.elsewhere.map_or(meta.peer, |ends| ends.to),
        tail: octets_from(alloc, &out, 44)?,
    }))
}

#[test]
fn a_reply_goes_where_its_tail_asks_for(rt: HostRuntime) -> Result<(), Fail> {
    let other = Endpoint {
        address: Address::V4([198, 51, 100, 7]),
        port: 5000,
    };
    let cases: [(&[u8], u16, Endpoint, &[u8]); 8] = [
        (
            b"\x80\x09\x00\x04\xC0\x00\x02\x0B",
            1,
            PEER,
            b"\x00\x09\x00\x04\xC0\x00\x02\x0B",
        ),
        (
            b"\x80\x09\x00\x04\xC0\x00\x02\x0C",
            0,
            PEER,
            b"\x80\x09\x00\x04\xC0\x00\x02\x0C",
        ),
        (
            b"\x80\x0A\x00\x08\x80\x01\x00\x04\x00\x00\x00\x01",
            0,
            PEER,
            b"\x00\x0A\x00\x08\x80\x01\x00\x04\x00\x00\x00\x01",
        ),
        (
            b"\x80\x0A\x00\x08\x80\x02\x00\x04\xC6\x33\x64\x07",
            0,
            other,
            b"\x00\x0A\x00\x08\x80\x02\x00\x04\xC6\x33\x64\x07",
        ),
        (
            b"\x80\x09\x00\x02\xC0\x00\x80\x0A\x00\x08\x80\x01\x00\x04\x00\x00\x00\x00",
            0,
            PEER,
            b"\x40\x09\x00\x02\xC0\x00\x80\x0A\x00\x08\x80\x01\x00\x04\x00\x00\x00\x00",
        ),
        // Of two, the first is acted on, whatever the second has.
        (
            b"\x80\x09\x00\x04\xC0\x00\x02\x0C\x80\x09\x00\x04\xC0\x00\x02\x0B\x80\x09\x00\x01\xAA",
            0,
            PEER,
            b"\x80\x09\x00\x04\xC0\x00\x02\x0C\x80\x09\x00\x04\xC0\x00\x02\x0B\x80\x09\x00\x01\xAA",
        ),
        (
            b"\x80\x0A\x00\x00\x80\x0A\x00\x08\x80\x02\x00\x04\xC6\x33\x64\x07",
            0,
            PEER,
            b"\x80\x0A\x00\x00\x80\x0A\x00\x08\x80\x02\x00\x04\xC6\x33\x64\x07",
        ),
        // Two sub-TLVs are no way to go.
        (
            b"\x80\x0A\x00\x0C\x80\x02\x00\x04\xC6\x33\x64\x07\x00\x01\x00\x00",
            0,
            PEER,
            b"\x80\x0A\x00\x0C\x80\x02\x00\x04\xC6\x33\x64\x07\x00\x01\x00\x00",
        ),
    ];
    for (tail, from, to, want) in cases {
        let reply = sent(rt.alloc(), REDIRECTED, tail)?
            .ok()
            .ok_or("nothing is sent")?;
        assert_eq!(rt; reply.from, from);
        assert_eq!(rt; reply.to, to);
        assert_eq!(rt; reply.tail.as_slice(), want);
    }
    Ok(())
}

#[test]
fn a_sender_that_wants_no_reply_gets_none(rt: HostRuntime) -> Result<(), Fail> {
    let tail = b"\x80\x0A\x00\x08\x80\x01\x00\x04\x00\x00\x00\x00";
    let cause = sent(rt.alloc(), REDIRECTED, tail)?
        .err()
        .ok_or("a reply is sent")?;
    assert_eq!(rt; cause, Silent::NoReply);
    let reply = sent(rt.alloc(), PARTS, tail)?
        .ok()
        .ok_or("nothing is sent")?;
    assert_eq!(rt; reply.to, PEER);
    let want = b"\x80\x0A\x00\x08\x80\x01\x00\x04\x00\x00\x00\x00";
    assert_eq!(rt; reply.tail.as_slice(), want.as_slice());
    Ok(())
}

#[test]
fn a_tail_whose_integrity_failed_is_asked_nothing(rt: HostRuntime) -> Result<(), Fail> {
    let parts = ConfigParts {
        key: Some(KEY),
        ..REDIRECTED
    };
    let zeros = b"\x80\x08\x00\x10\x00\x00\x00\x00\x00\x00\x00\x00\x00\x00\x00\x00\x00\x00\x00\x00";
    for (path, flagged) in [
        (
            b"\x80\x0A\x00\x08\x80\x01\x00\x04\x00\x00\x00\x00",
            b"\xA0\x0A\x00\x08\x80\x01\x00\x04\x00\x00\x00\x00",
        ),
        (
            b"\x80\x0A\x00\x08\x80\x02\x00\x04\xC6\x33\x64\x07",
            b"\xA0\x0A\x00\x08\x80\x02\x00\x04\xC6\x33\x64\x07",
        ),
    ] {
        let tail = joined(rt.alloc(), path, zeros)?;
        let reply = sent(rt.alloc(), parts, &tail)?
            .ok()
            .ok_or("nothing is sent")?;
        assert_eq!(rt; reply.from, 0);
        assert_eq!(rt; reply.to, PEER);
        let mut want = joined(rt.alloc(), flagged, zeros)?;
        if let Some(flags) = want.get_mut(12) {
            *flags = 0xA0;
        }
        assert_eq!(rt; reply.tail.as_slice(), want.as_slice());
    }
    Ok(())
}
