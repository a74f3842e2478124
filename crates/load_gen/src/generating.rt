//! The record of an index.

ghost use Rattle.std.specs.Prelude.{◌≡◌, ◌+◌, ◌<◌, ◌≤◌, ◌^◌, ◌++◌, drop, length};
ghost use Rattle.replay_format.specs.Records.{Arrives, Fits, spelling};
ghost use Rattle.refl_types.specs.Spelling.{FitsEndpoint};
ghost use Rattle.load_gen.specs.Generator.{record_of, opening, datagram_by, datagram_from, config, peer};

use crate::request::{HEAD, padded_request};
use crate::state::state_after;
use refl_types::{Address, Clock, Config, ConfigParts, Endpoint, Extra, Key, Meta, Mode};
use replay_format::{Record, write_record};

/// How many sessions are opened, before any datagram.
const OPENINGS: u32 = 8;

/// The UDP port of each session sender.
const PORT: u16 = 5000;

/// Nanoseconds between two arrivals, and from an arrival to its reply.
const BETWEEN_ARRIVALS: u64 = 1_000_000;

const TURN: u64 = 1_000;

/// The session sender of that number.
fn peer(number: u8) -> Endpoint
    requires { number < 255 }
    ensures value { result ≡ peer number }
    ensures fits { FitsEndpoint (peer number) }
{
    Endpoint {
        address: Address::V4([10, 0, 0, number + 1]),
        port: PORT,
    }
}

/// The one configuration of all sessions.
fn config() -> Config
    ensures { result ≡ config }
{
    let parts = ConfigParts {
        stateful: true,
        clock: Clock::Ntp,
        offset: 0,
        synced: false,
        scale: 0,
        multiplier: 1,
        info: [0; 4],
        tlvs: 0,
        key: None,
    };
    match Config::make(parts) {
        Ok(config) => config,
        Err(_) => unreachable!(),
    }
}

/// Writes that a session is opened.
fn write_opening(number: u8, out: &mut [u8; 256]) -> usize
    requires { number < 8 }
    ensures octets { out.new ≡ spelling (opening number) ++ drop result out.old }
    ensures len { result ≡ length (spelling (opening number)) }
    ensures fits { Fits (opening number) }
{
    let key = Key {
        local: 0,
        peer: peer(number),
        mode: Mode::Plain,
        ssid: u16::from(number),
    };
    let extra = Extra {
        symmetrical: false,
        reflect: 0,
    };
    let config = config();
    write_record(&Record::Open { key, extra, config }, out)
}

/// Writes that a datagram arrives from a peer, of which no TTL was told.
fn write_arrival(peer: Endpoint, arrival: u64, octets: &[u8], out: &mut [u8; 256]) -> usize
    requires sender { FitsEndpoint peer }
    requires early { arrival < 2 ^ 63 }
    requires limit { length octets.now ≤ 111 }
    ensures octets { out.new ≡ spelling (Arrives (datagram_from peer arrival octets.now)) ++ drop result out.old }
    ensures len { result ≡ length (spelling (Arrives (datagram_from peer arrival octets.now))) }
    ensures fits { Fits (Arrives (datagram_from peer arrival octets.now)) }
{
    let meta = Meta {
        local: 0,
        peer,
        len: octets.len(),
        ttl: None,
        arrival,
    };
    let t3 = arrival + TURN;
    write_record(&Record::Datagram { meta, t3, octets }, out)
}

/// Writes that a datagram arrives, made from that number.
fn write_datagram(sequence: u32, state: u64, out: &mut [u8; 256]) -> usize
    ensures octets { out.new ≡ spelling (datagram_by sequence state) ++ drop result out.old }
    ensures len { result ≡ length (spelling (datagram_by sequence state)) }
    ensures fits { Fits (datagram_by sequence state) }
{
    let sender = ((state >> 33) % 10) as u8;
    let padding = ((state >> 40) % 64) as u16;
    let request = padded_request(sequence, u16::from(sender), padding);
    let arrival = u64::from(sequence) * BETWEEN_ARRIVALS;
    let octets = &request[..HEAD + padding as usize];
    write_arrival(peer(sender), arrival, octets, out)
}

/// Writes the record of that index of the load that a seed gives, and answers its length: the first eight open a session
/// each, and all others are datagrams. Later octets stay. It takes no loop over the records before.
pub fn generate(seed: u64, index: u32, out: &mut [u8; 256]) -> usize
    ensures octets { out.new ≡ spelling (record_of seed index) ++ drop result out.old }
    ensures len { result ≡ length (spelling (record_of seed index)) }
    ensures fits { Fits (record_of seed index) }
{
    if index < OPENINGS {
        return write_opening(index as u8, out);
    }
    let sequence = index - OPENINGS;
    write_datagram(sequence, state_after(seed, u64::from(sequence) + 1), out)
}
