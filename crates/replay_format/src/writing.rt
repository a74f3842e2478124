//! Records are written in octets.

ghost use Rattle.std.specs.Prelude.{◌≡◌, ◌+◌, ◌*◌, ◌≤◌, ◌++◌, length, take, drop};
ghost use Rattle.std.specs.List.{flat_map};
ghost use Rattle.refl_types.specs.Limits.{datagram_limit};
ghost use Rattle.refl_types.specs.Spelling.{endpoint_octets};
ghost use Rattle.replay_format.specs.Records.{Fits, Opens, Sets, Closes, Arrives, Lists, datagram_of, ttl_octets, spelling, record_len};
ghost use Rattle.replay_format.specs.View.{item_of, IsMeasured};

use crate::layout::{
    CLOSE_LEN, CLOSE_TAG, DATAGRAM_FIELDS, DATAGRAM_HEAD, DATAGRAM_TAG, ENDPOINT_LEN, LOCALS_TAG,
    OPEN_LEN, OPEN_TAG, SET_LEN, SET_TAG,
};
use crate::record::Record;
use octet_format::put;
use refl_types::{Config, Extra, Key, LocalAddr, Meta};
use session_octets::{config_octets, endpoint_octets, extra_octets, key_octets};

fn write_open(key: &Key, extra: &Extra, config: &Config, out: &mut [u8]) -> usize
    requires { 108 ≤ length out.old }
    ensures octets { out.new ≡ spelling (Opens (record { key = key.now; extra = extra.now; config = config.now })) ++ drop result out.old }
    ensures count { result ≡ 108 }
    ensures len { length (spelling (Opens (record { key = key.now; extra = extra.now; config = config.now }))) ≡ 108 }
{
    put(out, 0, &[OPEN_TAG, 0, 0, 0, OPEN_LEN]);
    put(out, 5, &key_octets(key));
    put(out, 29, &extra_octets(extra));
    put(out, 32, &config_octets(config));
    108
}

fn write_set(key: &Key, config: &Config, out: &mut [u8]) -> usize
    requires { 105 ≤ length out.old }
    ensures octets { out.new ≡ spelling (Sets (record { key = key.now; config = config.now })) ++ drop result out.old }
    ensures count { result ≡ 105 }
    ensures len { length (spelling (Sets (record { key = key.now; config = config.now }))) ≡ 105 }
{
    put(out, 0, &[SET_TAG, 0, 0, 0, SET_LEN]);
    put(out, 5, &key_octets(key));
    put(out, 29, &config_octets(config));
    105
}

fn write_close(key: &Key, out: &mut [u8]) -> usize
    requires { 29 ≤ length out.old }
    ensures octets { out.new ≡ spelling (Closes key.now) ++ drop result out.old }
    ensures count { result ≡ 29 }
    ensures len { length (spelling (Closes key.now)) ≡ 29 }
{
    put(out, 0, &[CLOSE_TAG, 0, 0, 0, CLOSE_LEN]);
    put(out, 5, &key_octets(key));
    29
}

/// Whether a TTL was told, and the TTL, which is 0 where it wasn't.
fn ttl_octets(ttl: Option<u8>) -> [u8; 2]
    ensures { result ≡ ttl_octets ttl }
{
    match ttl {
        Some(ttl) => [1, ttl],
        None => [0, 0],
    }
}

fn write_datagram(meta: &Meta, t3: u64, octets: &[u8], out: &mut [u8]) -> usize
    requires room { 44 + length octets.now ≤ length out.old }
    requires limit { length octets.now ≤ datagram_limit }
    ensures octets { out.new ≡ spelling (Arrives (datagram_of meta.now t3 octets.now)) ++ drop result out.old }
    ensures count { result ≡ 44 + length octets.now }
    ensures len { length (spelling (Arrives (datagram_of meta.now t3 octets.now))) ≡ 44 + length octets.now }
{
    let len = DATAGRAM_FIELDS + octets.len();
    put(out, 0, &[DATAGRAM_TAG]);
    put(out, 1, &(len as u32).to_be_bytes());
    put(out, 5, &meta.local.to_be_bytes());
    put(out, 7, &endpoint_octets(&meta.peer));
    put(out, 26, &ttl_octets(meta.ttl));
    put(out, 28, &meta.arrival.to_be_bytes());
    put(out, 36, &t3.to_be_bytes());
    put(out, DATAGRAM_HEAD, octets);
    DATAGRAM_HEAD + octets.len()
}

/// Writes endpoints one after the other from a place on.
fn put_locals(locals: &[LocalAddr], at: usize, out: &mut [u8])
    requires { at + 19 * length locals.now ≤ length out.old }
    ensures octets { out.new ≡ take at out.old ++ flat_map endpoint_octets locals.now ++ drop (at + 19 * length locals.now) out.old }
    ensures len { length (flat_map endpoint_octets locals.now) ≡ 19 * length locals.now }
{
    for (i, local) in locals.iter().enumerate() {
        put(out, at + ENDPOINT_LEN * i, &endpoint_octets(local));
    }
}

fn write_locals(locals: &[LocalAddr], out: &mut [u8]) -> usize
    requires room { 6 + 19 * length locals.now ≤ length out.old }
    requires limit { length locals.now ≤ 16 }
    ensures octets { out.new ≡ spelling (Lists locals.now) ++ drop result out.old }
    ensures count { result ≡ 6 + 19 * length locals.now }
    ensures len { length (spelling (Lists locals.now)) ≡ 6 + 19 * length locals.now }
{
    let len = 1 + ENDPOINT_LEN * locals.len();
    put(out, 0, &[LOCALS_TAG]);
    put(out, 1, &(len as u32).to_be_bytes());
    put(out, 5, &[locals.len() as u8]);
    put_locals(locals, 6, out);
    6 + ENDPOINT_LEN * locals.len()
}

/// Writes the one spelling of a record, and answers its length. Later octets stay.
pub fn write_record(item: &Record, out: &mut [u8]) -> usize
    requires room { record_len (item_of item.now) ≤ length out.old }
    requires measured { IsMeasured item.now }
    requires fits { Fits (item_of item.now) }
    ensures octets { out.new ≡ spelling (item_of item.now) ++ drop result out.old }
    ensures len { result ≡ length (spelling (item_of item.now)) }
    ensures count { result ≡ record_len (item_of item.now) }
{
    match item {
        Record::Open { key, extra, config } => write_open(key, extra, config, out),
        Record::Set { key, config } => write_set(key, config, out),
        Record::Close { key } => write_close(key, out),
        Record::Datagram { meta, t3, octets } => write_datagram(meta, *t3, octets, out),
        Record::Locals { count, list } => write_locals(&list[..*count as usize], out),
    }
}
