//! A configuration in twelve words.

ghost use Rattle.std.specs.Prelude.{◌≡◌, ◌+◌, ◌^◌, ◌<◌, ◌≤◌, length, take, drop};
ghost use Rattle.std.specs.Int.{w64, from_be_bytes};
ghost use Rattle.octet_format.specs.Octets.{IsArray, IsBytes};
ghost use Rattle.refl_types.specs.Spelling.{config_flags, block_octets, FitsBlock, FitsConfig};
ghost use Rattle.config_rows.specs.Words.{row_words, AreConfigWords, config_of_words, clock_of, key_of};

use byteorder::{BigEndian, ByteOrder};
use refl_types::{Clock, Config, ConfigParts};

fn flags(parts: &ConfigParts) -> u8
    ensures value { result ≡ config_flags parts.now }
    ensures range { result < 16 }
{
    let stateful = u8::from(parts.stateful);
    let ptp = u8::from(matches!(&parts.clock, Clock::Ptp));
    let keyed = u8::from(parts.key.is_some());
    let synced = u8::from(parts.synced);
    stateful + 2 * ptp + 4 * keyed + 8 * synced
}

fn block(key: &Option<[u8; 64]>) -> [u8; 64]
    ensures { result ≡ block_octets key.now }
{
    match key {
        Some(block) => *block,
        None => [0; 64],
    }
}

/// The word in eight octets.
fn word_at(octets: &[u8], at: usize) -> u64
    requires { at + 8 ≤ length octets.now }
    ensures { result ≡ from_be_bytes w64 (take 8 (drop at octets.now)) }
{
    BigEndian::read_u64(&octets[at..])
}

// What the types of a configuration's parts say of its numbers.

fn octet_fits(octet: u8)
    ensures { octet < 256 }
{}

fn number_fits(number: u32)
    ensures { number < 2 ^ 32 }
{}

fn octets_fit(octets: &[u8])
    ensures { IsBytes octets.now }
{}

fn info_fits(info: &[u8; 4])
    ensures { IsArray 4 info.now }
{
    octets_fit(info);
}

fn block_fits(block: &[u8; 64])
    ensures { IsArray 64 block.now }
{
    octets_fit(block);
}

fn key_fits(key: &Option<[u8; 64]>)
    ensures { FitsBlock key.now }
{
    match key {
        Some(block) => block_fits(block),
        None => {}
    }
}

fn fits(config: &Config)
    ensures { FitsConfig config.now }
{
    let parts = config.as_parts();
    octet_fits(parts.offset);
    octet_fits(parts.multiplier);
    info_fits(&parts.info);
    number_fits(parts.tlvs);
    key_fits(&parts.key);
}

/// The twelve words of a configuration.
pub fn to_words(config: &Config) -> [u64; 12]
    ensures value { result ≡ row_words config.now }
    ensures fits { FitsConfig config.now }
    ensures words { AreConfigWords result }
{
    fits(config);
    let parts = config.as_parts();
    let block = block(&parts.key);
    let head = [flags(parts), parts.offset, parts.scale, parts.multiplier];
    [
        u64::from(u32::from_be_bytes(head)),
        u64::from(u32::from_be_bytes(parts.info)),
        u64::from(parts.tlvs),
        0,
        word_at(&block, 0),
        word_at(&block, 8),
        word_at(&block, 16),
        word_at(&block, 24),
        word_at(&block, 32),
        word_at(&block, 40),
        word_at(&block, 48),
        word_at(&block, 56),
    ]
}

fn clock_of(ptp: bool) -> Clock
    ensures { result ≡ clock_of ptp }
{
    if ptp { Clock::Ptp } else { Clock::Ntp }
}

fn key_of(keyed: bool, words: &[u64]) -> Option<[u8; 64]>
    requires { length words.now ≡ 8 }
    ensures { result ≡ key_of keyed words.now }
{
    if !keyed {
        return None;
    }
    let mut block = [0; 64];
    BigEndian::write_u64_into(words, &mut block);
    Some(block)
}

/// The configuration of twelve words.
pub fn from_words(words: &[u64; 12]) -> Config
    requires { AreConfigWords words.now }
    ensures { result ≡ config_of_words words.now }
{
    let head = words[0];
    let parts = ConfigParts {
        stateful: (head >> 24) % 2 == 1,
        clock: clock_of((head >> 25) % 2 == 1),
        offset: ((head >> 16) % 256) as u8,
        synced: (head >> 27) % 2 == 1,
        scale: ((head >> 8) % 256) as u8,
        multiplier: (head % 256) as u8,
        info: (words[1] as u32).to_be_bytes(),
        tlvs: words[2] as u32,
        key: key_of((head >> 26) % 2 == 1, &words[4..]),
    };
    match Config::make(parts) {
        Ok(config) => config,
        Err(_) => unreachable!(),
    }
}
