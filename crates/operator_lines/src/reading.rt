//! Lines are read word by word.

ghost use Rattle.std.specs.Prelude.{◌≡◌, option_map, IfOk, IfErr};
ghost use Rattle.std.specs.Result.{result_ok};
ghost use Rattle.text_forms.specs.Numbers.{number_from};
ghost use Rattle.text_forms.specs.Endpoints as texts;
ghost use Rattle.operator_lines.specs.declared.line.Line as declared;
ghost use Rattle.operator_lines.specs.Lines.{IsLine};
ghost use Rattle.operator_lines.specs.Reading as spec;

use crate::laws::law_lines;
use crate::line::{Line, LineFault};
use hex::FromHex;
use refl_types::{Extra, Key, Mode};
use text_forms::{Name, endpoint_from, number_from};

/// What stands before and after the first such octet.
fn cut(mark: u8, text: &[u8]) -> Option<(&[u8], &[u8])>
    ensures { option_map (λ p. (p.0.now, p.1.now)) result ≡ texts.cut mark text.now }
{
    for at in 0..text.len() {
        if text[at] == mark {
            return Some((&text[..at], &text[at + 1..]));
        }
    }
    None
}

fn mode_from(text: &[u8]) -> Option<Mode>
    ensures { result ≡ spec.mode_from text.now }
{
    if text == b"plain".as_slice() {
        return Some(Mode::Plain);
    }
    if text == b"auth".as_slice() {
        return Some(Mode::Auth);
    }
    if text == b"twamp".as_slice() {
        return Some(Mode::Twamp);
    }
    None
}

fn u16_from(text: &[u8]) -> Option<u16>
    ensures { result ≡ number_from 0 65535 text.now }
{
    let number = number_from(0, 65535, text)?;
    Some(number as u16)
}

/// A key without its SSID, and what stands behind it.
#[tactic(auto, unfolding(crate::specs::Reading::ends_at))]
fn ends_at(text: &[u8]) -> Option<(Key, &[u8])>
    ensures { option_map (λ p. (p.0, p.1.now)) result ≡ spec.ends_at text.now }
{
    let (local, rest) = cut(b' ', text)?;
    let (peer, rest) = cut(b' ', rest)?;
    let (mode, rest) = cut(b' ', rest)?;
    let local = u16_from(local)?;
    let peer = endpoint_from(peer)?;
    let mode = mode_from(mode)?;
    let key = Key {
        local,
        peer,
        mode,
        ssid: 0,
    };
    Some((key, rest))
}

/// A session that a line names has nothing agreed on besides.
const NO_EXTRA: Extra = Extra {
    symmetrical: false,
    reflect: 0,
};

#[tactic(auto, unfolding(crate::specs::Reading::with_ssid))]
fn with_ssid(key: Key, text: &[u8]) -> Option<Key>
    ensures { result ≡ spec.with_ssid key text.now }
{
    let ssid = u16_from(text)?;
    let whole = Key { ssid, ..key };
    if whole.is_sound(&NO_EXTRA) {
        return Some(whole);
    }
    None
}

#[tactic(auto, unfolding(crate::specs::Reading::key_from))]
fn key_from(text: &[u8]) -> Option<Key>
    ensures { result ≡ spec.key_from text.now }
{
    let (key, rest) = ends_at(text)?;
    with_ssid(key, rest)
}

/// A key, and what stands behind it.
#[tactic(auto, unfolding(crate::specs::Reading::key_at))]
fn key_at(text: &[u8]) -> Option<(Key, &[u8])>
    ensures { option_map (λ p. (p.0, p.1.now)) result ≡ spec.key_at text.now }
{
    let (key, rest) = ends_at(text)?;
    let (ssid, rest) = cut(b' ', rest)?;
    let key = with_ssid(key, ssid)?;
    Some((key, rest))
}

fn octets_from(text: &[u8]) -> Option<[u8; 76]>
    ensures { result ≡ spec.octets_from text.now }
{
    match <[u8; 76]>::from_hex(text) {
        Ok(octets) => Some(octets),
        Err(_) => None,
    }
}

#[tactic(auto, unfolding(crate::specs::Reading::config_from))]
fn config_from(text: &[u8]) -> Option<Line>
    ensures { result ≡ spec.config_from text.now }
{
    let (name, digits) = cut(b' ', text)?;
    let name = Name::make(name)?;
    let octets = octets_from(digits)?;
    Some(Line::Config { name, octets })
}

/// The longest wait that a line may name, in seconds: 365 days.
const LONGEST_WAIT: u64 = 31_536_000;

const NANOSECONDS: u64 = 1_000_000_000;

#[tactic(auto, unfolding(crate::specs::Reading::open_from))]
fn open_from(text: &[u8]) -> Option<Line>
    ensures { result ≡ spec.open_from text.now }
{
    let (key, rest) = key_at(text)?;
    let (name, seconds) = cut(b' ', rest)?;
    let name = Name::make(name)?;
    let seconds = number_from(0, LONGEST_WAIT, seconds)?;
    Some(Line::Open {
        key,
        name,
        wait: seconds * NANOSECONDS,
    })
}

#[tactic(auto, unfolding(crate::specs::Reading::set_from))]
fn set_from(text: &[u8]) -> Option<Line>
    ensures { result ≡ spec.set_from text.now }
{
    let (key, rest) = key_at(text)?;
    let name = Name::make(rest)?;
    Some(Line::Set { key, name })
}

#[tactic(auto, unfolding(crate::specs::Reading::close_from))]
fn close_from(text: &[u8]) -> Option<Line>
    ensures { result ≡ spec.close_from text.now }
{
    let key = key_from(text)?;
    Some(Line::Close { key })
}

#[tactic(auto, unfolding(crate::specs::Reading::count_from))]
fn count_from(text: &[u8]) -> Option<Line>
    ensures { result ≡ spec.count_from text.now }
{
    let key = key_from(text)?;
    Some(Line::Count { key })
}

/// A line of more than one word: its first word, and what stands behind it.
#[tactic(auto, unfolding(crate::specs::Reading::asked))]
fn asked(word: &[u8], rest: &[u8]) -> Option<Line>
    ensures { result ≡ spec.asked word.now rest.now }
{
    if word == b"config".as_slice() {
        return config_from(rest);
    }
    if word == b"open".as_slice() {
        return open_from(rest);
    }
    if word == b"set".as_slice() {
        return set_from(rest);
    }
    if word == b"close".as_slice() {
        return close_from(rest);
    }
    if word == b"count".as_slice() {
        return count_from(rest);
    }
    None
}

#[tactic(auto, unfolding(crate::specs::Reading::words_from))]
fn words_from(text: &[u8]) -> Option<Line>
    ensures { result ≡ spec.words_from text.now }
{
    if text == b"list".as_slice() {
        return Some(Line::List);
    }
    if text == b"quit".as_slice() {
        return Some(Line::Quit);
    }
    let (word, rest) = cut(b' ', text)?;
    asked(word, rest)
}

#[tactic(auto, unfolding(crate::specs::Reading::line_from))]
fn line_from(text: &[u8]) -> Option<Line>
    ensures { result ≡ spec.line_from text.now }
{
    let (body, rest) = cut(b'\n', text)?;
    if !rest.is_empty() {
        return None;
    }
    words_from(body)
}

/// Reads a line, which is handed in with its end, LF. A fault comes exactly where the text is no line.
pub fn read_line(line: &[u8]) -> Result<Line, LineFault>
    ensures value { result_ok result ≡ spec.line_from line.now }
    ensures is_line { IfOk result (IsLine line.now) }
    ensures no_line { IfErr result (λ f. (other : declared.Line) → IsLine line.now other → ⊥) }
{
    law_lines();
    match line_from(line) {
        Some(line) => Ok(line),
        None => Err(LineFault),
    }
}
