//! Answers are written piece by piece.

ghost use Rattle.std.specs.Prelude.{◌≡◌, ◌+◌, ◌≤◌, ◌<◌, ◌^◌, ◌++◌, length, take, decimal, true};
ghost use Rattle.octet_format.specs.Octets.{IsArray, IsBytes};
ghost use Rattle.refl_types.specs.Spelling.{FitsAddress, FitsKey};
ghost use Rattle.text_forms.specs.Names.{is_name};
ghost use Rattle.operator_lines.specs.OneLine.{IsOneLine};
ghost use Rattle.text_forms.specs.Endpoints.{endpoint_text};
ghost use Rattle.operator_lines.specs.Lines as lines;
ghost use Rattle.operator_lines.specs.Answers.{refusal_word, counts_text, answer_text};

use crate::answer::{Answer, Refusal};
use crate::line::LINE_MAX;
use itoa::Buffer;
use octet_format::put;
use refl_types::{Address, Endpoint, Key, Mode};
use text_forms::{ENDPOINT_TEXT_MAX, Name, write_endpoint};

/// Writes a piece behind the first `at` octets, and answers how many octets there are then.
fn append(out: &mut [u8], at: usize, piece: &[u8]) -> usize
    requires { at + length piece.now ≤ length out.old }
    ensures text { take result out.new ≡ take at out.old ++ piece.now }
    ensures len { result ≡ at + length piece.now }
{
    put(out, at, piece);
    at + piece.len()
}

fn append_number(out: &mut [u8], at: usize, number: u32) -> usize
    requires { at + 10 ≤ length out.old }
    ensures text { take result out.new ≡ take at out.old ++ decimal number }
    ensures short { result ≤ at + 10 }
{
    let mut buffer = Buffer::new();
    append(out, at, buffer.format(number).as_bytes())
}

fn append_endpoint(out: &mut [u8], at: usize, endpoint: &Endpoint) -> usize
    requires { at + 47 ≤ length out.old }
    ensures text { take result out.new ≡ take at out.old ++ endpoint_text endpoint.now }
    ensures short { result ≤ at + 47 }
{
    let mut text = [0; ENDPOINT_TEXT_MAX];
    let len = write_endpoint(endpoint, &mut text);
    append(out, at, &text[..len])
}

fn mode_text(mode: Mode) -> &'static str
    ensures text { result.now ≡ lines.mode_text mode }
    ensures short { length result.now ≤ 5 }
{
    match mode {
        Mode::Plain => "plain",
        Mode::Auth => "auth",
        Mode::Twamp => "twamp",
    }
}

/// Writes a key to the front.
fn put_key(out: &mut [u8], key: &Key) -> usize
    requires { 80 ≤ length out.old }
    ensures text { take result out.new ≡ lines.key_text key.now }
    ensures short { result ≤ 75 }
{
    let at = append_number(out, 0, u32::from(key.local));
    let at = append(out, at, b" ");
    let at = append_endpoint(out, at, &key.peer);
    let at = append(out, at, b" ");
    let at = append(out, at, mode_text(key.mode).as_bytes());
    let at = append(out, at, b" ");
    append_number(out, at, u32::from(key.ssid))
}

/// Writes a key behind the first `at` octets.
fn append_key(out: &mut [u8], at: usize, key: &Key) -> usize
    requires { at + 80 ≤ length out.old }
    ensures text { take result out.new ≡ take at out.old ++ lines.key_text key.now }
    ensures short { result ≤ at + 75 }
{
    let at = append_number(out, at, u32::from(key.local));
    let at = append(out, at, b" ");
    let at = append_endpoint(out, at, &key.peer);
    let at = append(out, at, b" ");
    let at = append(out, at, mode_text(key.mode).as_bytes());
    let at = append(out, at, b" ");
    append_number(out, at, u32::from(key.ssid))
}

// What the types of a key say of its numbers.

fn octets_fit(octets: &[u8])
    ensures { IsBytes octets.now }
{}

fn v4_fits(octets: &[u8; 4])
    ensures { IsArray 4 octets.now }
{
    octets_fit(octets);
}

fn v6_fits(octets: &[u8; 16])
    ensures { IsArray 16 octets.now }
{
    octets_fit(octets);
}

fn address_fits(address: &Address)
    ensures { FitsAddress address.now }
{
    match address {
        Address::V4(octets) => v4_fits(octets),
        Address::V6(octets) => v6_fits(octets),
    }
}

fn number_fits(number: u16)
    ensures { number < 2 ^ 16 }
{}

fn key_fits(key: &Key)
    ensures { FitsKey key.now }
{
    number_fits(key.local);
    number_fits(key.peer.port);
    number_fits(key.ssid);
    address_fits(&key.peer.address);
}

/// Writes the line that asks for a session to the front.
fn put_open(key: &Key, name: &Name, seconds: u32, out: &mut [u8]) -> usize
    requires { 512 ≤ length out.old }
    ensures text { take result out.new ≡ lines.open_text key.now name.now seconds }
    ensures short { result ≤ 112 }
{
    let at = append(out, 0, b"open ");
    let at = append_key(out, at, key);
    let at = append(out, at, b" ");
    let at = append_name(out, at, name);
    let at = append(out, at, b" ");
    let at = append_number(out, at, seconds);
    append(out, at, b"\n")
}

fn name_fits(name: &Name)
    ensures { is_name name.now ≡ true }
{
    let _ = name.octets();
}

/// Writes the line that asks for a session to the front of a buffer, and answers how many octets it has with its end. Of a key
/// whose peer has port 0 it is no line that can be read. Either way it has one answer.
pub fn write_open(key: &Key, name: &Name, seconds: u32, out: &mut [u8]) -> usize
    requires { 512 ≤ length out.old }
    ensures text { take result out.new ≡ lines.open_text key.now name.now seconds }
    ensures short { result ≤ 112 }
    ensures one { IsOneLine (lines.open_text key.now name.now seconds) }
{
    key_fits(key);
    name_fits(name);
    put_open(key, name, seconds, out)
}

/// Writes a name behind the first `at` octets.
fn append_name(out: &mut [u8], at: usize, name: &Name) -> usize
    requires { at + 16 ≤ length out.old }
    ensures text { take result out.new ≡ take at out.old ++ name.now }
    ensures short { result ≤ at + 16 }
{
    append(out, at, name.octets())
}

/// What a refusal says behind `refused`, but for the numbers of `Full`.
fn refusal_word(refusal: &Refusal) -> &'static str
    ensures text { result.now ≡ refusal_word refusal.now }
    ensures short { length result.now ≤ 10 }
{
    match refusal {
        Refusal::Line => "line",
        Refusal::Config => "config",
        Refusal::Exists => "exists",
        Refusal::NamesFull => "names full",
        Refusal::Local => "local",
        Refusal::NoConfig => "no config",
        Refusal::Duplicate => "duplicate",
        Refusal::ModeClash => "mode clash",
        Refusal::NoSuch => "no such",
        Refusal::NoKey => "no key",
        Refusal::RowsFull => "rows full",
        Refusal::Full { .. } => "full",
    }
}

/// Writes what stands behind a refusal's words.
fn append_counts(out: &mut [u8], at: usize, refusal: &Refusal) -> usize
    requires { at + 100 ≤ length out.old }
    ensures text { take result out.new ≡ take at out.old ++ counts_text refusal.now }
    ensures short { result ≤ at + 80 }
{
    match refusal {
        Refusal::Full {
            live,
            reserved,
            retired,
            held,
        } => {
            let at = append(out, at, b" live ");
            let at = append_number(out, at, *live);
            let at = append(out, at, b" reserved ");
            let at = append_number(out, at, *reserved);
            let at = append(out, at, b" retired ");
            let at = append_number(out, at, *retired);
            let at = append(out, at, b" held ");
            append_number(out, at, *held)
        }
        _ => at,
    }
}

/// Writes an answer to the front of a buffer, and answers how many octets it has with its end. The other octets of the
/// buffer are undefined after it.
#[tactic(auto, unfolding(crate::specs::Answers::answer_text))]
pub fn write_answer(answer: &Answer, out: &mut [u8; LINE_MAX]) -> usize
    ensures text { take result out.new ≡ answer_text answer.now }
    ensures len { result ≡ length (answer_text answer.now) }
    ensures short { result ≤ 512 }
{
    match answer {
        Answer::Done => append(out, 0, b"ok\n"),
        Answer::Number(number) => {
            let at = append(out, 0, b"ok ");
            let at = append_number(out, at, *number);
            append(out, at, b"\n")
        }
        Answer::Listed { key, number } => {
            let at = put_key(out, key);
            let at = append(out, at, b" ");
            let at = append_number(out, at, *number);
            append(out, at, b"\n")
        }
        Answer::Bye => append(out, 0, b"bye\n"),
        Answer::Refused(refusal) => {
            let at = append(out, 0, b"refused ");
            let at = append(out, at, refusal_word(refusal).as_bytes());
            let at = append_counts(out, at, refusal);
            append(out, at, b"\n")
        }
    }
}
