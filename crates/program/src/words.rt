//! The words of the command line.

ghost use Rattle.std.specs.Prelude.{ℕ, ◌≡◌, ◌≤◌, Some, map, option_map, string_bytes};
ghost use Rattle.load_report.specs.Report.{count_limit};
ghost use Rattle.program.specs.declared.commands.Command.TheVariants.{Gen};
ghost use Rattle.program.specs.Command.{command_in, load_command, named_command, parts_of};

use crate::commands::Command;
use load_report::COUNT_LIMIT;
use text_forms::{law_number_texts, number_from};

/// The greatest number of ten digits.
const SEED_LIMIT: u64 = 9_999_999_999;

/// A word and the name of a file.
fn read_named<'a>(word: &str, name: &'a str) -> Option<Command<'a>>
    ensures { option_map parts_of result ≡ named_command word.now name.now }
{
    if name.as_bytes().starts_with(b"-") {
        None
    } else if word == "check" {
        Some(Command::Check(name))
    } else if word == "run" {
        Some(Command::Run(name))
    } else {
        None
    }
}

/// The seed and the count of a load.
fn read_load<'a>(first: &str, second: &str) -> Option<Command<'a>>
    ensures read { option_map parts_of result ≡ load_command first.now second.now }
    ensures within { (seed count : ℕ) → result ≡ Some (Gen seed count) → count ≤ count_limit }
{
    law_number_texts();
    let seed = number_from(0, SEED_LIMIT, first.as_bytes())?;
    let count = number_from(0, u64::from(COUNT_LIMIT), second.as_bytes())?;
    Some(Command::Gen(seed, count as u32))
}

/// The command that the words are.
pub fn read_command<'a>(words: &'a [String]) -> Option<Command<'a>>
    ensures read { option_map parts_of result ≡ command_in (map string_bytes words.now) }
    ensures within { (seed count : ℕ) → result ≡ Some (Gen seed count) → count ≤ count_limit }
{
    match words {
        [word] => {
            if word.as_str() == "replay" {
                Some(Command::Replay)
            } else if word.as_str() == "audit" {
                Some(Command::Audit)
            } else {
                None
            }
        }
        [word, name] => read_named(word, name),
        [word, first, second] => {
            if word.as_str() == "gen" {
                read_load(first, second)
            } else {
                None
            }
        }
        _ => None,
    }
}
