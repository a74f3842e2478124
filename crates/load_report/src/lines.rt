//! The lines that are told of a load.

ghost use Rattle.std.specs.Prelude.{◌≡◌, IfOk, OnOk, string_bytes};
ghost use Rattle.load_report.specs.Report as spec;

use crate::counting::Counts;
use itoa::Buffer;
use std::alloc::{AllocError, Global};

/// Adds a line of a word and a number.
fn push_line(text: &mut String, word: &str, number: u64) -> Result<(), AllocError>
    ensures { OnOk result (string_bytes text.new ≡ spec.with_line (string_bytes text.old) word.now number) }
{
    let mut buffer = Buffer::new();
    text.push_str(word)?;
    text.push_str(buffer.format(number))?;
    text.push_str("\n")
}

/// The lines of so many datagrams.
#[tactic(auto, unfolding(crate::specs::Report::lines_of))]
pub(crate) fn lines_of(alloc: Global, count: u32, counts: &Counts) -> Result<String, AllocError>
    ensures { IfOk result (λ s. string_bytes s ≡ spec.lines_of count counts.now) }
{
    let mut text = String::new(alloc);
    push_line(&mut text, "datagrams ", u64::from(count))?;
    push_line(&mut text, "sent ", u64::from(counts.sent))?;
    push_line(&mut text, "nosession ", u64::from(counts.no_session))?;
    push_line(&mut text, "octets ", counts.octets)?;
    Ok(text)
}
