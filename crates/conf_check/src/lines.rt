//! The lines that are told of a configuration file.

ghost use Rattle.std.specs.Prelude.{◌≡◌, ◌++◌, codes, IfOk, OnOk, Some, option_map, string_bytes};
ghost use Rattle.conf_text.specs.Faults.{fault_of};
ghost use Rattle.conf_check.specs.Lines as spec;

use conf_text::{Conf, ConfFault};
use itoa::Buffer;
use refl_types::Memory;
use std::alloc::{AllocError, Global};

/// Adds a word and how many there are.
fn push_count(line: &mut String, word: &str, count: usize) -> Result<(), AllocError>
    ensures { OnOk result (string_bytes line.new ≡ spec.with_count (string_bytes line.old) word.now count) }
{
    let mut buffer = Buffer::new();
    line.push_str(word)?;
    line.push_str(buffer.format(count))
}

/// The line of a file that is accepted.
#[tactic(auto, unfolding(crate::specs::Lines::accepted_line))]
pub(crate) fn accepted_line(alloc: Global, conf: &Conf) -> Result<String, AllocError>
    ensures { IfOk result (λ s. string_bytes s ≡ spec.accepted_line conf.now) }
{
    let mut line = String::from_str(alloc, "ok")?;
    push_count(&mut line, " locals ", conf.locals().len())?;
    push_count(&mut line, " configs ", conf.configs().len())?;
    push_count(&mut line, " sessions ", conf.sessions().len())?;
    line.push_str("\n")?;
    Ok(line)
}

/// The line of a fault with this word and path.
fn line_of(alloc: Global, word: &str, path: &str) -> Result<String, AllocError>
    ensures { IfOk result (λ s. string_bytes s ≡ codes "stampd: configuration: " ++ (word.now ++ path.now) ++ spec.line_end) }
{
    let mut line = String::from_str(alloc, "stampd: configuration: ")?;
    line.push_str(word)?;
    line.push_str(path)?;
    line.push_str("\n")?;
    Ok(line)
}

/// The line of a fault, unless it is want of memory.
#[tactic(auto, unfolding(crate::specs::Lines::fault_line))]
pub(crate) fn fault_line(alloc: Global, fault: &ConfFault) -> Result<String, Memory>
    ensures { IfOk result (λ s. option_map spec.fault_line (fault_of fault.now) ≡ Some (string_bytes s)) }
{
    let line = match fault {
        ConfFault::Memory => return Err(Memory),
        ConfFault::NotToml => line_of(alloc, "not toml", ""),
        ConfFault::Unknown(path) => line_of(alloc, "unknown ", path),
        ConfFault::Missing(path) => line_of(alloc, "missing ", path),
        ConfFault::BadValue(path) => line_of(alloc, "bad ", path),
        ConfFault::Limit(path) => line_of(alloc, "limit ", path),
    };
    line.map_err(|_| Memory)
}
