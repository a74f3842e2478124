//! What a line asks.

use refl_types::Key;
use text_forms::Name;

/// How many octets a line has at most, with its end; and an answer too.
pub const LINE_MAX: usize = 512;

/// A line of an operator.
#[derive(Clone, Copy, Debug, PartialEq, Eq)]
pub enum Line {
    /// `config NAME HEX`: the octets of a configuration get a name.
    Config { name: Name, octets: [u8; 76] },
    /// `open S NAME WAIT`: a session begins. Its wait is in nanoseconds here, and in seconds in the line; 0 is for ever.
    Open { key: Key, name: Name, wait: u64 },
    /// `set S NAME`: a session changes its configuration.
    Set { key: Key, name: Name },
    /// `close S`: a session ends.
    Close { key: Key },
    /// `count S`: how many datagrams a session has numbered.
    Count { key: Key },
    /// `list`: which sessions there are.
    List,
    /// `quit`: the desk ends.
    Quit,
}

/// A text that is no line. The operator is to blame.
#[derive(Clone, Copy, Debug, PartialEq, Eq)]
pub struct LineFault;
