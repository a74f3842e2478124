//! The line that is told of a recorded run.

ghost use Rattle.std.specs.Prelude.{◌≡◌, ◌+◌, ◌≤◌, ◌++◌, ◌∷◌, [], length, take, decimal};
ghost use Rattle.audit_report.specs.Verdicts.{line_of, status_of};

use itoa::Buffer;
use octet_format::put;

/// What a recorded run is.
#[derive(Clone, Copy, Debug, PartialEq, Eq)]
pub enum Verdict {
    /// A history of so many entries.
    Yes(u64),
    /// None: the entry at this octet doesn't hold, or the run ended there with a look that has no outcome.
    No(u64),
    /// No list of entries: none that ends within the limit is at this octet, though every entry before it holds.
    Bad(u64),
}

/// Octets of the longest line.
pub(crate) const LINE_MAX: usize = 25;

/// Writes a piece behind the first `at` octets, and answers how many octets there are then.
fn append(out: &mut [u8], at: usize, piece: &[u8]) -> usize
    requires { at + length piece.now ≤ length out.old }
    ensures text { take result out.new ≡ take at out.old ++ piece.now }
    ensures len { result ≡ at + length piece.now }
{
    put(out, at, piece);
    at + piece.len()
}

/// Writes a word of at most four octets and a number, and answers how many octets the line has.
fn write_line_of(out: &mut [u8; 25], word: &[u8], number: u64) -> usize
    requires { length word.now ≤ 4 }
    ensures text { take result out.new ≡ word.now ++ decimal number ++ 10 ∷ [] }
    ensures within { result ≤ 25 }
{
    let mut buffer = Buffer::new();
    let at = append(out, 0, word);
    let at = append(out, at, buffer.format(number).as_bytes());
    append(out, at, b"\n")
}

impl Verdict {
    /// Writes the line of the verdict to the front of a buffer, and answers how many octets it has.
    pub(crate) fn write(self, out: &mut [u8; 25]) -> usize
        ensures text { take result out.new ≡ line_of self }
        ensures within { result ≤ 25 }
    {
        match self {
            Verdict::Yes(count) => write_line_of(out, b"yes ", count),
            Verdict::No(offset) => write_line_of(out, b"no ", offset),
            Verdict::Bad(offset) => write_line_of(out, b"bad ", offset),
        }
    }

    /// The status with which the program ends.
    pub(crate) fn status(self) -> u8
        ensures { result ≡ status_of self }
    {
        match self {
            Verdict::Yes(_) => 0,
            Verdict::No(_) => 12,
            Verdict::Bad(_) => 6,
        }
    }
}
