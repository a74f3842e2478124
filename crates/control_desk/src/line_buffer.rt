//! The line of an operator that isn't whole yet.

ghost use Rattle.std.specs.Prelude.{◌≡◌, [], ◌∷◌, ◌++◌, ◌<◌, ◌≤◌, length, IsTrue, ◌↔◌};

use std::marker::Model;

/// Octets of the longest line, with its end.
pub const LINE_LIMIT: usize = 512;

/// The octets of a line so far. Contracts see them as a list.
#[derive(Drop)]
pub struct LineBuffer {
    octets: [u8; LINE_LIMIT],
    len: usize,
}

impl Model for LineBuffer {
    ghost use Rattle.std.specs.Prelude.{ℕ, List, ◌≤◌, take};

    ghost Value = { List ℕ };

    ghost view = { λ b. take b.len b.octets };

    ghost invariant = { λ b. b.len ≤ 512 };
}

impl LineBuffer {
    pub fn new() -> LineBuffer
        ensures { result ≡ [] }
    {
        LineBuffer {
            octets: [0; LINE_LIMIT],
            len: 0,
        }
    }

    pub fn is_full(&self) -> bool
        ensures { IsTrue result ↔ (LINE_LIMIT ≤ length self.now) }
    {
        self.len >= LINE_LIMIT
    }

    pub fn push(&mut self, octet: u8)
        requires { length self.old < LINE_LIMIT }
        ensures { self.new ≡ self.old ++ octet ∷ [] }
    {
        self.octets[self.len] = octet;
        self.len += 1;
    }

    pub fn clear(&mut self)
        ensures { self.new ≡ [] }
    {
        self.len = 0;
    }

    pub fn octets(&self) -> &[u8]
        ensures { result.now ≡ self.now }
    {
        &self.octets[..self.len]
    }
}
