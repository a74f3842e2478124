//! Names of configurations.

ghost use Rattle.std.specs.Prelude.{◌≡◌, ◌≤◌, length, take, true};
ghost use Rattle.std.specs.List.{list_all};
ghost use Rattle.text_forms.specs.Names.{is_name_octet, is_name, name_from};

use std::marker::Model;

/// The longest name, in octets.
const NAME_MAX: usize = 16;

/// The name of a configuration: 1 to 16 of the letters `a` to `z`, the digits, `_` and `-`. Contracts see it as its
/// octets.
#[derive(Clone, Copy, Debug, PartialEq, Eq)]
pub struct Name {
    octets: [u8; 16],
    len: usize,
}

impl Model for Name {
    ghost use Rattle.std.specs.Prelude.{ℕ, List};

    ghost Value = { List ℕ };

    ghost use Rattle.text_forms.specs.NameArray.{name_in, IsKept, kept, kept_again};

    ghost view = { name_in };

    ghost invariant = { IsKept };

    ghost inverse = { kept };

    ghost inverse_ok = { kept_again };
}

fn is_name_octet(octet: u8) -> bool
    ensures { result ≡ is_name_octet octet }
{
    octet.is_ascii_lowercase() || octet.is_ascii_digit() || octet == b'_' || octet == b'-'
}

fn are_name_octets(text: &[u8]) -> bool
    ensures { result ≡ list_all is_name_octet text.now }
{
    text.iter().all(|octet| is_name_octet(*octet))
}

fn is_name(text: &[u8]) -> bool
    ensures { result ≡ is_name text.now }
{
    if text.is_empty() || NAME_MAX < text.len() {
        return false;
    }
    are_name_octets(text)
}

impl Name {
    /// The name with these octets. None exactly where they aren't those of a name.
    pub fn make(octets: &[u8]) -> Option<Name>
        ensures { result ≡ name_from octets.now }
    {
        if !is_name(octets) {
            return None;
        }
        let mut all = [0; NAME_MAX];
        all[..octets.len()].copy_from_slice(octets);
        Some(Name {
            octets: all,
            len: octets.len(),
        })
    }

    /// Its octets.
    pub fn octets(&self) -> &[u8]
        ensures value { result.now ≡ self.now }
        ensures name { is_name self.now ≡ true }
    {
        &self.octets[..self.len]
    }
}
