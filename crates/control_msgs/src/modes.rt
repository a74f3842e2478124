//! The Modes and Mode fields (RFC 5357, section 3.1; RFC 6038, section 3.1).

ghost use Rattle.std.specs.Prelude.{◌≡◌};
ghost use Rattle.control_msgs.specs.Modes.{is_open_mode, is_symmetrical, reflects_octets};

const OPEN: u32 = 1;

const REFLECT_OCTETS: u32 = 32;

const SYMMETRICAL_SIZE: u32 = 64;

/// The modes that a server offers.
pub(crate) const MODES: u32 = OPEN + REFLECT_OCTETS + SYMMETRICAL_SIZE;

/// Whether a client has chosen the open mode, with nothing else but extensions that are offered.
pub fn is_open_mode(mode: u32) -> bool
    ensures { result ≡ is_open_mode mode }
{
    mode % 2 == OPEN && mode & !MODES == 0
}

/// Whether a mode has octets of the request and of its padding given back.
pub fn reflects_octets(mode: u32) -> bool
    ensures { result ≡ reflects_octets mode }
{
    mode / REFLECT_OCTETS % 2 == 1
}

/// Whether a mode has test packets and replies of one size.
pub fn is_symmetrical(mode: u32) -> bool
    ensures { result ≡ is_symmetrical mode }
{
    mode / SYMMETRICAL_SIZE % 2 == 1
}
