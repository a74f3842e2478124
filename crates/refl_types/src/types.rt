//! Addresses, session keys and what is told of a datagram (RFC 8762, section 4; RFC 8972, section 3).

ghost use Rattle.std.specs.Prelude.{◌≡◌};
ghost use Rattle.refl_types.specs.Keys.{is_sound};

/// The address of a host.
#[derive(Clone, Copy, Debug, PartialEq, Eq)]
pub enum Address {
    V4([u8; 4]),
    V6([u8; 16]),
}

impl Address {
    ghost use Rattle.std.specs.Prelude.{length};
    ghost use Rattle.refl_types.specs.Spelling.{address_octets, family};

    /// The number of its family: 4 or 6.
    #[inline]
    pub fn family(&self) -> u8
        ensures { result ≡ family self.now }
    {
        match self {
            Address::V4(_) => 4,
            Address::V6(_) => 6,
        }
    }

    /// Its octets, 16 for each family: those of an IPv4 address come first.
    #[inline]
    pub fn octets(&self) -> [u8; 16]
        ensures value { result ≡ address_octets self.now }
        ensures len { length (address_octets self.now) ≡ 16 }
    {
        let mut octets = [0; 16];
        match self {
            Address::V4(four) => octets[..4].copy_from_slice(four),
            Address::V6(all) => octets.copy_from_slice(all),
        }
        octets
    }
}

/// An address and a UDP or TCP port.
#[derive(Clone, Copy, Debug, PartialEq, Eq)]
pub struct Endpoint {
    pub address: Address,
    pub port: u16,
}

/// An address and a port of the reflector's own.
pub type LocalAddr = Endpoint;

/// The packets of a session.
#[derive(Clone, Copy, Debug, PartialEq, Eq)]
pub enum Mode {
    /// STAMP, unauthenticated (RFC 8762, section 4.2.1).
    Plain,
    /// STAMP, authenticated (RFC 8762, section 4.2.2).
    Auth,
    /// TWAMP-Test, unauthenticated (RFC 5357, section 4.1.2).
    Twamp,
}

/// What tells the datagrams of one session from those of all others (RFC 8972, section 3).
#[derive(Clone, Copy, Debug, PartialEq, Eq)]
pub struct Key {
    /// The number of the local address, counted from 0.
    pub local: u16,
    /// The session sender.
    pub peer: Endpoint,
    pub mode: Mode,
    /// The STAMP Session Identifier.
    pub ssid: u16,
}

/// What a session of mode Twamp has agreed on besides (RFC 6038, sections 3 and 4).
#[derive(Clone, Copy, Debug, PartialEq, Eq)]
pub struct Extra {
    /// Requests and replies have one size.
    pub symmetrical: bool,
    /// How many octets of padding are reflected.
    pub reflect: u16,
}

impl Key {
    /// Whether a session may have this key and extra: mode Twamp has SSID 0, and no other mode has an extra.
    pub fn is_sound(&self, extra: &Extra) -> bool
        ensures { result ≡ is_sound self.now extra.now }
    {
        match self.mode {
            Mode::Twamp => self.ssid == 0,
            Mode::Plain | Mode::Auth => !extra.symmetrical && extra.reflect == 0,
        }
    }
}

/// What is told of a datagram besides its octets.
#[derive(Clone, Copy, Debug, PartialEq, Eq)]
pub struct Meta {
    /// The number of the local address at which it arrived, counted from 0.
    pub local: u16,
    /// Its sender.
    pub peer: Endpoint,
    /// How many octets it has.
    pub len: usize,
    /// The TTL or Hop Limit with which it arrived, where that was told.
    pub ttl: Option<u8>,
    /// When it arrived, in nanoseconds since the start of 1970.
    pub arrival: u64,
}
