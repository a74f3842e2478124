//! The numbers of the messages that a client sends, their lengths, and what a server's Accept field says (RFC 5357, section
//! 3; RFC 4656, section 3).

ghost use Rattle.std.specs.Prelude.{◌≡◌, None, IfSome};

/// The command number of a Start-Sessions.
pub const START: u8 = 2;

/// The command number of a Stop-Sessions.
pub const STOP: u8 = 3;

/// The command number of a Request-TW-Session.
pub const REQUEST: u8 = 5;

/// Octets of a Set-Up-Response, the longest message of a client.
pub const SET_UP_LEN: usize = 164;

/// Octets of a Request-TW-Session.
pub const REQUEST_LEN: usize = 112;

/// Octets of a Start-Sessions and of a Stop-Sessions.
pub const COMMAND_LEN: usize = 32;

/// What an Accept field says (RFC 4656, section 3.3).
#[derive(Clone, Copy, Debug, PartialEq, Eq)]
pub enum Accept {
    /// What was asked is done.
    Accepted,
    /// It isn't, for a reason that isn't told.
    Failure,
    /// The server has an internal error.
    InternalError,
    /// Some aspect of what was asked isn't supported.
    NotSupported,
    /// There is no room for it, and won't be.
    PermanentLimit,
    /// There is no room for it now.
    TemporaryLimit,
}

impl Accept {
    ghost use Rattle.control_msgs.specs.declared.codes.Accept.{Accept};
    ghost use Rattle.control_msgs.specs.Codes.{accept_code};

    /// Its code.
    pub fn code(self) -> u8
        ensures { result ≡ accept_code self }
    {
        match self {
            Accept::Accepted => 0,
            Accept::Failure => 1,
            Accept::InternalError => 2,
            Accept::NotSupported => 3,
            Accept::PermanentLimit => 4,
            Accept::TemporaryLimit => 5,
        }
    }

    /// The value that has a code.
    pub fn of_code(code: u8) -> Option<Accept>
        ensures some { IfSome result (λ a. accept_code a ≡ code) }
        ensures none { result ≡ None → (a : Accept) → accept_code a ≡ code → ⊥ }
    {
        Some(match code {
            0 => Accept::Accepted,
            1 => Accept::Failure,
            2 => Accept::InternalError,
            3 => Accept::NotSupported,
            4 => Accept::PermanentLimit,
            5 => Accept::TemporaryLimit,
            _ => return None,
        })
    }
}
