//! What is answered by one octet.

ghost use Rattle.std.specs.Prelude.{◌≡◌, None, IfSome};

/// The answer to an Open.
#[derive(Clone, Copy, Debug, PartialEq, Eq)]
pub enum OpenAnswer {
    /// The session is open.
    Opened,
    /// A session has this key.
    Duplicate,
    /// A session has these ends in another mode.
    ModeClash,
    /// There is no room for a session.
    Full,
    /// There is no room for another configuration.
    RowsFull,
    /// Mode Auth wants an HMAC key.
    NoKey,
}

impl OpenAnswer {
    ghost use Rattle.replay_format.specs.declared.code.OpenAnswer.{OpenAnswer};
    ghost use Rattle.replay_format.specs.Codes.{open_code};

    /// Its code.
    pub fn code(self) -> u8
        ensures { result ≡ open_code self }
    {
        match self {
            OpenAnswer::Opened => 0,
            OpenAnswer::Duplicate => 1,
            OpenAnswer::ModeClash => 2,
            OpenAnswer::Full => 3,
            OpenAnswer::RowsFull => 4,
            OpenAnswer::NoKey => 5,
        }
    }

    /// The answer that has a code.
    pub fn of_code(code: u8) -> Option<OpenAnswer>
        ensures some { IfSome result (λ a. open_code a ≡ code) }
        ensures none { result ≡ None → (a : OpenAnswer) → open_code a ≡ code → ⊥ }
    {
        Some(match code {
            0 => OpenAnswer::Opened,
            1 => OpenAnswer::Duplicate,
            2 => OpenAnswer::ModeClash,
            3 => OpenAnswer::Full,
            4 => OpenAnswer::RowsFull,
            5 => OpenAnswer::NoKey,
            _ => return None,
        })
    }
}

/// The answer to a Set.
#[derive(Clone, Copy, Debug, PartialEq, Eq)]
pub enum SetAnswer {
    /// The session has the configuration.
    Set,
    /// There is no room for another configuration.
    RowsFull,
    /// Mode Auth wants an HMAC key.
    NoKey,
    /// No session has this key.
    NoSuch,
}

impl SetAnswer {
    ghost use Rattle.replay_format.specs.declared.code.SetAnswer.{SetAnswer};
    ghost use Rattle.replay_format.specs.Codes.{set_code};

    /// Its code.
    pub fn code(self) -> u8
        ensures { result ≡ set_code self }
    {
        match self {
            SetAnswer::Set => 0,
            SetAnswer::RowsFull => 4,
            SetAnswer::NoKey => 5,
            SetAnswer::NoSuch => 6,
        }
    }

    /// The answer that has a code.
    pub fn of_code(code: u8) -> Option<SetAnswer>
        ensures some { IfSome result (λ a. set_code a ≡ code) }
        ensures none { result ≡ None → (a : SetAnswer) → set_code a ≡ code → ⊥ }
    {
        Some(match code {
            0 => SetAnswer::Set,
            4 => SetAnswer::RowsFull,
            5 => SetAnswer::NoKey,
            6 => SetAnswer::NoSuch,
            _ => return None,
        })
    }
}

/// Why a datagram is not reflected.
#[derive(Clone, Copy, Debug, PartialEq, Eq)]
pub enum UnsentCause {
    /// No session matches it.
    NoSession,
    /// It is shorter than the base packet of its session's mode.
    Short,
    /// The HMAC of its base packet is another.
    BadHmac,
    /// Its sender asked for no reply (RFC 9503, section 4.1.1).
    NoReply,
}

impl UnsentCause {
    ghost use Rattle.replay_format.specs.declared.code.UnsentCause.{UnsentCause};
    ghost use Rattle.replay_format.specs.Codes.{unsent_code};

    /// Its code.
    pub fn code(self) -> u8
        ensures { result ≡ unsent_code self }
    {
        match self {
            UnsentCause::NoSession => 1,
            UnsentCause::Short => 2,
            UnsentCause::BadHmac => 3,
            UnsentCause::NoReply => 7,
        }
    }

    /// The cause that has a code.
    pub fn of_code(code: u8) -> Option<UnsentCause>
        ensures some { IfSome result (λ c. unsent_code c ≡ code) }
        ensures none { result ≡ None → (c : UnsentCause) → unsent_code c ≡ code → ⊥ }
    {
        Some(match code {
            1 => UnsentCause::NoSession,
            2 => UnsentCause::Short,
            3 => UnsentCause::BadHmac,
            7 => UnsentCause::NoReply,
            _ => return None,
        })
    }
}
