//! Whether a datagram of a session that was found is reflected.

ghost use Rattle.refl_types.specs.declared.types.Mode.TheVariants.{Auth};
ghost use Rattle.std.specs.Prelude.{◌≡◌, ◌≢◌, Err};
ghost use Rattle.session_turn.specs.Turn.{IsJudged, IsTold, outcome_of};

use keyed_config::KeyedConfig;
use refl_types::{Extra, Mode, Silent, Unanswered};
use reflect_core::{Judged, Session};

/// An extra that doesn't matter where a datagram is judged.
const NO_EXTRA: Extra = Extra {
    symmetrical: false,
    reflect: 0,
};

/// What is made of a datagram of a session.
#[derive(Clone, Copy, Debug, PartialEq, Eq)]
pub(crate) enum Verdict {
    /// It is reflected.
    Reflect,
    /// The session is of mode Auth and has no HMAC key.
    NoKey,
    Short,
    BadHmac,
    NoReply,
}

/// The verdict of a judgement.
#[inline(always)]
fn verdict_of(judged: Judged) -> Verdict
    ensures { IsTold judged (outcome_of result) }
{
    match judged {
        Judged::Reflect => Verdict::Reflect,
        Judged::Silent(Silent::Short) => Verdict::Short,
        Judged::Silent(Silent::BadHmac) => Verdict::BadHmac,
        Judged::Silent(Silent::NoReply) => Verdict::NoReply,
    }
}

/// Why a datagram stays unanswered that isn't reflected. Where the HMAC key is missing, it is as if there were no session.
#[cold]
#[inline(never)]
pub(crate) fn cause_of(verdict: Verdict) -> Unanswered
    requires { verdict ≢ Verdict.Reflect }
    ensures { outcome_of verdict ≡ Err result }
{
    match verdict {
        Verdict::Reflect => unreachable!(),
        Verdict::NoKey => Unanswered::NoSession,
        Verdict::Short => Unanswered::Short,
        Verdict::BadHmac => Unanswered::BadHmac,
        Verdict::NoReply => Unanswered::NoReply,
    }
}

/// Judges as `judge` does, in mode Auth. It stands out of line.
#[cold]
#[inline(never)]
fn judge_auth(config: &KeyedConfig, octets: &[u8]) -> Verdict
    ensures { IsJudged Auth config.now octets.now (outcome_of result) }
{
    if config.hmac_key().is_none() {
        return Verdict::NoKey;
    }
    let session = Session {
        mode: Mode::Auth,
        extra: NO_EXTRA,
        config,
    };
    verdict_of(session.judge(octets))
}

/// Whether a datagram of a session is reflected under a configuration, and why it isn't.
#[inline(always)]
pub(crate) fn judge(mode: Mode, config: &KeyedConfig, octets: &[u8]) -> Verdict
    ensures { IsJudged mode config.now octets.now (outcome_of result) }
{
    match mode {
        Mode::Auth => judge_auth(config, octets),
        Mode::Plain | Mode::Twamp => {
            let session = Session {
                mode,
                extra: NO_EXTRA,
                config,
            };
            verdict_of(session.judge(octets))
        }
    }
}
