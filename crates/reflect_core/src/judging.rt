//! Whether a datagram of a session is reflected (RFC 8762, section 4.3; RFC 9503, section 4.1.1).

ghost use Rattle.std.specs.Prelude.{◌≡◌, ◌≤◌, false, IsSome, length};
ghost use Rattle.refl_types.specs.HmacKey.{HasHmacKey};
ghost use Rattle.refl_types.specs.declared.types.Mode.TheVariants.{Auth};
ghost use Rattle.reflect_core.specs.Judgement.{IsUsual, judgement, judged_length, judged_auth, judged_base, judged_tail};

use crate::session::Session;
use crate::tails::has_intact_tail;
use keyed_config::KeyedConfig;
use refl_types::{Config, Extra, Key, Mode, Silent};
use stamp_auth::{AUTH_LEN, AuthFault, read_auth_keyed};
use stamp_packet::PLAIN_LEN;
use tlv_actions::no_reply;
use twamp_test::TEST_LEN;

/// An extra that doesn't matter where a datagram is judged.
const NO_EXTRA: Extra = Extra {
    symmetrical: false,
    reflect: 0,
};

/// What is done with a datagram.
#[derive(Clone, Copy, Debug, PartialEq, Eq)]
pub enum Judged {
    /// It is reflected.
    Reflect,
    /// Nothing is sent.
    Silent(Silent),
}

#[inline(always)]
fn judge_length(octets: &[u8], least: usize) -> Judged
    ensures { result ≡ judged_length least octets.now }
{
    if octets.len() < least {
        Judged::Silent(Silent::Short)
    } else {
        Judged::Reflect
    }
}

#[inline(never)]
fn judge_auth(config: &KeyedConfig, octets: &[u8]) -> Judged
    requires { IsSome config.now.key }
    ensures { result ≡ judged_auth config.now octets.now }
{
    let Some(key) = config.hmac_key() else {
        unreachable!();
    };
    match read_auth_keyed(key, octets) {
        Ok(_) => Judged::Reflect,
        Err(AuthFault::Short) => Judged::Silent(Silent::Short),
        Err(AuthFault::BadHmac) => Judged::Silent(Silent::BadHmac),
    }
}

/// Whether the tail behind a base packet of as many octets asks for no reply. Its integrity is looked at last.
fn judge_tail(mode: Mode, config: &KeyedConfig, octets: &[u8], at: usize) -> Judged
    requires base { 4 ≤ at }
    requires tail { at ≤ length octets.now }
    ensures { result ≡ judged_tail at mode config.now octets.now }
{
    let (_, tail) = octets.split_at(at);
    if no_reply(config.config(), tail) && has_intact_tail(mode, config, octets, at) {
        Judged::Silent(Silent::NoReply)
    } else {
        Judged::Reflect
    }
}

/// Whether the base packet of a datagram is one: not where it is shorter than that of the session's mode, and in mode Auth not
/// where its HMAC is another.
#[inline(always)]
fn judge_base(mode: Mode, config: &KeyedConfig, octets: &[u8]) -> Judged
    requires keyed { mode ≡ Auth → IsSome config.now.key }
    ensures { result ≡ judged_base mode config.now octets.now }
{
    match mode {
        Mode::Plain => judge_length(octets, PLAIN_LEN),
        Mode::Twamp => judge_length(octets, TEST_LEN),
        Mode::Auth => judge_auth(config, octets),
    }
}

/// Whether a datagram is reflected, where its tail may ask for no reply or its base packet has an HMAC. It stands out of line.
#[cold]
#[inline(never)]
fn judge_whole(mode: Mode, config: &KeyedConfig, octets: &[u8]) -> Judged
    requires keyed { mode ≡ Auth → IsSome config.now.key }
    ensures { result ≡ judgement mode config.now octets.now }
{
    let base = judge_base(mode, config, octets);
    if base != Judged::Reflect {
        return base;
    }
    match mode {
        Mode::Plain => judge_tail(Mode::Plain, config, octets, PLAIN_LEN),
        Mode::Twamp => Judged::Reflect,
        Mode::Auth => judge_tail(Mode::Auth, config, octets, AUTH_LEN),
    }
}

impl Session<'_> {
    /// Judges a datagram as `judge` does, where `is_usual` is true.
    #[inline(always)]
    fn judge_usual(&self, octets: &[u8]) -> Judged
        requires { IsUsual self.now.mode self.now.config.now }
        ensures { result ≡ judgement self.now.mode self.now.config.now octets.now }
    {
        match self.mode {
            Mode::Twamp => judge_length(octets, TEST_LEN),
            _ => judge_length(octets, PLAIN_LEN),
        }
    }

    /// Whether a datagram of the session is reflected: not where it is shorter than the base packet of the session's
    /// mode, in mode Auth not where the HMAC of its base packet is another, and not where its tail asks for no reply.
    #[inline(always)]
    pub fn judge(&self, octets: &[u8]) -> Judged
        ensures { result ≡ judgement self.now.mode self.now.config.now octets.now }
    {
        if self.is_usual() {
            return self.judge_usual(octets);
        }
        judge_whole(self.mode, self.config, octets)
    }
}

/// Judges a datagram as `Session::judge` does, where the configuration's HMAC key is hashed in this call.
pub fn judge(key: &Key, config: &Config, octets: &[u8]) -> Judged
    requires { HasHmacKey key.now.mode config.now }
    ensures { result ≡ judgement key.now.mode config.now octets.now }
{
    let config = KeyedConfig::of(config);
    let session = Session {
        mode: key.mode,
        extra: NO_EXTRA,
        config: &config,
    };
    session.judge(octets)
}
