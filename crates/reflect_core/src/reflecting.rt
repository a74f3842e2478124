//! The reflection of a datagram (RFC 8762, section 4.3; RFC 9503, sections 3 and 4; RFC 5357, section 4.2).

ghost use Rattle.std.specs.Prelude.{◌≡◌, ◌≤◌, true, false, None, IsSome, length};
ghost use Rattle.refl_types.specs.HmacKey.{HasHmacKey};
ghost use Rattle.refl_types.specs.Limits.{datagram_limit};
ghost use Rattle.refl_types.specs.declared.types.Mode.TheVariants.{Plain, Auth, Twamp};
ghost use Rattle.reflect_core.specs.declared.judging.Judged.TheVariants.{Reflect};
ghost use Rattle.reflect_core.specs.Judgement.{IsUsual, judgement};
ghost use Rattle.reflect_core.specs.Arrived.{arrived};
ghost use Rattle.reflect_core.specs.Ends.{has_intact_tail, may_redirect, plan_after};
ghost use Rattle.reflect_core.specs.Reflection.{WritesPlain, WritesAuth, WritesTest, reflection, IsReply};

use crate::base::reply_base;
use crate::ends::{Ends, ends_of};
use crate::session::{Datagram, Draw, Session};
use crate::tails::write_tail_after;
use keyed_config::KeyedConfig;
use refl_types::{Address, Config, Endpoint, Extra, Key, LocalAddr, Meta, Mode};
use stamp_auth::{AUTH_LEN, auth_sender, write_auth_keyed};
use stamp_packet::{PLAIN_LEN, read_plain, write_plain_to};
use tlv_actions::{Plan, may_redirect, plan};
use twamp_test::{read_test, write_test_to};

/// How many octets of the buffer a reply has, and where it is sent if not back.
#[derive(Clone, Copy, Debug, PartialEq, Eq)]
pub struct Reply {
    /// From where and to whom it is sent; nothing where it goes from where the datagram arrived to its sender.
    pub elsewhere: Option<Ends>,
    /// Its length.
    pub len: usize,
}

/// What stands where an end doesn't matter.
const NO_END: Endpoint = Endpoint {
    address: Address::V4([0; 4]),
    port: 0,
};

/// What the TLVs of a reply tell of a plan, where none of them is of RFC 9503. The ends aren't told by TLVs.
const NO_PLACES: Plan = Plan {
    from: 0,
    to: NO_END,
    nine: None,
    own_at: None,
    path_at: None,
};

/// What the tail behind a base packet of as many octets asks for.
fn plan_after(at: usize, config: &KeyedConfig, datagram: &Datagram) -> Plan
    requires tail { at ≤ length datagram.now.octets.now }
    requires locals { length datagram.now.locals.now ≤ 16 }
    ensures { result ≡ plan_after at config.now (arrived datagram.now) }
{
    let (_, tail) = datagram.octets.split_at(at);
    plan(config.config(), datagram.locals, datagram.meta, tail)
}

/// Writes the reply of an unauthenticated STAMP session, and says whether the integrity of the tail hasn't failed.
#[inline(always)]
fn reflect_plain(
    config: &KeyedConfig,
    plan: &Plan,
    draw: &Draw,
    datagram: &Datagram,
    out: &mut [u8],
) -> bool
    requires judged { 44 ≤ length datagram.now.octets.now }
    requires room { length datagram.now.octets.now ≤ length out.old }
    ensures intact { result ≡ has_intact_tail 44 Plain config.now datagram.now.octets.now }
    ensures octets { WritesPlain config.now plan.now draw.now (arrived datagram.now) out.old out.new }
{
    let input = datagram.octets;
    let sender = read_plain(input).unwrap();
    let base = reply_base(config.as_parts(), draw, datagram.meta, &sender);
    write_plain_to(&base, input, out);
    write_tail_after(
        Mode::Plain,
        config,
        draw.number,
        plan,
        base.sequence,
        PLAIN_LEN,
        input,
        out,
    )
}

/// Writes the reply of an authenticated STAMP session, and says whether the integrity of the tail hasn't failed.
fn reflect_auth(
    config: &KeyedConfig,
    plan: &Plan,
    draw: &Draw,
    datagram: &Datagram,
    out: &mut [u8],
) -> bool
    requires key { IsSome config.now.key }
    requires judged { 112 ≤ length datagram.now.octets.now }
    requires room { length datagram.now.octets.now ≤ length out.old }
    ensures intact { result ≡ has_intact_tail 112 Auth config.now datagram.now.octets.now }
    ensures octets { WritesAuth config.now plan.now draw.now (arrived datagram.now) out.old out.new }
{
    let Some(key) = config.hmac_key() else {
        unreachable!();
    };
    let input = datagram.octets;
    let sender = auth_sender(input);
    let base = reply_base(config.as_parts(), draw, datagram.meta, &sender);
    write_auth_keyed(key, &base, out);
    write_tail_after(
        Mode::Auth,
        config,
        draw.number,
        plan,
        base.sequence,
        AUTH_LEN,
        input,
        out,
    )
}

/// Writes the reply of a TWAMP-Test session, and says how many octets it has.
#[inline(always)]
fn reflect_test(
    extra: &Extra,
    config: &KeyedConfig,
    draw: &Draw,
    datagram: &Datagram,
    out: &mut [u8],
) -> usize
    requires judged { 14 ≤ length datagram.now.octets.now }
    requires limit { length datagram.now.octets.now ≤ datagram_limit }
    requires room { 65536 ≤ length out.old }
    ensures limit { result ≤ datagram_limit }
    ensures octets { WritesTest extra.now config.now draw.now (arrived datagram.now) result out.old out.new }
{
    let sender = read_test(datagram.octets).unwrap();
    let base = reply_base(config.as_parts(), draw, datagram.meta, &sender);
    write_test_to(extra, &base, datagram.octets, out)
}

/// Writes the reply as `Session::reflect` does, in the other modes than Twamp. It stands out of line and takes copies of what it
/// needs, so that what the usual datagrams need can stay in registers.
#[cold]
#[inline(never)]
fn reflect_apart(
    mode: Mode,
    extra: Extra,
    config: &KeyedConfig,
    meta: Meta,
    octets: &[u8],
    locals: &[LocalAddr],
    draw: Draw,
    out: &mut [u8],
) -> Reply
    requires other { mode ≡ Twamp → ⊥ }
    requires keyed { mode ≡ Auth → IsSome config.now.key }
    requires judged { judgement mode config.now octets.now ≡ Reflect }
    requires limit { length octets.now ≤ datagram_limit }
    requires locals { length locals.now ≤ 16 }
    requires room { 65536 ≤ length out.old }
    ensures reply { IsReply (reflection mode extra config.now draw (record { meta = meta; octets = octets.now; locals = locals.now })) meta result out.old out.new }
    ensures limit { result.len ≤ datagram_limit }
    ensures size { (mode ≡ Twamp → ⊥) → result.len ≡ length octets.now }
{
    let datagram = Datagram {
        meta: &meta,
        octets,
        locals,
    };
    match mode {
        Mode::Plain => {
            let plan = plan_after(PLAIN_LEN, config, &datagram);
            let intact = reflect_plain(config, &plan, &draw, &datagram, out);
            Reply {
                elsewhere: Some(ends_of(intact, &plan, &meta)),
                len: octets.len(),
            }
        }
        Mode::Twamp => unreachable!(),
        Mode::Auth => {
            let plan = plan_after(AUTH_LEN, config, &datagram);
            let intact = reflect_auth(config, &plan, &draw, &datagram, out);
            Reply {
                elsewhere: Some(ends_of(intact, &plan, &meta)),
                len: octets.len(),
            }
        }
    }
}

impl Session<'_> {
    /// Whether a tail of the session may say from where and to whom its reply is sent.
    #[inline(always)]
    pub(crate) fn may_redirect(&self) -> bool
        ensures { result ≡ may_redirect self.now.config.now }
    {
        may_redirect(self.config.config())
    }

    /// Whether it is of mode Twamp, or of mode Plain where no tail may say from where and to whom its reply is sent.
    #[inline(always)]
    pub fn is_usual(&self) -> bool
        ensures yes { result ≡ true → IsUsual self.now.mode self.now.config.now }
        ensures no { result ≡ false → ¬ IsUsual self.now.mode self.now.config.now }
    {
        match self.mode {
            Mode::Twamp => true,
            Mode::Plain => !self.may_redirect(),
            Mode::Auth => false,
        }
    }

    /// Writes the reply as `reflect` does, where `is_usual` is true: it goes from where the datagram arrived to its sender.
    #[inline(always)]
    pub fn reflect_usual(&self, datagram: &Datagram, draw: &Draw, out: &mut [u8]) -> Reply
        requires usual { IsUsual self.now.mode self.now.config.now }
        requires judged { judgement self.now.mode self.now.config.now datagram.now.octets.now ≡ Reflect }
        requires limit { length datagram.now.octets.now ≤ datagram_limit }
        requires room { 65536 ≤ length out.old }
        ensures reply { IsReply (reflection self.now.mode self.now.extra self.now.config.now draw.now (arrived datagram.now)) datagram.now.meta.now result out.old out.new }
        ensures limit { result.len ≤ datagram_limit }
        ensures size { (self.now.mode ≡ Twamp → ⊥) → result.len ≡ length datagram.now.octets.now }
        ensures back { result.elsewhere ≡ None }
    {
        match self.mode {
            Mode::Twamp => {
                let len = reflect_test(&self.extra, self.config, draw, datagram, out);
                Reply {
                    elsewhere: None,
                    len,
                }
            }
            _ => {
                let _intact = reflect_plain(self.config, &NO_PLACES, draw, datagram, out);
                Reply {
                    elsewhere: None,
                    len: datagram.octets.len(),
                }
            }
        }
    }

    /// Writes the reply to a datagram that is to be reflected. Octets of the buffer past the reply stay.
    #[inline(always)]
    pub fn reflect(&self, datagram: &Datagram, draw: &Draw, out: &mut [u8]) -> Reply
        requires judged { judgement self.now.mode self.now.config.now datagram.now.octets.now ≡ Reflect }
        requires limit { length datagram.now.octets.now ≤ datagram_limit }
        requires locals { length datagram.now.locals.now ≤ 16 }
        requires room { 65536 ≤ length out.old }
        ensures reply { IsReply (reflection self.now.mode self.now.extra self.now.config.now draw.now (arrived datagram.now)) datagram.now.meta.now result out.old out.new }
        ensures limit { result.len ≤ datagram_limit }
        ensures size { (self.now.mode ≡ Twamp → ⊥) → result.len ≡ length datagram.now.octets.now }
    {
        if self.is_usual() {
            return self.reflect_usual(datagram, draw, out);
        }
        let Datagram {
            meta,
            octets,
            locals,
        } = *datagram;
        reflect_apart(
            self.mode,
            self.extra,
            self.config,
            *meta,
            octets,
            locals,
            *draw,
            out,
        )
    }
}

/// Writes the reply to a datagram as `Session::reflect` does, where the configuration's HMAC key is hashed in this call,
/// `locals` are the reflector's own addresses, `n` is the number that was drawn and `t3` the moment of sending (`Draw`).
pub fn reflect(
    key: &Key,
    extra: &Extra,
    config: &Config,
    locals: &[LocalAddr],
    n: u32,
    meta: &Meta,
    t3: u64,
    input: &[u8],
    out: &mut [u8],
) -> Reply
    requires key { HasHmacKey key.now.mode config.now }
    requires judged { judgement key.now.mode config.now input.now ≡ Reflect }
    requires limit { length input.now ≤ datagram_limit }
    requires locals { length locals.now ≤ 16 }
    requires room { 65536 ≤ length out.old }
    ensures reply { IsReply (reflection key.now.mode extra.now config.now (record { number = n; sending = t3 }) (record { meta = meta.now; octets = input.now; locals = locals.now })) meta.now result out.old out.new }
    ensures limit { result.len ≤ datagram_limit }
    ensures size { (key.now.mode ≡ Twamp → ⊥) → result.len ≡ length input.now }
{
    let config = KeyedConfig::of(config);
    let session = Session {
        mode: key.mode,
        extra: *extra,
        config: &config,
    };
    let datagram = Datagram {
        meta,
        octets: input,
        locals,
    };
    let draw = Draw {
        number: n,
        sending: t3,
    };
    session.reflect(&datagram, &draw, out)
}
