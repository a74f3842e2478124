//! A Request-TW-Session: which local takes the session (RFC 5357, section 3.5).

ghost use Rattle.std.specs.Prelude.{◌≡◌, ◌≤◌, ◌++◌, [], List, length};
ghost use Rattle.std.specs.List.{list_any};
ghost use Rattle.refl_types.specs.Same.{same_address};
ghost use Rattle.twamp_control.specs.declared.types.DeskAnswer.{DeskAnswer as DeclaredAnswer};
ghost use Rattle.twamp_control.specs.declared.types.DeskAnswer.TheVariants as answers;
ghost use Rattle.session_desk.specs.Book.{IsBookOf};
ghost use Rattle.control_desk.specs.declared.counts.Counts as declared;
ghost use Rattle.control_desk.specs.declared.sides.ControlSide.{ControlSide as DeclaredSide};
ghost use Rattle.control_desk.specs.State.{Setting};
ghost use Rattle.control_desk.specs.Plan.{Plan, Follows, DeskView, reserve};
ghost use Rattle.control_desk.specs.Control.{
  NextAnswer,
  Candidate,
  is_of_family,
  any_address,
  or_else,
  receives,
  is_candidate,
  is_served,
  chosen_one,
  chosen,
  candidates,
  reserved_wait,
  extra_of,
  key_at,
  is_taken,
  tried,
  tries_next,
  try_all,
  after_tried,
  under_twamp,
  request_plan,
  with_own,
};

use crate::own::OwnSession;
use crate::shown::Shown;
use crate::sides::ControlSide;
use control_msgs::{Accept, Request, is_symmetrical, reflects_octets};
use ntp_time::timeout_nanos;
use refl_types::{Address, Config, Endpoint, Extra, Key, LocalAddr, Mode};
use session_desk::{DeskBook, ReserveFault};
use session_rule::Table;
use twamp_control::DeskAnswer;

/// How long a session waits for a datagram, in nanoseconds.
const RESERVED_WAIT: u64 = 900 * 1_000_000_000;

/// What came of candidates.
#[derive(Clone, Copy, Debug, PartialEq, Eq)]
pub enum Tried {
    /// The session was reserved, for packets to this port.
    Taken { own: OwnSession, port: u16 },
    /// No further candidate is tried.
    RefusedAll,
    /// The next one is tried.
    TriesNext,
}

fn same_address(a: &Address, b: &Address) -> bool
    ensures { result ≡ same_address a.now b.now }
{
    a == b
}

fn is_of_family(v6: bool, address: &Address) -> bool
    ensures { result ≡ is_of_family v6 address.now }
{
    match address {
        Address::V4(_) => !v6,
        Address::V6(_) => v6,
    }
}

fn any_address(v6: bool) -> Address
    ensures { result ≡ any_address v6 }
{
    if v6 {
        Address::V6([0; 16])
    } else {
        Address::V4([0; 4])
    }
}

fn or_else(maybe: &Option<Address>, other: &Address) -> Address
    ensures { result ≡ or_else maybe.now other.now }
{
    match maybe {
        Some(address) => *address,
        None => *other,
    }
}

/// Whether a local may receive what is sent to an address.
fn receives(v6: bool, to: &Address, local: &LocalAddr) -> bool
    ensures { result ≡ receives v6 to.now local.now }
{
    same_address(&local.address, to) || same_address(&local.address, &any_address(v6))
}

/// Whether a local is a candidate, with the wanted port or with another.
fn is_candidate(v6: bool, to: &Address, port: u16, wanted: bool, local: &LocalAddr) -> bool
    ensures { result ≡ is_candidate v6 to.now port wanted local.now }
{
    if !receives(v6, to, local) {
        return false;
    }
    if wanted {
        return local.port == port;
    }
    local.port != port
}

fn any_receives(locals: &[LocalAddr], v6: bool, to: &Address) -> bool
    ensures { result ≡ list_any (receives v6 to.now) locals.now }
{
    for local in locals {
        if receives(v6, to, local) {
            return true;
        }
    }
    false
}

/// Whether both addresses are of the family that is asked for, and a local may receive.
fn is_served(locals: &[LocalAddr], request: &Request, from: &Address, to: &Address) -> bool
    ensures { result ≡ is_served locals.now request.now from.now to.now }
{
    is_of_family(request.v6, from)
        && is_of_family(request.v6, to)
        && any_receives(locals, request.v6, to)
}

fn extra_of(mode: u32, request: &Request) -> Extra
    ensures { result ≡ extra_of mode request.now }
{
    let reflect = if reflects_octets(mode) {
        request.reflect
    } else {
        0
    };
    Extra {
        symmetrical: is_symmetrical(mode),
        reflect,
    }
}

/// The key of a session at a local.
fn key_at(local: u16, from: &Address, port: u16) -> Key
    ensures { result ≡ key_at (record { local = local; port = 0 }) from.now port }
{
    Key {
        local,
        peer: Endpoint {
            address: *from,
            port,
        },
        mode: Mode::Twamp,
        ssid: 0,
    }
}

/// Whether the key is taken, which leaves the next candidate.
fn is_taken(fault: &ReserveFault) -> bool
    ensures { result ≡ is_taken fault.now }
{
    match fault {
        ReserveFault::Duplicate(_) => true,
        ReserveFault::ModeClash(_) => true,
        ReserveFault::NoKey => false,
        ReserveFault::RowsFull => false,
        ReserveFault::Full { .. } => false,
    }
}

fn tries_next(tried: &Tried) -> bool
    ensures { result ≡ tries_next tried.now }
{
    match tried {
        Tried::Taken { .. } => false,
        Tried::RefusedAll => false,
        Tried::TriesNext => true,
    }
}

/// A request under its configuration, between these addresses.
#[derive(Clone, Copy, Drop)]
struct Wish<'a> {
    config: &'a Config,
    extra: &'a Extra,
    from: &'a Address,
    to: &'a Address,
    request: &'a Request,
}

/// Tries a candidate.
fn try_one<D: Shown>(
    table: &Table,
    book: &mut DeskBook,
    wish: &Wish<'_>,
    local: u16,
    port: u16,
) -> Tried
    requires book { IsBookOf table.now book.old }
    ensures book { IsBookOf table.now book.new }
    ensures done { (d : DeskView D.Setup D D.steps) (n : declared.Counts) (next : NextAnswer) (more : Plan) →
        Follows table.now (reserve (key_at (record { local = local; port = port }) wish.now.from.now wish.now.request.now.sender_port) wish.now.extra.now wish.now.config.now reserved_wait
        (tried (key_at (record { local = local; port = port }) wish.now.from.now wish.now.request.now.sender_port) port wish.now.request.now next more)) (after_tried result next more) d d book.old book.new n n }
{
    let key = key_at(local, wish.from, wish.request.sender_port);
    match book.reserve(table, &key, wish.extra, wish.config, RESERVED_WAIT) {
        Ok(place) => {
            let own = OwnSession {
                place,
                key,
                timeout: timeout_nanos(&wish.request.timeout),
            };
            Tried::Taken { own, port }
        }
        Err(fault) => {
            if is_taken(&fault) {
                return Tried::TriesNext;
            }
            Tried::RefusedAll
        }
    }
}

/// Tries a local, if it is a candidate.
fn try_local<D: Shown>(
    table: &Table,
    book: &mut DeskBook,
    wish: &Wish<'_>,
    number: u16,
    local: &LocalAddr,
    wanted: bool,
) -> Tried
    requires book { IsBookOf table.now book.old }
    ensures book { IsBookOf table.now book.new }
    ensures done { (d : DeskView D.Setup D D.steps) (n : declared.Counts) (next : NextAnswer) (rest : List Candidate) →
        Follows table.now (try_all wish.now.config.now wish.now.extra.now wish.now.from.now wish.now.request.now next (chosen_one (is_candidate wish.now.request.now.v6 wish.now.to.now wish.now.request.now.receiver_port wanted) number local.now ++ rest))
        (after_tried result next (try_all wish.now.config.now wish.now.extra.now wish.now.from.now wish.now.request.now next rest)) d d book.old book.new n n }
{
    if !is_candidate(
        wish.request.v6,
        wish.to,
        wish.request.receiver_port,
        wanted,
        local,
    ) {
        return Tried::TriesNext;
    }
    try_one::<D>(table, book, wish, number, local.port)
}

/// Tries the candidates with the wanted port, or those with another, in the order of the locals.
fn try_locals<D: Shown>(
    table: &Table,
    book: &mut DeskBook,
    wish: &Wish<'_>,
    locals: &[LocalAddr],
    wanted: bool,
) -> Tried
    requires book { IsBookOf table.now book.old }
    requires few { length locals.now ≤ 16 }
    ensures book { IsBookOf table.now book.new }
    ensures done { (d : DeskView D.Setup D D.steps) (n : declared.Counts) (next : NextAnswer) (rest : List Candidate) →
        Follows table.now (try_all wish.now.config.now wish.now.extra.now wish.now.from.now wish.now.request.now next (chosen (is_candidate wish.now.request.now.v6 wish.now.to.now wish.now.request.now.receiver_port wanted) 0 locals.now ++ rest))
        (after_tried result next (try_all wish.now.config.now wish.now.extra.now wish.now.from.now wish.now.request.now next rest)) d d book.old book.new n n }
{
    for (i, local) in locals.iter().enumerate() {
        let tried = try_local::<D>(table, book, wish, i as u16, local, wanted);
        if !tries_next(&tried) {
            return tried;
        }
    }
    Tried::TriesNext
}

/// Tries all candidates.
fn try_candidates<D: Shown>(
    table: &Table,
    book: &mut DeskBook,
    wish: &Wish<'_>,
    locals: &[LocalAddr],
) -> Tried
    requires book { IsBookOf table.now book.old }
    requires few { length locals.now ≤ 16 }
    ensures book { IsBookOf table.now book.new }
    ensures done { (d : DeskView D.Setup D D.steps) (n : declared.Counts) (next : NextAnswer) →
        Follows table.now (try_all wish.now.config.now wish.now.extra.now wish.now.from.now wish.now.request.now next (candidates locals.now wish.now.request.now.v6 wish.now.to.now wish.now.request.now.receiver_port))
        (after_tried result next (next (answers.Refused Accept.TemporaryLimit) [])) d d book.old book.new n n }
{
    let tried = try_locals::<D>(table, book, wish, locals, true);
    if !tries_next(&tried) {
        return tried;
    }
    try_locals::<D>(table, book, wish, locals, false)
}

/// Reserves a session for a request.
pub(crate) fn reserve_session<D: Shown>(
    locals: &[LocalAddr],
    twamp: &Option<Config>,
    table: &Table,
    book: &mut DeskBook,
    side: &mut ControlSide,
    request: &Request,
) -> DeskAnswer
    requires book { IsBookOf table.now book.old }
    requires few { length locals.now ≤ 16 }
    ensures book { IsBookOf table.now book.new }
    ensures machine { side.new.machine ≡ side.old.machine }
    ensures done { (f : Setting) (d : DeskView D.Setup D D.steps) (n : declared.Counts) (next : DeclaredAnswer → DeclaredSide → Plan) →
        f.locals ≡ locals.now → f.twamp ≡ twamp.now →
        Follows table.now (request_plan f side.old request.now (λ answer own. next answer (with_own side.old own))) (next result side.new) d d book.old book.new n n }
{
    if side.sessions.is_full() {
        return DeskAnswer::Refused(Accept::PermanentLimit);
    }
    let Some(config) = twamp else {
        return DeskAnswer::Refused(Accept::TemporaryLimit);
    };
    let from = or_else(&request.sender, &side.peer);
    let to = or_else(&request.receiver, &side.local);
    if !is_served(locals, request, &from, &to) {
        return DeskAnswer::Refused(Accept::NotSupported);
    }
    let extra = extra_of(side.machine.mode(), request);
    let wish = Wish {
        config,
        extra: &extra,
        from: &from,
        to: &to,
        request,
    };
    match try_candidates::<D>(table, book, &wish, locals) {
        Tried::Taken { own, port } => {
            side.sessions.push(own);
            DeskAnswer::Reserved {
                place: own.place,
                port,
            }
        }
        Tried::RefusedAll => DeskAnswer::Refused(Accept::TemporaryLimit),
        Tried::TriesNext => DeskAnswer::Refused(Accept::TemporaryLimit),
    }
}
