//! What the desk does for the lines of an operator.

ghost use Rattle.std.specs.Prelude.{◌≡◌, true, if◌then◌else◌};
ghost use Rattle.refl_types.specs.Keys.{is_sound};
ghost use Rattle.session_rule.specs.declared.seats.Table.{Table};
ghost use Rattle.session_desk.specs.Book.{Book, IsBookOf};
ghost use Rattle.control_desk.specs.Operator.{HasSoundKey};
ghost use Rattle.operator_lines.specs.Lines.{no_extra};
ghost use Rattle.operator_lines.specs.Reading.{line_from};
ghost use Rattle.control_desk.specs.State.{Setting, DeskState, settled, at_names, without, config_in};
ghost use Rattle.control_desk.specs.Hands.{AreSame, Works};
ghost use Rattle.control_desk.specs.Plan.{Plan, Follows, close, count, reserve, live_at, live_len};
ghost use Rattle.control_desk.specs.Operator.{
  Next,
  config_from,
  number_plan,
  name_config,
  reserve_refusal,
  set_refusal,
  reserved_plan,
  open_plan,
  set_under,
  list_key,
  list_from,
  quit_plan,
  line_plan,
  read_plan,
};
ghost use Rattle.control_desk.specs.declared.counts.Verdict.TheVariants.{Over, Quits};

use crate::answering::{answer, send_line};
use crate::counts::{Counts, Verdict};
use crate::hands::{Hands, Heard};
use crate::names::Names;
use crate::setting::Setting;
use crate::shown::Shown;
use operator_lines::{Answer, Line, Refusal, read_line};
use refl_types::{Config, Extra, Key};
use session_desk::{ReserveFault, SetFault};
use session_octets::config_at;
use session_rule::Table;
use text_forms::Name;

/// The line `close`.
fn close_line<D: Shown>(hands: &mut Hands<D>, conn: u32, key: &Key) -> Verdict
    requires book { IsBookOf hands.old.table.now hands.old.book.now }
    ensures same { AreSame hands.old hands.new }
    ensures book { IsBookOf hands.new.table.now hands.new.book.now }
    ensures done { (s : DeskState) (next : Next) →
        Works D.seen (close key.now (number_plan conn s next)) (next result (settled result conn s)) hands.old hands.new }
{
    match hands.book.close(hands.table, key) {
        Ok(number) => {
            hands.counts.add_closed();
            answer(hands.desk, hands.counts, conn, &Answer::Number(number))
        }
        Err(_) => answer(
            hands.desk,
            hands.counts,
            conn,
            &Answer::Refused(Refusal::NoSuch),
        ),
    }
}

/// The line `count`.
fn count_line<D: Shown>(hands: &mut Hands<D>, conn: u32, key: &Key) -> Verdict
    requires book { IsBookOf hands.old.table.now hands.old.book.now }
    ensures same { AreSame hands.old hands.new }
    ensures book { IsBookOf hands.new.table.now hands.new.book.now }
    ensures done { (s : DeskState) (next : Next) →
        Works D.seen (count key.now (number_plan conn s next)) (next result (settled result conn s)) hands.old hands.new }
{
    match hands.book.count(hands.table, key) {
        Ok(number) => answer(hands.desk, hands.counts, conn, &Answer::Number(number)),
        Err(_) => answer(
            hands.desk,
            hands.counts,
            conn,
            &Answer::Refused(Refusal::NoSuch),
        ),
    }
}

/// The configuration that the octets of a line are.
#[tactic(auto, unfolding(crate::specs::Operator::config_from))]
fn read_config(octets: &[u8; 76]) -> Option<Config>
    ensures { result ≡ config_from octets.now }
{
    match config_at(octets) {
        Ok((parts, _)) => match Config::make(parts) {
            Ok(config) => Some(config),
            Err(_) => unreachable!(),
        },
        Err(_) => None,
    }
}

/// The line `config`.
fn config_line<D: Shown>(
    names: &mut Names,
    desk: &mut D,
    counts: &mut Counts,
    conn: u32,
    name: &Name,
    octets: &[u8; 76],
) -> Verdict
    ensures { (s : DeskState) (next : Next) (t : Table) (b : Book) →
        Follows t (name_config conn (at_names s names.old) name.now (config_from octets.now) next) (next result (settled result conn (at_names s names.new))) (D.seen desk.old) (D.seen desk.new) b b counts.old counts.new }
{
    let Some(config) = read_config(octets) else {
        return answer(desk, counts, conn, &Answer::Refused(Refusal::Config));
    };
    if names.find(name).is_some() {
        return answer(desk, counts, conn, &Answer::Refused(Refusal::Exists));
    }
    if names.is_full() {
        return answer(desk, counts, conn, &Answer::Refused(Refusal::NamesFull));
    }
    names.add(name, &config);
    answer(desk, counts, conn, &Answer::Done)
}

/// The refusal of a reservation.
fn reserve_refusal(fault: &ReserveFault) -> Refusal
    ensures { result ≡ reserve_refusal fault.now }
{
    match *fault {
        ReserveFault::Duplicate(_) => Refusal::Duplicate,
        ReserveFault::ModeClash(_) => Refusal::ModeClash,
        ReserveFault::NoKey => Refusal::NoKey,
        ReserveFault::RowsFull => Refusal::RowsFull,
        ReserveFault::Full {
            live,
            reserved,
            retired,
            held,
        } => Refusal::Full {
            live,
            reserved,
            retired,
            held,
        },
    }
}

/// Reserves and starts a session.
fn open_under<D: Shown>(
    hands: &mut Hands<D>,
    heard: Heard,
    key: &Key,
    wait: u64,
    config: &Config,
) -> Verdict
    requires book { IsBookOf hands.old.table.now hands.old.book.now }
    requires sound { is_sound key.now no_extra ≡ true }
    ensures same { AreSame hands.old hands.new }
    ensures book { IsBookOf hands.new.table.now hands.new.book.now }
    ensures done { (s : DeskState) (next : Next) →
        Works D.seen (reserve key.now no_extra config.now wait (reserved_plan heard.conn heard.now s next)) (next result (settled result heard.conn s)) hands.old hands.new }
{
    let extra = Extra {
        symmetrical: false,
        reflect: 0,
    };
    match hands.book.reserve(hands.table, key, &extra, config, wait) {
        Ok(place) => {
            let _answer = hands.book.start(hands.table, &place, heard.now);
            answer(hands.desk, hands.counts, heard.conn, &Answer::Done)
        }
        Err(fault) => {
            let refusal = reserve_refusal(&fault);
            answer(
                hands.desk,
                hands.counts,
                heard.conn,
                &Answer::Refused(refusal),
            )
        }
    }
}

/// What the line `open` says.
#[derive(Clone, Copy, Drop)]
struct Opening<'a> {
    key: &'a Key,
    name: &'a Name,
    wait: u64,
}

/// The line `open`.
fn open_line<D: Shown>(
    setting: &Setting,
    names: &Names,
    hands: &mut Hands<D>,
    heard: Heard,
    opening: &Opening<'_>,
) -> Verdict
    requires book { IsBookOf hands.old.table.now hands.old.book.now }
    requires sound { is_sound opening.now.key.now no_extra ≡ true }
    ensures same { AreSame hands.old hands.new }
    ensures book { IsBookOf hands.new.table.now hands.new.book.now }
    ensures done { (s : DeskState) (next : Next) →
        Works D.seen (open_plan setting.now heard.conn heard.now (at_names s names.now) opening.now.key.now opening.now.name.now opening.now.wait next) (next result (settled result heard.conn (at_names s names.now))) hands.old hands.new }
{
    if opening.key.local as usize >= setting.locals().len() {
        return answer(
            hands.desk,
            hands.counts,
            heard.conn,
            &Answer::Refused(Refusal::Local),
        );
    }
    match names.find(opening.name) {
        None => answer(
            hands.desk,
            hands.counts,
            heard.conn,
            &Answer::Refused(Refusal::NoConfig),
        ),
        Some(config) => open_under(hands, heard, opening.key, opening.wait, &config),
    }
}

/// The refusal of another configuration.
fn set_refusal(fault: SetFault) -> Refusal
    ensures { result ≡ set_refusal fault }
{
    match fault {
        SetFault::NoSuch => Refusal::NoSuch,
        SetFault::NoKey => Refusal::NoKey,
        SetFault::RowsFull => Refusal::RowsFull,
    }
}

/// The line `set`.
fn set_line<D: Shown>(
    names: &Names,
    hands: &mut Hands<D>,
    conn: u32,
    key: &Key,
    name: &Name,
) -> Verdict
    requires book { IsBookOf hands.old.table.now hands.old.book.now }
    ensures same { AreSame hands.old hands.new }
    ensures book { IsBookOf hands.new.table.now hands.new.book.now }
    ensures done { (s : DeskState) (next : Next) →
        Works D.seen (set_under conn (at_names s names.now) key.now next (config_in names.now name.now)) (next result (settled result conn (at_names s names.now))) hands.old hands.new }
{
    let Some(config) = names.find(name) else {
        return answer(
            hands.desk,
            hands.counts,
            conn,
            &Answer::Refused(Refusal::NoConfig),
        );
    };
    match hands.book.set(hands.table, key, &config) {
        Ok(()) => answer(hands.desk, hands.counts, conn, &Answer::Done),
        Err(fault) => {
            let refusal = set_refusal(fault);
            answer(hands.desk, hands.counts, conn, &Answer::Refused(refusal))
        }
    }
}

/// The line of the session at an index, where there is one. Whether the connection goes on.
fn list_one<D: Shown>(hands: &mut Hands<D>, conn: u32, index: u32) -> bool
    requires book { IsBookOf hands.old.table.now hands.old.book.now }
    ensures same { AreSame hands.old hands.new }
    ensures book { IsBookOf hands.new.table.now hands.new.book.now }
    ensures done { (s : DeskState) (next : Next) (more : Plan) →
        Works D.seen (live_at index (list_key conn s next more)) (if result then more else next Over (without s conn)) hands.old hands.new }
{
    let Some(key) = hands.book.live_at(index) else {
        return true;
    };
    let Ok(number) = hands.book.count(hands.table, &key) else {
        return true;
    };
    if send_line(
        hands.desk,
        hands.counts,
        conn,
        &Answer::Listed { key, number },
    ) {
        return true;
    }
    hands.desk.drop_line(conn);
    false
}

/// The line `list`.
fn list_line<D: Shown>(hands: &mut Hands<D>, conn: u32) -> Verdict
    requires book { IsBookOf hands.old.table.now hands.old.book.now }
    ensures same { AreSame hands.old hands.new }
    ensures book { IsBookOf hands.new.table.now hands.new.book.now }
    ensures done { (s : DeskState) (next : Next) →
        Works D.seen (live_len (λ all. list_from conn s next all 0 all)) (next result (settled result conn s)) hands.old hands.new }
{
    let all = hands.book.live_len();
    let mut index = 0;
    while index < all {
        if !list_one(hands, conn, index) {
            return Verdict::Over;
        }
        index += 1;
    }
    answer(hands.desk, hands.counts, conn, &Answer::Number(all))
}

/// The line `quit`.
fn quit_line<D: Shown>(desk: &mut D, counts: &mut Counts, conn: u32) -> Verdict
    ensures quits { result ≡ Verdict.Quits }
    ensures done { (s : DeskState) (next : Next) (t : Table) (b : Book) →
        Follows t (quit_plan conn s next) (next Quits s) (D.seen desk.old) (D.seen desk.new) b b counts.old counts.new }
{
    if !send_line(desk, counts, conn, &Answer::Bye) {
        desk.drop_line(conn);
    }
    Verdict::Quits
}

/// Does what a line says.
fn do_line<D: Shown>(
    setting: &Setting,
    names: &mut Names,
    hands: &mut Hands<D>,
    heard: Heard,
    line: &Line,
) -> Verdict
    requires book { IsBookOf hands.old.table.now hands.old.book.now }
    requires sound { HasSoundKey line.now }
    ensures same { AreSame hands.old hands.new }
    ensures book { IsBookOf hands.new.table.now hands.new.book.now }
    ensures done { (s : DeskState) (next : Next) →
        Works D.seen (line_plan setting.now heard.conn heard.now (at_names s names.old) next line.now) (next result (settled result heard.conn (at_names s names.new))) hands.old hands.new }
{
    match line {
        Line::Config { name, octets } => {
            config_line(names, hands.desk, hands.counts, heard.conn, name, octets)
        }
        Line::Open { key, name, wait } => {
            let opening = Opening {
                key,
                name,
                wait: *wait,
            };
            open_line(setting, names, hands, heard, &opening)
        }
        Line::Set { key, name } => { set_line(names, hands, heard.conn, key, name) }
        Line::Close { key } => close_line(hands, heard.conn, key),
        Line::Count { key } => count_line(hands, heard.conn, key),
        Line::List => list_line(hands, heard.conn),
        Line::Quit => quit_line(hands.desk, hands.counts, heard.conn),
    }
}

/// Does what a line says, if it is one.
pub(crate) fn hear_line<D: Shown>(
    setting: &Setting,
    names: &mut Names,
    hands: &mut Hands<D>,
    heard: Heard,
    octets: &[u8],
) -> Verdict
    requires book { IsBookOf hands.old.table.now hands.old.book.now }
    ensures same { AreSame hands.old hands.new }
    ensures book { IsBookOf hands.new.table.now hands.new.book.now }
    ensures done { (s : DeskState) (next : Next) →
        Works D.seen (read_plan setting.now heard.conn heard.now (at_names s names.old) next (line_from octets.now)) (next result (settled result heard.conn (at_names s names.new))) hands.old hands.new }
{
    match read_line(octets) {
        Ok(line) => do_line(setting, names, hands, heard, &line),
        Err(_) => answer(
            hands.desk,
            hands.counts,
            heard.conn,
            &Answer::Refused(Refusal::Line),
        ),
    }
}
