//! The sessions of the file.

ghost use Rattle.std.specs.Prelude.{◌≡◌, ◌≤◌, ◌++◌, ◌∷◌, [], List, ℕ, codes, false, IfOk};
ghost use Rattle.toml.specs.Data.{get_member};
ghost use Rattle.toml.specs.View.{view, table_view, array_view};
ghost use Rattle.refl_types.specs.declared.types.Mode.TheVariants.{Plain};
ghost use Rattle.conf_text.specs.Faults.{Gives};
ghost use Rattle.conf_text.specs.Tables.{places, or_default, required, text_of};
ghost use Rattle.conf_text.specs.Configs.{config_from};
ghost use Rattle.conf_text.specs.Sessions as spec;
ghost use Rattle.conf_text.specs.Taken.{TakenBy};

use crate::configs::{Named, config_from};
use crate::fault::{ConfFault, bad_value, below, missing, place};
use crate::table::{
    counted, find, flag_at, known_keys, len_of, list_of, needed, number_at, required_endpoint,
    str_of, table_of,
};
use crate::taken::Taken;
use refl_types::{Config, Extra, Key, Mode};
use std::alloc::Global;
use toml::value::Array;
use toml::{Table, Value};

const SESSION_KEYS: [&str; 8] = [
    "local",
    "peer",
    "mode",
    "ssid",
    "config",
    "wait",
    "reflect",
    "symmetrical",
];

/// How many sessions a file may have, where there are as many slots.
const SESSIONS_MAX: u64 = 16384;

const NANOSECONDS: u64 = 1_000_000_000;

/// A session of the file.
#[derive(Clone, Copy, Debug, PartialEq, Eq)]
pub struct Provided {
    pub key: Key,
    pub extra: Extra,
    pub config: Config,
    /// After how many nanoseconds without a datagram the session ends; 0 for never.
    pub wait: u64,
}

fn mode_at(alloc: Global, table: &Table) -> Result<Mode, ConfFault>
    ensures { Gives (λ m. m) result (or_default Plain (text_of spec.mode_from (codes "mode")) (get_member (codes "mode") (table_view table.now))) }
{
    let value = match find(table, "mode") {
        None => return Ok(Mode::Plain),
        Some(value) => value,
    };
    let text = str_of(alloc, "mode", value)?;
    if text == "plain" {
        return Ok(Mode::Plain);
    }
    if text == "auth" {
        return Ok(Mode::Auth);
    }
    if text == "twamp" {
        return Ok(Mode::Twamp);
    }
    Err(bad_value(alloc, "mode"))
}

/// The configuration that a session names.
fn config_at(alloc: Global, configs: &[Named], table: &Table) -> Result<Config, ConfFault>
    ensures { Gives (λ c. c) result (required (text_of (config_from configs.now) (codes "config")) (codes "config") (get_member (codes "config") (table_view table.now))) }
{
    let value = match find(table, "config") {
        None => return Err(missing(alloc, "config")),
        Some(value) => value,
    };
    let text = str_of(alloc, "config", value)?;
    match config_from(configs, text.as_bytes()) {
        Some(config) => Ok(config),
        None => Err(bad_value(alloc, "config")),
    }
}

/// The values of a session, each for itself.
#[tactic(auto, using(crate::proofs::FaultFacts::passed), unfolding(crate::specs::Sessions::values_of))]
fn values_of(
    alloc: Global,
    locals: u64,
    configs: &[Named],
    table: &Table,
) -> Result<Provided, ConfFault>
    requires { (1 ≤ locals) × (locals ≤ 16) }
    ensures { Gives (λ s. s) result (spec.values_of locals configs.now (table_view table.now)) }
{
    known_keys(alloc, &SESSION_KEYS, table)?;
    needed(alloc, table, "peer")?;
    needed(alloc, table, "config")?;
    let local = number_at(alloc, table, "local", 0, locals - 1, 0)? as u16;
    let peer = required_endpoint(alloc, table, "peer")?;
    let mode = mode_at(alloc, table)?;
    let ssid = number_at(alloc, table, "ssid", 0, 65535, 0)? as u16;
    let config = config_at(alloc, configs, table)?;
    let wait = number_at(alloc, table, "wait", 0, 31_536_000, 0)? * NANOSECONDS;
    let reflect = number_at(alloc, table, "reflect", 0, 65535, 0)? as u16;
    let symmetrical = flag_at(alloc, table, "symmetrical", false)?;
    let key = Key {
        local,
        peer,
        mode,
        ssid,
    };
    let extra = Extra {
        symmetrical,
        reflect,
    };
    Ok(Provided {
        key,
        extra,
        config,
        wait,
    })
}

/// The values of the session that stands at a path.
#[tactic(auto, using(crate::proofs::FaultFacts::passed), unfolding(crate::specs::Sessions::values_at))]
fn values_at(
    alloc: Global,
    locals: u64,
    configs: &[Named],
    path: &str,
    value: &Value,
) -> Result<Provided, ConfFault>
    requires { (1 ≤ locals) × (locals ≤ 16) }
    ensures { Gives (λ s. s) result (spec.values_at locals configs.now path.now (view value.now)) }
{
    let table = table_of(alloc, path, value)?;
    match values_of(alloc, locals, configs, table) {
        Ok(session) => Ok(session),
        Err(fault) => Err(below(alloc, path, fault)),
    }
}

/// Whether the mode wants an HMAC key, and the configuration has none.
fn lacks_key(session: &Provided) -> bool
    ensures { result ≡ spec.lacks_key session.now }
{
    session.key.mode == Mode::Auth && session.config.as_parts().key.is_none()
}

/// Whether a session's fields don't go together, or don't go beside the earlier sessions.
fn is_refused(session: &Provided, taken: &Taken) -> bool
    ensures { (earlier : List Provided) → TakenBy taken.now earlier → result ≡ spec.is_refused session.now earlier }
{
    let is_excluded = taken.excludes(&session.key);
    !session.key.is_sound(&session.extra) || lacks_key(session) || is_excluded
}

/// The session that stands at a path, beside the earlier ones.
fn session_of(
    alloc: Global,
    locals: u64,
    configs: &[Named],
    taken: &Taken,
    path: &str,
    value: &Value,
) -> Result<Provided, ConfFault>
    requires { (1 ≤ locals) × (locals ≤ 16) }
    ensures value { (earlier : List Provided) → TakenBy taken.now earlier → Gives (λ s. earlier ++ s ∷ []) result (spec.session_of locals configs.now earlier path.now (view value.now)) }
    ensures apart { (earlier : List Provided) → TakenBy taken.now earlier → IfOk result (λ s. spec.is_excluded s earlier ≡ false) }
{
    let session = values_at(alloc, locals, configs, path, value)?;
    if is_refused(&session, taken) {
        return Err(bad_value(alloc, path));
    }
    Ok(session)
}

fn session_places(
    alloc: Global,
    locals: u64,
    configs: &[Named],
    list: &Array,
) -> Result<Vec<Provided>, ConfFault>
    requires { (1 ≤ locals) × (locals ≤ 16) }
    ensures { Gives (λ v. v.items) result (places (spec.session_of locals configs.now) (codes "sessions") 0 [] (array_view list.now)) }
{
    let mut taken = Taken::new(alloc);
    let mut found = Vec::new(alloc);
    for index in 0..list.len() {
        let path = place(alloc, "sessions", index)?;
        let session = session_of(alloc, locals, configs, &taken, &path, &list[index])?;
        taken.add(&session.key)?;
        found.push(session)?;
    }
    Ok(found)
}

/// The sessions of a list.
#[tactic(auto, using(crate::proofs::FaultFacts::passed))]
fn session_list(
    alloc: Global,
    locals: u64,
    slots: u32,
    configs: &[Named],
    value: &Value,
) -> Result<Vec<Provided>, ConfFault>
    requires { (1 ≤ locals) × (locals ≤ 16) }
    ensures { Gives (λ v. v.items) result (spec.sessions_of locals slots configs.now (view value.now)) }
{
    let list = list_of(alloc, "sessions", value)?;
    counted(
        alloc,
        "sessions",
        0,
        u64::from(slots).min(SESSIONS_MAX),
        len_of(list),
    )?;
    session_places(alloc, locals, configs, list)
}

/// The sessions of the file, none where there is no list of them.
pub(crate) fn sessions_of(
    alloc: Global,
    locals: u64,
    slots: u32,
    configs: &[Named],
    table: &Table,
) -> Result<Vec<Provided>, ConfFault>
    requires { (1 ≤ locals) × (locals ≤ 16) }
    ensures { Gives (λ v. v.items) result (or_default [] (spec.sessions_of locals slots configs.now) (get_member (codes "sessions") (table_view table.now))) }
{
    match find(table, "sessions") {
        None => Ok(Vec::new(alloc)),
        Some(value) => session_list(alloc, locals, slots, configs, value),
    }
}
