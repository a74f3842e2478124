//! What the file says.

ghost use Rattle.std.specs.Prelude.{◌≡◌};
ghost use Rattle.toml.specs.View.{table_view};
ghost use Rattle.conf_text.specs.Faults.{Gives};
ghost use Rattle.conf_text.specs.File.{file_of, file_in};

use crate::configs::{Named, required_configs};
use crate::fault::ConfFault;
use crate::root::{config_named, keys_of, maybe_twamp, numbers_of, required_locals};
use crate::rows::rows_in_use;
use crate::sessions::{Provided, sessions_of};
use crate::table::{counted, maybe_endpoint};
use refl_types::{Config, LocalAddr};
use std::alloc::Global;
use std::marker::Model;
use toml::Table;

/// What a configuration file says. Contracts see it as a `File`, and its type keeps that some text stands for it.
#[derive(Drop)]
pub struct Conf {
    locals: Vec<LocalAddr>,
    workers: u32,
    slots: u32,
    rows: u32,
    limit: u64,
    turns: u64,
    control: Option<LocalAddr>,
    operator: Option<LocalAddr>,
    twamp: Option<Config>,
    configs: Vec<Named>,
    sessions: Vec<Provided>,
}

impl Model for Conf {
    ghost use Rattle.conf_text.specs.File.{File};

    ghost Value = { File };

    ghost use Rattle.conf_text.specs.Kept.{file_kept, IsKept};

    ghost view = { file_kept };

    ghost invariant = { IsKept };
}

impl Conf {
    ghost use Rattle.std.specs.Prelude.{◌≡◌, ◌≤◌, ◌<◌, ◌^◌, length, true, IsSome};
    ghost use Rattle.std.specs.List.{All};
    ghost use Rattle.text_forms.specs.Names.{is_name};
    ghost use Rattle.conf_text.specs.Rows.{distinct, in_use};
    ghost use Rattle.conf_text.specs.Sound.{AreDistinct, AreAscending, AreApart, IsOpenable};

    /// The reflector's own addresses: 1 to 16, and no two are the same.
    pub fn locals(&self) -> &[LocalAddr]
        ensures value { result.now ≡ self.now.locals }
        ensures count { (1 ≤ length result.now) × (length result.now ≤ 16) }
        ensures distinct { AreDistinct result.now }
    {
        &self.locals
    }

    /// How many workers receive: 1 to 64.
    pub fn workers(&self) -> u32
        ensures value { result ≡ self.now.workers }
        ensures range { (1 ≤ result) × (result ≤ 64) }
    {
        self.workers
    }

    /// How many sessions there can be at once: 1 to 16,384.
    pub fn slots(&self) -> u32
        ensures value { result ≡ self.now.slots }
        ensures range { (1 ≤ result) × (result ≤ 16384) }
    {
        self.slots
    }

    /// How many configurations that differ there can be: 1 to 8,191.
    pub fn rows(&self) -> u32
        ensures value { result ≡ self.now.rows }
        ensures range { (1 ≤ result) × (result ≤ 8191) }
    {
        self.rows
    }

    /// After how many datagrams a worker ends, below 2^63; 0 for never.
    pub fn limit(&self) -> u64
        ensures value { result ≡ self.now.limit }
        ensures range { result < 2 ^ 63 }
    {
        self.limit
    }

    /// How often a worker, or the desk, asks for what comes next; below 2^63.
    pub fn turns(&self) -> u64
        ensures value { result ≡ self.now.turns }
        ensures range { result < 2 ^ 63 }
    {
        self.turns
    }

    /// Where control connections are served. There is a configuration for their sessions then.
    pub fn control(&self) -> Option<LocalAddr>
        ensures value { result ≡ self.now.control }
        ensures twamp { IsSome result → IsSome self.now.twamp }
    {
        self.control
    }

    /// Where operators are served.
    pub fn operator(&self) -> Option<LocalAddr>
        ensures { result ≡ self.now.operator }
    {
        self.operator
    }

    /// The configuration of the sessions that control connections ask for.
    pub fn twamp(&self) -> &Option<Config>
        ensures { result.now ≡ self.now.twamp }
    {
        &self.twamp
    }

    /// The configurations, 1 to 256, in byte order of their names. No two have the same name.
    pub fn configs(&self) -> &[Named]
        ensures value { result.now ≡ self.now.configs }
        ensures count { (1 ≤ length result.now) × (length result.now ≤ 256) }
        ensures names { All (λ c. is_name c.name ≡ true) result.now }
        ensures ascending { AreAscending result.now }
    {
        &self.configs
    }

    /// The sessions that are open from the start: at most 16,384, and at most as many as there are slots. Each can be
    /// opened, none excludes an earlier one, and there are rows for their configurations and that of `twamp`.
    pub fn sessions(&self) -> &[Provided]
        ensures value { result.now ≡ self.now.sessions }
        ensures count { (length result.now ≤ self.now.slots) × (length result.now ≤ 16384) }
        ensures openable { All (IsOpenable (length self.now.locals)) result.now }
        ensures apart { AreApart result.now }
        ensures rows { length (distinct (in_use self.now.twamp result.now)) ≤ self.now.rows }
    {
        &self.sessions
    }
}

/// Reads a table that a text is.
#[tactic(auto, using(crate::proofs::FaultFacts::passed), unfolding(crate::specs::File::file_of))]
fn conf_of(alloc: Global, text: &[u8], table: &Table) -> Result<Conf, ConfFault>
    requires { file_in text.now ≡ file_of (table_view table.now) }
    ensures { Gives (λ c. c) result (file_of (table_view table.now)) }
{
    keys_of(alloc, table)?;
    let locals = required_locals(alloc, table)?;
    let numbers = numbers_of(alloc, table)?;
    let control = maybe_endpoint(alloc, table, "control")?;
    let operator = maybe_endpoint(alloc, table, "operator")?;
    let name = maybe_twamp(alloc, table)?;
    let configs = required_configs(alloc, table)?;
    let sessions = sessions_of(alloc, locals.len() as u64, numbers.slots, &configs, table)?;
    let twamp = config_named(&configs, name);
    let rows = rows_in_use(alloc, &twamp, &sessions)?;
    counted(alloc, "rows", 0, u64::from(numbers.rows), rows)?;
    Ok(Conf {
        locals,
        workers: numbers.workers,
        slots: numbers.slots,
        rows: numbers.rows,
        limit: numbers.limit,
        turns: numbers.turns,
        control,
        operator,
        twamp,
        configs,
        sessions,
    })
}

/// What a text of TOML says of the reflector, or its first fault: no TOML; a key that the root doesn't know, the first in
/// byte order; a key that isn't there; then the values in the order of the keys, and at last the count of rows. Each
/// fault but the first has its place.
pub fn read_conf(alloc: Global, text: &[u8]) -> Result<Conf, ConfFault>
    ensures { Gives (λ c. c) result (file_in text.now) }
{
    let table = match toml::table_from_slice(alloc, text) {
        Ok(table) => table,
        Err(error) => {
            if error.is_memory() {
                return Err(ConfFault::Memory);
            }
            return Err(ConfFault::NotToml);
        }
    };
    conf_of(alloc, text, &table)
}
