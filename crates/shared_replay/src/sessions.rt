//! The sessions of a replay.

ghost use Rattle.std.specs.Prelude.{◌≡◌, ◌≤◌, List, [], length, IfOk};
ghost use Rattle.refl_types.specs.Limits.{datagram_limit};
ghost use Rattle.replay_format.specs.Records.{Item, Arrives, datagram_of};
ghost use Rattle.replay_format.specs.Answers.{answer_limit};
ghost use Rattle.shared_replay.specs.Stands.{Stands, AreWithin, IsAnswered};

use crate::changing::{close, set};
use crate::opening::open;
use crate::turning::arrive;
use refl_types::{LocalAddr, Memory, Meta};
use replay_format::{NO_LOCAL, Outcome, Record, write_outcome};
use replay_table::law_apart;
use session_desk::DeskBook;
use session_rule::{Table, TableSize, open_table};
use session_table::KnownRows;
use session_world::law_begins;
use std::alloc::Global;
use std::marker::Model;

/// How many sessions are kept at once.
pub const SESSIONS: usize = 1024;

/// Octets that an answer has room in while it is written.
pub const ANSWER_ROOM: usize = 65_567;

/// The size of the table.
const SIZE: TableSize = TableSize {
    slots: 4096,
    rows: 1024,
    workers: 1,
};

/// The shared table with its book, the rows that its worker has read, and the reflector's own addresses.
#[derive(Drop)]
pub struct Sessions {
    table: Table,
    book: DeskBook,
    known: KnownRows,
    locals: [LocalAddr; 16],
    local_count: u8,
}

impl Model for Sessions {
    ghost use Rattle.std.specs.Prelude.{◌≤◌, take};
    ghost use Rattle.session_desk.specs.Book.{steps_of};
    ghost use Rattle.shared_replay.specs.Stands.{Kept, IsDesk, AreKept};

    ghost Value = { Kept };

    ghost view = { λ s. record { book = s.book; locals = take s.local_count s.locals } };

    ghost invariant = { λ s. IsDesk s.table s.book × AreKept (steps_of s.book) s.known × (s.local_count ≤ 16) };
}

impl Sessions {
    ghost use Rattle.replay_format.specs.Records.{Fits};
    ghost use Rattle.replay_format.specs.View.{item_of, IsMeasured};

    /// No session, no configuration and no address. All memory is taken here, and only want of it is an error.
    pub fn make(alloc: Global) -> Result<Sessions, Memory>
        ensures { IfOk result (λ s. Stands s []) }
    {
        law_begins();
        let Ok((table, seat)) = open_table(alloc, SIZE) else {
            return Err(Memory);
        };
        let Ok(book) = DeskBook::make(alloc, seat, SIZE) else {
            return Err(Memory);
        };
        let Ok(known) = KnownRows::make(alloc) else {
            return Err(Memory);
        };
        Ok(Sessions {
            table,
            book,
            known,
            locals: [NO_LOCAL; 16],
            local_count: 0,
        })
    }

    /// Writes the answer to a datagram at the front, as `answer` does to its record. Its reply leaves at `t3`, in
    /// nanoseconds since the start of 1970.
    #[inline(always)]
    pub fn arrive(&mut self, meta: &Meta, t3: u64, octets: &[u8], out: &mut [u8]) -> usize
        requires room { ANSWER_ROOM ≤ length out.old }
        requires measured { meta.now.len ≡ length octets.now }
        requires limit { length octets.now ≤ datagram_limit }
        ensures answered { (records : List Item) → Stands self.old records → AreWithin records → IsAnswered records self.new (Arrives (datagram_of meta.now t3 octets.now)) out.old out.new result }
        ensures fits { result ≤ answer_limit }
    {
        let locals = &self.locals[..self.local_count as usize];
        arrive(
            &self.table,
            &mut self.book,
            &mut self.known,
            meta,
            t3,
            octets,
            locals,
            out,
        )
    }

    /// The same out of line.
    #[cold]
    #[inline(never)]
    fn arrive_apart(&mut self, meta: &Meta, t3: u64, octets: &[u8], out: &mut [u8]) -> usize
        requires room { ANSWER_ROOM ≤ length out.old }
        requires measured { meta.now.len ≡ length octets.now }
        requires limit { length octets.now ≤ datagram_limit }
        ensures answered { (records : List Item) → Stands self.old records → AreWithin records → IsAnswered records self.new (Arrives (datagram_of meta.now t3 octets.now)) out.old out.new result }
        ensures fits { result ≤ answer_limit }
    {
        self.arrive(meta, t3, octets, out)
    }

    /// Writes the answer to a record at the front, says how many octets it has, and keeps the table that the record
    /// leaves. Later octets stay.
    pub fn answer(&mut self, item: &Record, out: &mut [u8]) -> usize
        requires room { ANSWER_ROOM ≤ length out.old }
        requires measured { IsMeasured item.now }
        requires fits { Fits (item_of item.now) }
        ensures answered { (records : List Item) → Stands self.old records → AreWithin records → IsAnswered records self.new (item_of item.now) out.old out.new result }
        ensures fits { result ≤ answer_limit }
    {
        law_apart();
        match item {
            Record::Open { key, extra, config } => {
                let answer = open(&self.table, &mut self.book, key, extra, config);
                write_outcome(&Outcome::Opened(answer), out)
            }
            Record::Set { key, config } => {
                let answer = set(&self.table, &mut self.book, key, config);
                write_outcome(&Outcome::Set(answer), out)
            }
            Record::Close { key } => {
                let count = close(&self.table, &mut self.book, key);
                write_outcome(&Outcome::Closed(count), out)
            }
            Record::Datagram { meta, t3, octets } => self.arrive_apart(meta, *t3, octets, out),
            Record::Locals { count, list } => {
                self.locals = *list;
                self.local_count = *count;
                write_outcome(&Outcome::Listed, out)
            }
        }
    }
}
