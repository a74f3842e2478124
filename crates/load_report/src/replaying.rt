//! The records of a load are answered, one after the other.

ghost use Rattle.std.specs.Prelude.{ℕ, ◌≡◌, ◌+◌, ◌<◌, ◌≤◌, ◌^◌, List, [], ◌∷◌, ◌++◌, IfOk, length};
ghost use Rattle.load_gen.specs.Generator.{record_of};
ghost use Rattle.replay_format.specs.Records.{Item, spelling};
ghost use Rattle.replay_table.specs.Table.{empty_table};
ghost use Rattle.replay_table.specs.Outcomes.{answer, table_after};
ghost use Rattle.shared_replay.specs.Stands.{Stands, AreWithin};
ghost use Rattle.load_report.specs.Counting.{counted, counts_of};

use crate::counting::Counts;
use load_gen::generate;
use refl_types::Memory;
use replay_format::{Parsed, read_again, read_record};
use shared_replay::{ANSWER_ROOM, Sessions};
use std::alloc::Global;

/// How many sessions a load opens before its datagrams.
const OPENINGS: u32 = 8;

/// Answers the record of an index, and counts the answer.
fn answer_record(
    seed: u64,
    index: u32,
    sessions: &mut Sessions,
    room: &mut [u8],
    counts: &mut Counts,
)
    requires room { ANSWER_ROOM ≤ length room.old }
    requires numbers { (counts.old.sent < 2 ^ 31) × (counts.old.no_session < 2 ^ 31) }
    requires octets { counts.old.octets < 2 ^ 63 }
    ensures answered { (records : List Item) → Stands sessions.old records → AreWithin records → Stands sessions.new (records ++ record_of seed index ∷ []) × (counts.new ≡ counted counts.old (answer (table_after empty_table records) (record_of seed index))) }
    ensures short { length (spelling (record_of seed index)) ≤ 256 }
    ensures sent { counts.new.sent ≤ counts.old.sent + 1 }
    ensures no_session { counts.new.no_session ≤ counts.old.no_session + 1 }
    ensures octets { counts.new.octets ≤ counts.old.octets + ANSWER_ROOM }
{
    read_again();
    let mut octets = [0; 256];
    generate(seed, index, &mut octets);
    match read_record(&octets) {
        Parsed::Record(record, _) => {
            let len = sessions.answer(&record, room);
            counts.count(&room[..len]);
        }
        Parsed::More | Parsed::Bad => unreachable!(),
    }
}

/// Answers a load of so many datagrams, and counts the answers.
fn answer_all(seed: u64, count: u32, sessions: &mut Sessions, room: &mut [u8]) -> Counts
    requires limit { count ≤ 1000000 }
    requires room { ANSWER_ROOM ≤ length room.old }
    requires empty { Stands sessions.old [] }
    ensures { result ≡ counts_of seed count }
{
    let mut counts = Counts {
        sent: 0,
        no_session: 0,
        octets: 0,
    };
    for index in 0..OPENINGS + count {
        answer_record(seed, index, sessions, room, &mut counts);
    }
    counts
}

/// The numbers of the answers to a load of so many datagrams.
pub(crate) fn count_answers(alloc: Global, seed: u64, count: u32) -> Result<Counts, Memory>
    requires { count ≤ 1000000 }
    ensures { IfOk result (λ c. c ≡ counts_of seed count) }
{
    let mut sessions = Sessions::make(alloc)?;
    let Ok(mut room) = vec![in alloc; 0u8; ANSWER_ROOM] else {
        return Err(Memory);
    };
    let counts = answer_all(seed, count, &mut sessions, &mut room);
    Ok(counts)
}
