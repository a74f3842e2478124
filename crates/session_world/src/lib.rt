//! The pure core of the session table: the atomic steps of the desk and of the workers, the schedules that run,
//! and the one-thread table of sessions whose histories explain them.
#![tactic(auto)]

mod laws;
#[cfg(test)]
mod plain;
mod refusals;
mod steps;
#[cfg(test)]
mod tests;
mod world;

pub use laws::{
    law_answers_name, law_begins, law_calls_tell, law_desk_did, law_desk_rows, law_desk_slots,
    law_draws, law_explained, law_held, law_joined_history, law_looks, law_one_bound,
    law_one_match, law_one_order, law_rows_fixed, law_rows_read, law_rows_stay, law_rows_tell,
    law_second_use, law_the_order, law_turns_tell, law_visits, law_walks, law_whole_run,
    law_whole_turn, law_words,
};
pub use refusals::{
    law_expires_are_exact, law_looks_are_announced, law_no_false_miss, law_only_draws_change,
    law_reuse,
};
pub use session_key::Query;
pub use steps::{Actor, Part, ROW_LIMIT, SLOT_LIMIT, Step, TableSize, WORKER_LIMIT};
pub use world::World;
