//! The desk's book: the keys, rows and notes of the sessions that the desk keeps, over the steps on the shared words.
#![tactic(auto)]

mod book;
mod finding;
mod laws;
mod order;
mod reach;
mod refusing;
mod session;
mod slots;
mod ticking;
mod writing;

pub use book::DeskBook;
pub use laws::{law_calls_go_on, law_live_stay, law_places_stay, law_rows_serve};
pub use refl_types::Place;
pub use session::{NoSuch, ReserveFault, RowsFull, Session, SetFault, Ticked};
