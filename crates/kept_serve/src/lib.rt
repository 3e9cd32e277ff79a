//! Serving the links of many ports by the sessions of a hub that began with a journal, by desks that
//! keep before they tell, for any machine and its desk.
#![tactic(auto)]

mod makers;
mod matching;
mod seating;
mod seats;
mod shelving;
mod workers;

pub use makers::KeptMaker;
pub use matching::{are_given, ended, outcome_of};
pub use seating::{HubSeating, Seating, begin_hub};
pub use seats::{has_seats, seats_for};
pub use shelving::{leave_shelf, seal_shelf, shelve};
pub use workers::{KeptBack, serve_kept_by};
