//! What a server program does around its answers: it reads the users, serves its standard link or opens ports and gives them back, and tells by its status how
//! that ended.
#![tactic(auto)]

mod exit;
mod link;
mod listening;
mod standard;
mod users;
mod words;

pub use exit::{Exit, statuses_differ};
pub use link::{answer_link, answer_link_within, link_left_alone, link_left_alone_within};
pub use link_workers::Outcome;
pub use listening::{Listening, close_ports, listen, open_ports};
pub use standard::{LinkServer, run_standard};
pub use users::{NoUsers, accept_users, read_users};
pub use words::exit_without_words;
