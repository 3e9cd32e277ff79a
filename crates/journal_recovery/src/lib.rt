//! Taking up the file that a journal's text is kept in, for any kind of entries: nothing goes on from
//! it before the whole text was read again, and what is refused has a cause.
#![tactic(auto)]

mod faults;
mod intake;
mod judging;
mod law;
mod parts;
mod reading;
mod restarting;
mod taking_up;

pub use faults::TextFault;
pub use judging::EntryJudge;
pub use law::held_is_taken_up;
pub use reading::KeptText;
pub use restarting::{RestartFault, restart};
pub use taking_up::{Untaken, take_up};
