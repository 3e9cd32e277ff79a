//! A generated load: requests whose bytes a seed and two numbers fix, the users who send them, and the
//! lines that tell of a run: the numbers of a journal, of the map that it makes and of the replies.
#![tactic(auto)]

mod bodies;
mod figures;
mod law;
mod lines;
mod loads;
mod numbers;
mod pieces;
mod sent;
mod tables;
mod users;

pub use figures::{Figures, Run, figures_of};
pub use law::users_are_read;
pub use lines::{replay_summary, summary};
pub use loads::{Load, requests};
pub use sent::Sent;
pub use tables::users_of_load;
pub use users::users_text;
