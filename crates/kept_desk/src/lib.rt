//! A desk that keeps before it tells: what a reply may tell of is in the file before the reply is
//! sent, and every crash from then on leaves it there.
#![tactic(auto)]

mod inner;
mod keeper;
mod laws;
mod session;

pub use keeper::{Keeper, keep, keep_from};
pub use laws::{kept_is_served, kept_links_chain, kept_stay, told_chain};
pub use session::KeptSession;
