//! What a session of a hub is answered, as rows on its own front, for any machine; and a desk of one
//! session: what it keeps, what its messages may be answered, and what many of them are together.
//!
//! What a desk answers a message is a relation of its own, a row (`RowOf`), and not the rules of
//! its machine: the map's desk answers the calls of the feed besides, which are no commands and no
//! queries. What many messages come to is told of rows and proved for any desk (session_desk), and
//! so is what serving a link comes to (desk_serve).
#![tactic(auto)]

mod calls;
mod desk;
mod laws;
mod sessions;

pub use calls::{answer_command, answer_query};
pub use desk::{HasSession, SessionDesk};
pub use laws::{exchanges_chain, links_chain, served_stay};
pub use sessions::{behind, command_bytes, freshen, query_bytes};
