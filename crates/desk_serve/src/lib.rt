//! Serving links by the sessions of a hub, for any machine and its desk: one link, the one link of a
//! new hub, and the links of many ports by as many workers.
#![tactic(auto)]

mod kept;
mod laws;
mod link;
mod makers;
mod pipe;
mod workers;

pub use kept::serve_kept_link;
pub use laws::{kept_links_join, kept_ports_served, pipe_left_alone, points_are_consistent};
pub use link::serve_link;
pub use makers::DeskMaker;
pub use pipe::serve_by_one;
pub use workers::serve_by;
