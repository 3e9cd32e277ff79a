//! What a machine is: a world that changes by entries, commands that are planned on one world and
//! settled on a later one, and queries.
//!
//! A machine's rules are one ghost record, and its laws are clauses of the trait's calls. That the
//! entry of an accepted command may come next, and carries its caller's tag, is a law of the
//! rules, so a commit needs no test for it.
#![tactic(auto)]

mod machine;
mod tags;

pub use machine::Machine;
pub use tags::{Settled, Tag};
