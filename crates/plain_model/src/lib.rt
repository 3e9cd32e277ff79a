//! The plain program: commands carried out by the map's rules, over lists alone, and a journal of them.
//!
//! The plain program and its journal are a crate of their own, plain_model, above the model. Tests
//! alone stand on it; the indexed world, the reads, the journal's text and the law of plans need
//! the definitions alone, and are proved without waiting for the plain program.
#![tactic(auto)]

mod acts;
mod alterations;
mod changesets;
mod effects;
mod fold;
mod journals;
mod judgements;
mod names;
mod operations;
mod preconditions;
mod uploads;

pub use acts::plain_act;
pub use changesets::changeset_row;
pub use journals::{Journal, Judgement, calls_of};
