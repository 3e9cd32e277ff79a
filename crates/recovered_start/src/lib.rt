//! What every server does around its service whose journal is kept in a file: the users are read, the
//! journal is taken up, and ports are opened, or the file is given back.
#![tactic(auto)]

mod begin;
mod journals;

pub use begin::{Begun, begin_kept};
pub use journals::KeptJournal;
