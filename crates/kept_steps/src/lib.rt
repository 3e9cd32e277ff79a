//! Many workers over one list under a lock that is kept in a file: what a reply may tell of is in the
//! file before the reply is sent.
//!
//! It puts together what stands below for any value with a list (step_hub) and for any list in a file
//! (durable_log, kept_desk), and knows nothing of maps and pieces either.
#![tactic(auto)]

mod desk;
mod ports;
mod serve;
mod source;

pub use desk::KeptStepDesk;
pub use serve::{KeptList, serve_kept_ports};
