//! The map server's top call: a run of the program on a host and its standard link, which serves
//! the link or the links of many ports, or sends itself a generated load and writes its numbers or
//! its journal.
#![tactic(auto)]

mod export;
mod link;
mod listening;
mod measure;
mod pipe;
mod play;
mod replay;
mod sending;
mod serve;
mod tell;
mod top;
mod workers;

pub use link::serve_link;
pub use top::run;
pub use workers::serve_ports;
