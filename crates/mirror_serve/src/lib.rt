//! A read-only mirror's top call: a run of it on a host and its standard link, which serves the link
//! or the links of many ports by the pieces of the server's feed that are posted to it.
#![tactic(auto)]

mod kept_mirror;
mod kept_ports;
mod link;
mod one_mirror;
mod ports;
mod serve;
mod standard;
mod top;

pub use link::serve_mirror;
pub use top::mirror;
