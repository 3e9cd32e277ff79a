//! Many workers on ports: each serves the links of its port one after another, in a thread of its own.
#![tactic(auto)]

mod back;
mod outcome;
mod port;
mod seat;
mod service;
mod worker;

pub use back::give_back;
pub use outcome::Outcome;
pub use seat::{seat_all, unseat_all};
pub use service::{DeskService, Service, TellingService};
pub use worker::{Worker, any_failed, serve_all};
