//! A value that answers messages in steps of a list, under one lock: many workers serve links over it.
//!
//! What lies under that lock knows nothing of maps and pieces (step_hub): a value with a list, and
//! a relation of the list before to the list after. So its proof stands on http_link, link_workers
//! and shared_front alone.
#![tactic(auto)]

mod desk;
mod fronts;
mod held;
mod hub;
mod ports;
mod stepped;

pub use desk::StepDesk;
pub use fronts::{FrontDesk, await_growth, longest};
pub use hub::StepHub;
pub use ports::{serve_ports, serve_ports_from};
pub use stepped::Stepped;
