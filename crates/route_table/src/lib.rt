//! Which call a method and a target ask for (OpenStreetMap wiki, API v0.6), with the numbers of its
//! path and the parameters of its query.
#![tactic(auto)]

mod calls;
mod details;
mod faults;
mod methods;
mod parameters;
mod resources;
mod routes;
mod targets;

pub use calls::Call;
pub use faults::RouteFault;
pub use osm_base::path_number as number;
pub use parameters::{flag, needed_area, parameter};
pub use routes::Routes;
pub use targets::{before_query, path_of, query_of};
