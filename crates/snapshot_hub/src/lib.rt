//! Sessions that read published copies of a machine's world, and commit to one journal under a lock.
//!
//! Two more type parameters, the copy (`Shown` is the one that there is) and the writer's runtime:
//! a struct that is generic in its machine can hold a writer of a bounded type alone. Layers above
//! write aliases.
#![tactic(auto)]

mod closing;
mod ends;
pub mod held;
mod hub;
mod press;
mod seats;
mod session;
mod shown;
mod snapshot;
mod standing;
mod step;
mod twins;

pub use closing::{Closer, Closing};
pub use ends::{End, EndList};
pub use held::Held;
pub use hub::Hub;
pub use press::Press;
pub use seats::Seats;
pub use session::{Reading, Session};
pub use shown::Shown;
pub use snapshot::Snapshot;
pub use standing::Standing;
pub use step::Step;
pub use twins::{Twins, follow_all, push_all};
