//! A message as a request of the map or of its feed, desks that answer requests over a book of the map's machine or
//! over a hub, and a generated load as events of the machine.
#![tactic(auto)]

mod answers;
mod bodies;
mod desk;
mod feed;
mod hub_desk;
mod hub_feed;
mod law;
mod load_events;
mod load_faults;
mod requests;
mod tasks;

pub use answers::refuse;
pub use desk::{OneDesk, query_reply};
pub use feed::{FeedCall, feed_reply, list_reply};
pub use hub_desk::{HubDesk, MapHub, MapSession};
pub use law::desk_answers;
pub use load_events::events;
pub use load_faults::LoadFault;
pub use requests::{Request, is_moderator, known_moderator, known_user, request_of};
pub use tasks::{Edit, Task, task_of};
