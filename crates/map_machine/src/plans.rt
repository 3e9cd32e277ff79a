//! Commands of users, and plans of them.
//!
//! A plan of the map is that of an upload with its looks, or another command alone, which looks at
//! nothing and stands on every map: those are judged when they are settled. A single change is an
//! upload of one operation, so it is planned too.
use osm_base::User;
use osm_model::Command;
use upload_check::Plan;

/// A command and the user who asks for it.
#[derive(Drop)]
pub struct Asked {
    pub user: User,
    pub command: Command,
}

/// A user's command with what was found out about it on some map. A command that is no upload and no
/// single change looks at nothing.
#[derive(Drop)]
pub enum MapPlan {
    Upload(Plan),
    Other(Asked),
}
