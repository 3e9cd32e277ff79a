//! The users of a server, from the host.
ghost use Rattle.std.specs.Prelude.{MatchResult};
ghost use Rattle.osm_outside.specs.Told.{Told};
ghost use Rattle.server_frame.specs.Listening.{AcceptsUsers, LacksUsersToServe};
ghost use Rattle.server_frame.specs.Users.{ReadsUsers, GivesTable};

use crate::exit::Exit;
use osm_outside::{Host, HostFault};
use std::alloc::Global;
use user_table::{UserTable, UsersFault};

/// Why there is no table of users.
#[derive(Clone, Copy)]
pub enum NoUsers {
    /// The host failed.
    Failed,
    /// The users text is refused.
    Refused,
    Memory,
}

/// The users of the text at that path.
pub fn read_users<H: Host>(alloc: Global, path: &str, host: &mut H) -> Result<UserTable, NoUsers>
    ensures { ReadsUsers path.now (H.told host.old) (H.told host.new) result }
{
    match host.users(alloc, path) {
        Ok(text) => table_of(alloc, text.as_slice()),
        Err(HostFault::Failed) => Err(NoUsers::Failed),
        Err(HostFault::Memory) => Err(NoUsers::Memory),
    }
}

/// The users of the text at that path. Where there are none the error is how the program ends. The
/// standard link is left alone.
pub fn accept_users<H: Host>(alloc: Global, path: &str, host: &mut H) -> Result<UserTable, Exit>
    ensures { MatchResult result
        (λ users. AcceptsUsers path.now (H.told host.old) (H.told host.new) users)
        (λ exit. (link : Told) → LacksUsersToServe path.now (H.told host.old) (H.told host.new) link link exit) }
{
    match read_users(alloc, path, host) {
        Ok(users) => Ok(users),
        Err(NoUsers::Failed) => Err(Exit::NotRead),
        Err(NoUsers::Refused) => Err(Exit::UsersRefused),
        Err(NoUsers::Memory) => Err(Exit::NoMemory),
    }
}

fn table_of(alloc: Global, text: &[u8]) -> Result<UserTable, NoUsers>
    ensures { GivesTable text.now result }
{
    match UserTable::read(alloc, text) {
        Ok(users) => Ok(users),
        Err(UsersFault::Memory) => Err(NoUsers::Memory),
        Err(_) => Err(NoUsers::Refused),
    }
}
