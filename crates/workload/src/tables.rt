//! The table of a load's users.
ghost use Rattle.std.specs.Prelude.{◌≡◌, ◌≤◌, IfOk};
ghost use Rattle.osm_base.specs.declared.limits.TheConstants.{SESSION_LIMIT};
ghost use Rattle.user_table.specs.declared.faults.UsersFault.TheVariants as UsersFault;
ghost use Rattle.workload.specs.Users.{AreUsersOf};

use crate::law::users_are_read;
use crate::users::users_text;
use osm_base::{Memory, SESSION_LIMIT};
use std::alloc::Global;
use user_table::{UserTable, UsersFault};

/// The table of a load's users.
pub fn users_of_load(alloc: Global, sessions: u32) -> Result<UserTable, Memory>
    requires { sessions ≤ SESSION_LIMIT }
    ensures { IfOk result (AreUsersOf sessions) }
{
    users_are_read();
    let text = users_text(alloc, sessions)?;
    match UserTable::read(alloc, text.as_slice()) {
        Ok(users) => Ok(users),
        Err(fault) => Err(memory_of(fault)),
    }
}

/// The one fault that a load's users text may have.
fn memory_of(fault: UsersFault) -> Memory
    requires { fault ≡ UsersFault.Memory }
{
    match fault {
        UsersFault::Memory => Memory,
        _ => unreachable!(),
    }
}
