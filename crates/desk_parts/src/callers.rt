//! Who sent a message.
ghost use Rattle.std.specs.Prelude.{◌≡◌, option_copied, MatchResult, Ok, Err, IfOk};
ghost use Rattle.desk_parts.specs.Callers.{caller_of, owner_of};

use crate::bytes::value_of;
use http_wire::Message;
use osm_base::{Memory, Owner, User};
use osm_change::Refusal;
use std::alloc::Global;
use user_table::{UserTable, Who};

/// The caller: nobody who says who it is, or a user. Another is refused.
pub fn caller_of<'a>(message: &Message, users: &'a UserTable) -> Result<Option<&'a User>, Refusal>
    ensures { MatchResult result (λ caller. caller_of users.now message.now ≡ Ok (option_copied caller))
        (λ r. caller_of users.now message.now ≡ Err r) }
{
    match users.who(value_of(&message.authorization)) {
        Who::Known(place) => Ok(Some(users.user(place))),
        Who::Anonymous => Ok(None),
        Who::Unknown => Err(Refusal::NoUser),
    }
}

/// The caller as the owner of what it makes, where the server knows it.
pub fn owner_of(alloc: Global, caller: Option<&User>) -> Result<Option<Owner>, Memory>
    ensures { IfOk result (λ owner. owner ≡ owner_of (option_copied caller.entry)) }
{
    match caller {
        Some(user) => Ok(Some(user.owner(alloc)?)),
        None => Ok(None),
    }
}
