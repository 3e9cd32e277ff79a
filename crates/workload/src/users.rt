//! The users of a load.
ghost use Rattle.std.specs.Prelude.{◌≡◌, ◌++◌, ◌≤◌, IfOk, OnOk, codes};
ghost use Rattle.osm_base.specs.declared.limits.TheConstants.{SESSION_LIMIT};
ghost use Rattle.workload.specs.Users.{user_line, users_text};

use crate::pieces::{put, put_number, put_with_number};
use osm_base::{Bytes, Memory, SESSION_LIMIT};
use std::alloc::Global;

/// How many bytes a line has beside the digits of its user, which it has three times.
const LINE_ROOM: usize = 10;

#[tactic(auto, unfolding(crate::specs::Users::user_line))]
fn put_line(bytes: &mut Vec<u8>, user: u32) -> Result<(), Memory>
    ensures { OnOk result (bytes.new.items ≡ bytes.old.items ++ (user_line user ++ codes "\n")) }
{
    put_number(bytes, user)?;
    put_with_number(bytes, b" t", user)?;
    put_with_number(bytes, b" user m", user)?;
    put(bytes, b"\n")
}

/// How many bytes the users text has.
fn room_of(sessions: u32) -> usize
    requires { sessions ≤ SESSION_LIMIT }
{
    let sessions = sessions as usize;
    (LINE_ROOM + 3) * sessions + 3 * sessions.saturating_sub(9)
}

/// The users text of a load: the lines `n tn user mn`, for n from 1 to the number of the sessions.
pub fn users_text(alloc: Global, sessions: u32) -> Result<Bytes, Memory>
    requires { sessions ≤ SESSION_LIMIT }
    ensures { IfOk result (λ made. made ≡ users_text sessions) }
{
    let mut bytes = Vec::with_capacity(alloc, room_of(sessions))?;
    for place in 0..sessions {
        put_line(&mut bytes, place + 1)?;
    }
    Ok(Bytes::from_vec(bytes))
}
