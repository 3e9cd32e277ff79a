//! Entries: session, call, stamp, user, command.
ghost use Rattle.std.specs.Prelude.{◌≡◌, ◌++◌, OnOk};
ghost use Rattle.packed_entry.specs.Kept.{ReadsEntry};
ghost use Rattle.packed_entry.specs.Packed.{packed_user, packed_entry};
ghost use Rattle.packed_entry.specs.Read.{Gives, user_at, session_at, entry_at};
ghost use Rattle.packed_entry.specs.Typed.{IsUser, IsEntry};

use crate::commands::{command, put_command};
use crate::faults::Fault;
use crate::numbers::{flag, optional, put_flag, put_number, put_optional};
use crate::reader::Reader;
use crate::texts::{put_text, text};
use osm_base::{Memory, Stamp, User};
use osm_model::Entry;
use std::alloc::Global;

#[tactic(auto, unfolding(crate::specs::Packed::packed_user))]
fn put_user(out: &mut Vec<u8>, user: &User) -> Result<(), Memory>
    ensures bytes { OnOk result (out.new.items ≡ out.old.items ++ packed_user user.now) }
    ensures typed { OnOk result (IsUser user.now) }
{
    put_number(out, user.id)?;
    put_text(out, user.name.as_str())?;
    put_flag(out, user.moderator)?;
    put_optional(out, user.limit)
}

#[tactic(auto, unfolding(crate::specs::Read::user_at))]
fn user(alloc: Global, reader: &mut Reader<'_>) -> Result<User, Fault>
    ensures { Gives (λ x. x) result (user_at reader.old) reader.new }
{
    let id = reader.number()?;
    let name = text(alloc, reader)?;
    let moderator = flag(reader)?;
    let limit = optional(reader)?;
    Ok(User {
        id,
        name,
        moderator,
        limit,
    })
}

#[tactic(auto, unfolding(crate::specs::Packed::packed_entry))]
pub(crate) fn put_entry(out: &mut Vec<u8>, entry: &Entry) -> Result<(), Memory>
    ensures bytes { OnOk result (out.new.items ≡ out.old.items ++ packed_entry entry.now) }
    ensures typed { OnOk result (IsEntry entry.now) }
{
    put_number(out, u64::from(entry.session))?;
    put_number(out, entry.call)?;
    put_number(out, entry.stamp.seconds())?;
    put_user(out, &entry.user)?;
    put_command(out, &entry.command)
}

#[tactic(auto, unfolding(crate::specs::Read::session_at))]
fn session(reader: &mut Reader<'_>) -> Result<u32, Fault>
    ensures { Gives (λ x. x) result (session_at reader.old) reader.new }
{
    let number = reader.number()?;
    if number < 0x1_0000_0000 {
        Ok(number as u32)
    } else {
        Err(Fault::Malformed)
    }
}

#[tactic(auto, unfolding(crate::specs::Read::entry_at))]
pub(crate) fn entry(alloc: Global, reader: &mut Reader<'_>) -> Result<Entry, Fault>
    requires { ReadsEntry (entry_at reader.old) }
    ensures { Gives (λ x. x) result (entry_at reader.old) reader.new }
{
    let session = session(reader)?;
    let call = reader.number()?;
    let stamp = reader.number()?;
    let user = user(alloc, reader)?;
    let command = command(alloc, reader)?;
    Ok(Entry {
        session,
        call,
        user,
        stamp: Stamp(stamp),
        command,
    })
}
