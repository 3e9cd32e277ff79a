//! What the types of an entry say of it: laws, which cost next to nothing.
ghost use Rattle.std.specs.Prelude.{◌<◌, ◌^◌};
ghost use Rattle.osm_base.specs.Place.{IsPosition};
ghost use Rattle.notes_text.specs.Line.{Fits64, IsCaller, IsCommand};

use notes_core::{NoteCommand, NoteEntry};
use osm_base::{Box7, Coord, Owner};

fn owner_is_typed(owner: &Owner)
    ensures { Fits64 owner.now.id }
{
    let _id = owner.id;
}

fn caller_is_typed(caller: &Option<Owner>)
    ensures { IsCaller caller.now }
{
    match caller {
        Some(owner) => owner_is_typed(owner),
        None => {}
    }
}

/// That a position lies on the globe is told by the box that holds it alone.
fn position_is_typed(at: Coord)
    ensures { IsPosition at.lat7 at.lon7 }
{
    let _area = Box7::at(at).area();
}

fn command_is_typed(command: &NoteCommand)
    ensures { IsCommand command.now }
{
    match command {
        NoteCommand::OpenNote { at, .. } => position_is_typed(*at),
        NoteCommand::Comment { id, .. }
        | NoteCommand::CloseNote { id, .. }
        | NoteCommand::Reopen { id, .. } => {
            let _id = *id;
        }
    }
}

/// The numbers have their widths, and a note is opened on the globe.
pub(crate) fn entry_is_typed(entry: &NoteEntry)
    ensures session { entry.now.session < 2 ^ 32 }
    ensures call { Fits64 entry.now.call }
    ensures stamp { Fits64 entry.now.stamp }
    ensures caller { IsCaller entry.now.caller }
    ensures command { IsCommand entry.now.command }
{
    let _session = entry.session;
    let _call = entry.call;
    let _stamp = entry.stamp.seconds();
    caller_is_typed(&entry.caller);
    command_is_typed(&entry.command);
}
