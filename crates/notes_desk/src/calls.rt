//! The calls of the notes.
//!
//! The paths of notes are told apart by their parts. They are five, and the table of route_table
//! is the map's; what a path is, its numbers and its parameters are read by route_table's
//! functions.
ghost use Rattle.std.specs.Option.{option_copied};
ghost use Rattle.route_table.specs.Calls.{Gives};
ghost use Rattle.notes_desk.specs.Routes.{id_in, search_of, get_call, post_call, call_of};

use crate::places::{NotePlace, route_at};
use notes_core::NoteQuery;
use route_table::{RouteFault, flag, needed_area, number, path_of, query_of};
use std::alloc::Global;

/// What a request line asks for. Ids are from 1 to 9,223,372,036,854,775,807.
#[derive(Clone, Copy, Drop)]
pub enum NoteCall {
    Read(NoteQuery),
    Write(NoteEdit),
}

/// Work on notes, of which the body says more.
#[derive(Clone, Copy, Drop)]
pub enum NoteEdit {
    Open,
    Comment { id: u64 },
    Close { id: u64 },
    Reopen { id: u64 },
}

/// The box of a search, and whether it asks for closed notes too.
fn search_of(alloc: Global, query: Option<&[u8]>) -> Result<NoteQuery, RouteFault>
    ensures { Gives (search_of (option_copied query.entry)) result }
{
    let within = needed_area(alloc, query, "bbox")?;
    let closed = flag(alloc, query, "closed")?;
    Ok(NoteQuery::Within { within, closed })
}

fn id_in(id: &[u8]) -> Result<u64, RouteFault>
    ensures { Gives (id_in id.now) result }
{
    number(id).ok_or(RouteFault::BadNumber)
}

fn get_call(
    alloc: Global,
    place: NotePlace,
    id: &[u8],
    query: Option<&[u8]>,
) -> Result<NoteCall, RouteFault>
    ensures { Gives (get_call place id.now (option_copied query.entry)) result }
{
    match place {
        NotePlace::All => Ok(NoteCall::Read(search_of(alloc, query)?)),
        NotePlace::Note => Ok(NoteCall::Read(NoteQuery::One { id: id_in(id)? })),
        NotePlace::Comment | NotePlace::Closing | NotePlace::Reopening => {
            Err(RouteFault::WrongMethod)
        }
    }
}

fn post_call(place: NotePlace, id: &[u8]) -> Result<NoteCall, RouteFault>
    ensures { Gives (post_call place id.now) result }
{
    match place {
        NotePlace::All => Ok(NoteCall::Write(NoteEdit::Open)),
        NotePlace::Note => Err(RouteFault::WrongMethod),
        NotePlace::Comment => Ok(NoteCall::Write(NoteEdit::Comment { id: id_in(id)? })),
        NotePlace::Closing => Ok(NoteCall::Write(NoteEdit::Close { id: id_in(id)? })),
        NotePlace::Reopening => Ok(NoteCall::Write(NoteEdit::Reopen { id: id_in(id)? })),
    }
}

/// The call of a request line, or the first cause for which there is none. It depends on the method
/// and the target alone.
#[tactic(auto, unfolding(crate::specs::Routes::call_of))]
pub fn call_of(alloc: Global, method: &[u8], target: &[u8]) -> Result<NoteCall, RouteFault>
    ensures { Gives (call_of method.now target.now) result }
{
    let path = path_of(target).ok_or(RouteFault::NoPath)?;
    let (place, id) = route_at(path.as_bytes()).ok_or(RouteFault::NoPath)?;
    if method == b"GET".as_slice() {
        get_call(alloc, place, id, query_of(target))
    } else if method == b"POST".as_slice() {
        post_call(place, id)
    } else {
        Err(RouteFault::WrongMethod)
    }
}
