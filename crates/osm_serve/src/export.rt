//! Sending a load and writing its journal.
ghost use Rattle.std.specs.Prelude.{◌≡◌, ◌<◌, ◌≤◌, [], IfOk};
ghost use Rattle.osm_base.specs.declared.limits.TheConstants.{SESSION_LIMIT};
ghost use Rattle.osm_serve.specs.Export.{IsExport};
ghost use Rattle.osm_serve.specs.Tell.{Tells};

use crate::play::journal_of_load;
use crate::tell::tell;
use hub_core::Book;
use map_machine::MapMachine;
use osm_outside::{Link, Outside};
use osm_words::LoadOptions;
use server_frame::Exit;
use std::alloc::Global;

/// Writes the text of the journal of a run of the load, over a book that is empty at first, to the
/// link, and answers how that ended. Want of memory in a reply is want of memory too, and nothing is
/// written then.
pub fn export<L: Link>(
    alloc: Global,
    book: &mut Book<MapMachine>,
    load: LoadOptions,
    link: &mut L,
) -> Exit
    requires some { 0 < load.sessions }
    requires few { load.sessions ≤ SESSION_LIMIT }
    requires empty { book.old ≡ [] }
    ensures { Tells (IsExport load.seed load.sessions load.uploads) (L.told link.old) (L.told link.new) result }
{
    match journal_of_load(alloc, book, load.seed, load.sessions, load.uploads) {
        Ok(text) => tell(text.as_slice(), link),
        Err(_) => Exit::NoMemory,
    }
}
