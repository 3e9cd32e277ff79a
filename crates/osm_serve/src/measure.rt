//! Sending a load and telling what came of it.
ghost use Rattle.std.specs.Prelude.{◌≡◌, ◌<◌, ◌≤◌, [], IfOk};
ghost use Rattle.osm_base.specs.declared.limits.TheConstants.{SESSION_LIMIT};
ghost use Rattle.osm_serve.specs.Measure.{AreLines};
ghost use Rattle.osm_serve.specs.Tell.{Tells};

use crate::play::run_load;
use crate::tell::tell;
use hub_core::Book;
use map_machine::MapMachine;
use osm_base::{Memory, Text};
use osm_outside::{Link, Outside};
use osm_words::LoadOptions;
use server_frame::Exit;
use std::alloc::Global;
use workload::{Run, summary};

/// The lines of a run of the load over a book that is empty at first.
fn lines_of(alloc: Global, book: &mut Book<MapMachine>, load: LoadOptions) -> Result<Text, Memory>
    requires some { 0 < load.sessions }
    requires few { load.sessions ≤ SESSION_LIMIT }
    requires empty { book.old ≡ [] }
    ensures { IfOk result (AreLines load) }
{
    let played = run_load(alloc, book, load.seed, load.sessions, load.uploads)?;
    let run = Run {
        seed: load.seed,
        sessions: load.sessions,
        uploads: load.uploads,
        replies: played.replies.all,
        refused: played.replies.refused,
    };
    summary(alloc, &run, &played.figures)
}

/// Writes the lines of a run of the load to the link, and answers how that ended. In want of memory
/// nothing is written. The book is empty at first.
pub fn measure<L: Link>(
    alloc: Global,
    book: &mut Book<MapMachine>,
    load: LoadOptions,
    link: &mut L,
) -> Exit
    requires some { 0 < load.sessions }
    requires few { load.sessions ≤ SESSION_LIMIT }
    requires empty { book.old ≡ [] }
    ensures { Tells (AreLines load) (L.told link.old) (L.told link.new) result }
{
    match lines_of(alloc, book, load) {
        Ok(text) => tell(text.as_str().as_bytes(), link),
        Err(_) => Exit::NoMemory,
    }
}
