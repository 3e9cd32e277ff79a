//! Reading a journal's text and telling of its map.
//!
//! `replay` keeps its entries in a book, so beside the map the list of the entries is in memory.
//! Of the text there is one line, and what was read at once.
ghost use Rattle.std.specs.Prelude.{◌≡◌, IfOk, []};
ghost use Rattle.osm_serve.specs.Replay.{AreReplayLines, Replays, exit_of_input, exit_of_text};
ghost use Rattle.osm_serve.specs.Tell.{Tells};

use crate::tell::tell;
use hub_core::Book;
use journal_input::{InputFault, read_entries};
use journal_text::JournalFault;
use map_machine::{BookKeeper, MapMachine};
use osm_base::{Memory, Text};
use osm_outside::{Link, Outside};
use server_frame::Exit;
use std::alloc::Global;
use workload::{figures_of, replay_summary};

/// The lines that tell of a book's map.
fn lines_of(alloc: Global, book: &Book<MapMachine>) -> Result<Text, Memory>
    ensures { IfOk result (AreReplayLines book.now) }
{
    let entries = book.journal().len() as u64;
    replay_summary(alloc, &figures_of(book.world().world().store(), entries))
}

/// Writes the lines that tell of a book's map.
fn tell_of<L: Link>(alloc: Global, book: &Book<MapMachine>, link: &mut L) -> Exit
    ensures { Tells (AreReplayLines book.now) (L.told link.old) (L.told link.new) result }
{
    match lines_of(alloc, book) {
        Ok(text) => tell(text.as_str().as_bytes(), link),
        Err(_) => Exit::NoMemory,
    }
}

/// How the program ends by a fault of a text.
fn exit_of_text(fault: JournalFault) -> Exit
    ensures { result ≡ exit_of_text fault }
{
    match fault {
        JournalFault::Memory => Exit::NoMemory,
        JournalFault::Long
        | JournalFault::Header
        | JournalFault::Line { .. }
        | JournalFault::Illegal { .. } => Exit::JournalRefused,
    }
}

/// How the program ends by a fault of its input.
fn exit_of_input(fault: InputFault) -> Exit
    ensures { result ≡ exit_of_input fault }
{
    match fault {
        InputFault::Failed => Exit::NotRead,
        InputFault::Text(fault) => exit_of_text(fault),
    }
}

/// Reads the text with that keeper, and tells of its map.
fn replay_with<L: Link>(alloc: Global, keeper: &mut BookKeeper, link: &mut L) -> Exit
    requires { keeper.old ≡ [] }
    ensures { Replays (L.told link.old) (L.told link.new) result }
{
    match read_entries(alloc, link, keeper) {
        Ok(()) => tell_of(alloc, keeper.book(), link),
        Err(fault) => exit_of_input(fault),
    }
}

/// Reads the text of a journal from the link, to the input's end or to one byte past the most that a
/// text may have, and writes the lines that tell of its map. What stands behind a gate, a byte `#` at a
/// line's beginning, doesn't count, so the file of a journal is read as its text. Answers how that
/// ended.
pub fn replay<L: Link>(alloc: Global, link: &mut L) -> Exit
    ensures { Replays (L.told link.old) (L.told link.new) result }
{
    let mut keeper = BookKeeper::new(alloc);
    replay_with(alloc, &mut keeper, link)
}
