//! The top call.
//!
//! Where there is no memory for the words of the command line the status is 5, and where they are
//! no text it is 1: they have no reading.
ghost use Rattle.std.specs.Prelude.{◌≡◌, [], map, string_bytes};
ghost use Rattle.osm_words.specs.Words.{HaveSessions, reading_of, shown};
ghost use Rattle.server_frame.specs.Exit.{TellsExit};
ghost use Rattle.osm_serve.specs.Run.{Runs, ComesTo};

use crate::export::export;
use crate::listening::{listen_for_notes, listen_for_the_map};
use crate::measure::measure;
use crate::replay::replay;
use crate::serve::MapServer;
use hub_core::Book;
use journal_host::{Device, Journals};
use map_machine::MapMachine;
use notes_serve::NotesServer;
use osm_outside::{Host, Link, Outside};
use osm_words::{Words, WordsFault, read_words};
use server_frame::{Exit, Listening, run_standard};
use std::alloc::Global;
use std::sync::Wait;
use std::thread::Threads;

/// Does what was read of the words, over a book that is empty at first for what needs one.
fn run_words_over<H: Host, J: Journals, R: Threads + Wait + Sync, L: Link>(
    rt: &R,
    alloc: Global,
    words: Words<'_>,
    book: &mut Book<MapMachine>,
    host: &mut H,
    journals: &mut J,
    standard: &mut L,
) -> Exit
    requires sessions { HaveSessions words }
    requires empty { book.old ≡ [] }
    ensures { ComesTo J.File.seen J.File.moment J.File.left_since J.File.faults (Some (shown words.entry)) (J.told journals.old) (J.told journals.new) (H.told host.old) (H.told host.new)
        (L.told standard.old) (L.told standard.new) result }
{
    match words {
        Words::Pipe { users, at } => {
            run_standard::<MapServer, H, R, L>(rt, alloc, users, at, host, standard)
        }
        Words::Serve {
            users,
            listen,
            workers,
            journal,
        } => {
            let listening = Listening {
                address: listen,
                workers,
            };
            listen_for_the_map(
                rt, alloc, users, listening, journal, host, journals, standard,
            )
        }
        Words::Measure(load) => measure(alloc, book, load, standard),
        Words::Export(load) => export(alloc, book, load, standard),
        Words::Replay => replay(alloc, standard),
        Words::Notes { users, at } => {
            run_standard::<NotesServer, H, R, L>(rt, alloc, users, at, host, standard)
        }
        Words::ServeNotes {
            users,
            listen,
            workers,
            journal,
        } => {
            let listening = Listening {
                address: listen,
                workers,
            };
            listen_for_notes(
                rt, alloc, users, listening, journal, host, journals, standard,
            )
        }
    }
}

/// The same with that book.
fn run_words<H: Host, J: Journals, R: Threads + Wait + Sync, L: Link>(
    rt: &R,
    alloc: Global,
    words: Words<'_>,
    host: &mut H,
    journals: &mut J,
    standard: &mut L,
) -> Exit
    requires { HaveSessions words }
    ensures { ComesTo J.File.seen J.File.moment J.File.left_since J.File.faults (Some (shown words.entry)) (J.told journals.old) (J.told journals.new) (H.told host.old) (H.told host.new)
        (L.told standard.old) (L.told standard.new) result }
{
    let mut book = Book::<MapMachine>::new(alloc);
    run_words_over(rt, alloc, words, &mut book, host, journals, standard)
}

/// Reads the words, and does what they ask.
fn exit_of_run<H: Host, J: Journals, R: Threads + Wait + Sync, L: Link>(
    rt: &R,
    alloc: Global,
    words: &[String],
    host: &mut H,
    journals: &mut J,
    standard: &mut L,
) -> Exit
    ensures { Runs J.File.seen J.File.moment J.File.left_since J.File.faults (reading_of (map string_bytes words.now)) (J.told journals.old) (J.told journals.new) (H.told host.old) (H.told host.new)
        (L.told standard.old) (L.told standard.new) result }
{
    match read_words(alloc, words) {
        Ok(words) => run_words(rt, alloc, words, host, journals, standard),
        Err(WordsFault::NoReading) => Exit::NoReading,
        Err(WordsFault::Memory) => Exit::NoMemory,
    }
}

/// Does what the words ask on the host and the standard link, and answers the program's status: 1
/// where the words have no reading, 2 where the users text is refused, 3 for a fault of the host in
/// giving it or in reading, 4 for a fault in writing, 5 for want of memory outside an answer, 6 for a
/// fault in listening or in accepting, 7 where what came on the link was refused, 8 where a journal's
/// text was, 9 where keeping failed since a call of the journal's file did, and 0 otherwise.
pub fn run<H: Host, J: Journals, R: Threads + Wait + Sync, L: Link>(
    rt: &R,
    alloc: Global,
    words: &[String],
    host: &mut H,
    journals: &mut J,
    standard: &mut L,
) -> u8
    ensures { TellsExit (Runs J.File.seen J.File.moment J.File.left_since J.File.faults (reading_of (map string_bytes words.now)) (J.told journals.old) (J.told journals.new) (H.told host.old) (H.told host.new)
        (L.told standard.old) (L.told standard.new)) result }
{
    exit_of_run(rt, alloc, words, host, journals, standard).status()
}
