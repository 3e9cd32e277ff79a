//! The top call.
ghost use Rattle.std.specs.Prelude.{map, string_bytes, Some};
ghost use Rattle.osm_words.specs.Words.{mirror_reading_of, shown_mirror};
ghost use Rattle.server_frame.specs.Exit.{TellsExit};
ghost use Rattle.mirror_serve.specs.Run.{ComesTo, Runs};

use crate::kept_mirror::run_listen_kept;
use crate::serve::run_listen;
use crate::standard::run_link;
use journal_host::{Device, Journals};
use osm_outside::{Host, Link, Outside};
use osm_words::{MirrorWords, WordsFault, read_mirror_words};
use server_frame::{Exit, Listening};
use std::alloc::Global;
use std::sync::Wait;
use std::thread::Threads;

/// Does what was read of the words.
fn run_words<H: Host, J: Journals, R: Threads + Wait + Sync, L: Link>(
    rt: &R,
    alloc: Global,
    words: MirrorWords<'_>,
    host: &mut H,
    journals: &mut J,
    standard: &mut L,
) -> Exit
    ensures { ComesTo J.File.seen J.File.moment J.File.left_since J.File.faults (Some (shown_mirror words.entry)) (J.told journals.old) (J.told journals.new) (H.told host.old) (H.told host.new)
        (L.told standard.old) (L.told standard.new) result }
{
    match words {
        MirrorWords::Standard {
            users,
            at,
            until_level,
        } => run_link(alloc, users, at, until_level, host, standard),
        MirrorWords::Listen {
            users,
            listen,
            workers,
            journal,
            until_level,
        } => {
            let listening = Listening {
                address: listen,
                workers,
            };
            match journal {
                None => run_listen(rt, alloc, users, listening, until_level, host, standard),
                Some(path) => run_listen_kept(
                    rt,
                    alloc,
                    users,
                    listening,
                    path,
                    until_level,
                    host,
                    journals,
                    standard,
                ),
            }
        }
    }
}

/// Reads the words, and does what they ask.
fn exit_of_mirror<H: Host, J: Journals, R: Threads + Wait + Sync, L: Link>(
    rt: &R,
    alloc: Global,
    words: &[String],
    host: &mut H,
    journals: &mut J,
    standard: &mut L,
) -> Exit
    ensures { Runs J.File.seen J.File.moment J.File.left_since J.File.faults (mirror_reading_of (map string_bytes words.now)) (J.told journals.old) (J.told journals.new) (H.told host.old) (H.told host.new)
        (L.told standard.old) (L.told standard.new) result }
{
    match read_mirror_words(alloc, words) {
        Ok(words) => run_words(rt, alloc, words, host, journals, standard),
        Err(WordsFault::NoReading) => Exit::NoReading,
        Err(WordsFault::Memory) => Exit::NoMemory,
    }
}

/// Does what the words ask of a mirror on the host and the standard link, and answers the program's
/// status: 1 where the words have no reading, 2 where the users text is refused, 3 for a fault of the
/// host in giving it or a journal's file or in reading, 4 for a fault in writing, 5 for want of memory
/// outside an answer, 6 for a fault in listening or in accepting, 7 where what came on the link was
/// refused, 8 where a journal's file was, 9 where a call of that file failed, so that a reply may have
/// been withheld, and 0 otherwise.
pub fn mirror<H: Host, J: Journals, R: Threads + Wait + Sync, L: Link>(
    rt: &R,
    alloc: Global,
    words: &[String],
    host: &mut H,
    journals: &mut J,
    standard: &mut L,
) -> u8
    ensures { TellsExit (Runs J.File.seen J.File.moment J.File.left_since J.File.faults (mirror_reading_of (map string_bytes words.now)) (J.told journals.old) (J.told journals.new) (H.told host.old) (H.told host.new)
        (L.told standard.old) (L.told standard.new)) result }
{
    exit_of_mirror(rt, alloc, words, host, journals, standard).status()
}
