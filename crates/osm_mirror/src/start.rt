//! The program over what the system gave.
ghost use Rattle.std.specs.Prelude.{MatchResult, map, string_bytes};
ghost use Rattle.std.specs.IoError.{error_kind};
ghost use Rattle.std.specs.Process.{exit_status};
ghost use Rattle.std.specs.Vec.Iter.{into_iter_items};
ghost use Rattle.osm_words.specs.Words.{mirror_reading_of};
ghost use Rattle.server_frame.specs.Exit.{TellsExit};
ghost use Rattle.server_frame.specs.Standard.{IsUnserved};
ghost use Rattle.server_frame.specs.Words.{exit_without_words};
ghost use Rattle.recovered_start.specs.Run.{LeavesFiles};
ghost use Rattle.mirror_serve.specs.Run.{Runs};

use journal_host::{Device, Journals};
use mirror_serve::mirror;
use osm_outside::{Host, Link};
use osm_words::words_of;
use server_frame::{Exit, exit_without_words};
use std::alloc::Global;
use std::env::Args;
use std::io;
use std::process::ExitCode;
use std::sync::Wait;
use std::thread::Threads;

/// The status of `mirror` on the words, or want of memory for their list.
fn status_on<H: Host, J: Journals, R: Threads + Wait + Sync, L: Link>(
    rt: &R,
    alloc: Global,
    args: Args,
    host: &mut H,
    journals: &mut J,
    standard: &mut L,
) -> u8
    ensures { TellsExit (Runs J.File.seen J.File.moment J.File.left_since J.File.faults (mirror_reading_of (map string_bytes (into_iter_items args))) (J.told journals.old) (J.told journals.new) (H.told host.old) (H.told host.new)
        (L.told standard.old) (L.told standard.new)) result }
{
    match words_of(alloc, args) {
        Ok(words) => mirror(rt, alloc, words.as_slice(), host, journals, standard),
        Err(_) => Exit::NoMemory.status(),
    }
}

/// Does what the words that the system gave ask, and ends with the status of
/// `mirror`. Where the system gave no words, nothing is read or written.
pub fn program<H: Host, J: Journals, R: Threads + Wait + Sync, L: Link>(
    rt: &R,
    alloc: Global,
    args: io::Result<Args>,
    host: &mut H,
    journals: &mut J,
    standard: &mut L,
) -> ExitCode
    ensures { MatchResult args
        (λ words. TellsExit (Runs J.File.seen J.File.moment J.File.left_since J.File.faults (mirror_reading_of (map string_bytes (into_iter_items words))) (J.told journals.old) (J.told journals.new) (H.told host.old) (H.told host.new)
        (L.told standard.old) (L.told standard.new)) (exit_status result))
        (λ why. TellsExit (LeavesFiles (IsUnserved (exit_without_words (error_kind why))) (J.told journals.old) (J.told journals.new) (H.told host.old) (H.told host.new)
        (L.told standard.old) (L.told standard.new)) (exit_status result)) }
{
    let status = match args {
        Ok(args) => status_on(rt, alloc, args, host, journals, standard),
        Err(why) => exit_without_words(&why).status(),
    };
    ExitCode::from(status)
}
