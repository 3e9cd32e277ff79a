//! Serving the links of ports by new hubs, or by hubs that go on from the journal of a file.
ghost use Rattle.std.specs.Prelude.{◌<◌, ◌≤◌, Some, option_map};
ghost use Rattle.osm_base.specs.declared.limits.TheConstants.{SESSION_LIMIT};
ghost use Rattle.osm_words.specs.Words.{serve, serve_notes};
ghost use Rattle.osm_serve.specs.Run.{ComesTo};

use crate::serve::run_serve;
use journal_host::{Device, Journals};
use map_kept::run_serve_kept;
use notes_kept::run_serve_notes_kept;
use notes_serve::run_serve_notes;
use osm_outside::{Host, Link, Outside};
use server_frame::{Exit, Listening};
use std::alloc::Global;
use std::sync::Wait;
use std::thread::Threads;

/// Serves the map, on from the journal in the file at that path where there is one.
pub fn listen_for_the_map<H: Host, J: Journals, R: Threads + Wait + Sync, L: Link>(
    rt: &R,
    alloc: Global,
    users: &str,
    listening: Listening<'_>,
    journal: Option<&str>,
    host: &mut H,
    journals: &mut J,
    standard: &L,
) -> Exit
    requires some { 0 < listening.workers }
    requires few { listening.workers ≤ SESSION_LIMIT }
    ensures { ComesTo J.File.seen J.File.moment J.File.left_since J.File.faults
        (Some (serve users.now listening.entry.address.now listening.entry.workers (option_map (λ path. path.now) journal.entry)))
        (J.told journals.old) (J.told journals.new) (H.told host.old) (H.told host.new) (L.told standard.now) (L.told standard.now) result }
{
    match journal {
        None => run_serve(rt, alloc, users, listening, host, standard),
        Some(path) => run_serve_kept(rt, alloc, users, listening, path, host, journals, standard),
    }
}

/// The same of notes.
pub fn listen_for_notes<H: Host, J: Journals, R: Threads + Wait + Sync, L: Link>(
    rt: &R,
    alloc: Global,
    users: &str,
    listening: Listening<'_>,
    journal: Option<&str>,
    host: &mut H,
    journals: &mut J,
    standard: &L,
) -> Exit
    requires some { 0 < listening.workers }
    requires few { listening.workers ≤ SESSION_LIMIT }
    ensures { ComesTo J.File.seen J.File.moment J.File.left_since J.File.faults
        (Some (serve_notes users.now listening.entry.address.now listening.entry.workers (option_map (λ path. path.now) journal.entry)))
        (J.told journals.old) (J.told journals.new) (H.told host.old) (H.told host.new) (L.told standard.now) (L.told standard.now) result }
{
    match journal {
        None => run_serve_notes(rt, alloc, users, listening, host, standard),
        Some(path) => run_serve_notes_kept(
            rt, alloc, users, listening, path, host, journals, standard,
        ),
    }
}
