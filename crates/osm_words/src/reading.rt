//! Reading the words.
//!
//! The words are read by one simple command of `clap` for each of the program's commands, with its
//! help and version flags off; the definition is the matches that clap's own contract defines.
//! `--` is tested before, since clap would take it. Values are checked by the program: numbers are
//! digits alone, and what an address is the host says, not the words.
ghost use Rattle.std.specs.Prelude.{◌≡◌, IfOk, map, string_bytes};
ghost use Rattle.osm_words.specs.Words.{Gives, GivesLoad, GivesMirror, HasSessions, HaveSessions, HaveWorkers, reading_of, mirror_reading_of, until_input_ends, command_reading, of_notes, shown, pipe_reading, serve_reading, load_reading, replay_reading, has_end_mark};

use crate::commands::{find, load, mirror, pipe, plain, serve};
use crate::matches::{load_of, mirror_of, pipe_of, serve_of};
use crate::words::{LoadOptions, MirrorWords, Words, WordsFault};
use std::alloc::Global;

fn read_pipe<'a>(alloc: Global, name: &'a str, words: &'a [String]) -> Result<Words<'a>, WordsFault>
    ensures gives { Gives (pipe_reading name.entry.now (map string_bytes words.entry.now)) result }
    ensures sessions { IfOk result HaveSessions }
{
    let matches = find(pipe(alloc, name)?, words)?;
    pipe_of(&matches).ok_or(WordsFault::NoReading)
}

fn read_serve<'a>(
    alloc: Global,
    name: &'a str,
    words: &'a [String],
) -> Result<Words<'a>, WordsFault>
    ensures gives { Gives (serve_reading name.entry.now (map string_bytes words.entry.now)) result }
    ensures sessions { IfOk result HaveSessions }
{
    let matches = find(serve(alloc, name)?, words)?;
    serve_of(&matches).ok_or(WordsFault::NoReading)
}

fn read_load<'a>(
    alloc: Global,
    name: &'a str,
    words: &'a [String],
) -> Result<LoadOptions, WordsFault>
    ensures gives { GivesLoad (load_reading name.entry.now (map string_bytes words.entry.now)) result }
    ensures sessions { IfOk result HasSessions }
{
    let matches = find(load(alloc, name)?, words)?;
    load_of(&matches).ok_or(WordsFault::NoReading)
}

fn read_replay<'a>(alloc: Global, words: &'a [String]) -> Result<Words<'a>, WordsFault>
    ensures gives { Gives (replay_reading (map string_bytes words.entry.now)) result }
    ensures sessions { IfOk result HaveSessions }
{
    let _matches = find(plain(alloc, "replay"), words)?;
    Ok(Words::Replay)
}

/// The same of the server of notes, where it was read of that of the map.
fn of_notes(words: Words<'_>) -> Words<'_>
    ensures shown { shown result ≡ of_notes (shown words.entry) }
    ensures sessions { HaveSessions words.entry → HaveSessions result }
{
    match words {
        Words::Pipe { users, at } => Words::Notes { users, at },
        Words::Serve {
            users,
            listen,
            workers,
            journal,
        } => Words::ServeNotes {
            users,
            listen,
            workers,
            journal,
        },
        other => other,
    }
}

/// The words from the command's name on.
fn read_command<'a>(alloc: Global, name: &str, words: &'a [String]) -> Result<Words<'a>, WordsFault>
    ensures gives { Gives (command_reading name.now (map string_bytes words.entry.now)) result }
    ensures sessions { IfOk result HaveSessions }
{
    if name == "pipe" {
        read_pipe(alloc, "pipe", words)
    } else if name == "serve" {
        read_serve(alloc, "serve", words)
    } else if name == "measure" {
        Ok(Words::Measure(read_load(alloc, "measure", words)?))
    } else if name == "export" {
        Ok(Words::Export(read_load(alloc, "export", words)?))
    } else if name == "replay" {
        read_replay(alloc, words)
    } else if name == "notes" {
        Ok(of_notes(read_pipe(alloc, "notes", words)?))
    } else if name == "serve-notes" {
        Ok(of_notes(read_serve(alloc, "serve-notes", words)?))
    } else {
        Err(WordsFault::NoReading)
    }
}

/// Whether `--` stands among the words.
fn has_end_mark(words: &[String]) -> bool
    ensures { result ≡ has_end_mark (map string_bytes words.now) }
{
    words.iter().any(|word| word.as_str() == "--")
}

/// Whether the server is to end with its standard input: whether `--until-input-ends` stands among the words.
/// Where they have a reading it is the flag, since no value begins with `-`.
pub fn until_input_ends(words: &[String]) -> bool
    ensures { result ≡ until_input_ends (map string_bytes words.now) }
{
    words
        .iter()
        .any(|word| word.as_str() == "--until-input-ends")
}

/// Reads the words of the command line: the program's name, a command's name, and the command's
/// options as `--name VALUE` or `--name=VALUE`, in any order and each at most once.
///
/// `pipe` needs `users`, a path, and may have `at`. `serve` needs `users`, `listen`, an address, and
/// `workers`, from 1 to 64, and may have `journal`, a path, and the flag `until-input-ends`, which has no value. `measure` and `export` need `seed`, `sessions` from 1 to 64, and
/// `uploads`, at most 909 for each session. `replay` has no options. `notes` and `serve-notes` are
/// `pipe` and `serve` of the server of notes. A path or an address is any text that isn't empty and
/// doesn't begin with `-`. Numbers are digits alone, below 2^64. All other words have no reading.
pub fn read_words<'a>(alloc: Global, words: &'a [String]) -> Result<Words<'a>, WordsFault>
    ensures gives { Gives (reading_of (map string_bytes words.entry.now)) result }
    ensures sessions { IfOk result HaveSessions }
{
    if has_end_mark(words) {
        return Err(WordsFault::NoReading);
    }
    match words {
        [_, name, ..] => read_command(alloc, name.as_str(), &words[1..]),
        _ => Err(WordsFault::NoReading),
    }
}

/// Reads the words of a mirror's command line: the program's name and then its options, written as
/// those of `read_words`.
///
/// `users` is needed, a path. With `listen`, an address, and `workers`, from 1 to 64, it listens;
/// without both it serves the standard link, and there may be `at`. Where it listens there may be the flag
/// `until-input-ends`, and `journal`, a path. All other words have no reading.
pub fn read_mirror_words<'a>(
    alloc: Global,
    words: &'a [String],
) -> Result<MirrorWords<'a>, WordsFault>
    ensures gives { GivesMirror (mirror_reading_of (map string_bytes words.entry.now)) result }
    ensures workers { IfOk result HaveWorkers }
{
    if has_end_mark(words) {
        return Err(WordsFault::NoReading);
    }
    let matches = find(mirror(alloc)?, words)?;
    mirror_of(&matches).ok_or(WordsFault::NoReading)
}
