//! The options in what `clap` found.
//!
//! A mirror's words have no command, and the address and the workers tell that it listens: both or
//! none, and with them no moment, as the server's `serve` has none; only what listens may be told to
//! end with its input, and may keep a journal. For how long it counts as level either may be told.
//! `clap` is told all seven options of one simple command, and which of them stand together is looked
//! at behind it.
ghost use Rattle.std.specs.Prelude.{◌≡◌, ◌≤◌, IfSome, Some, None, codes, option_map, option_and_then};
ghost use Rattle.clap.specs.Words.{first_of, found_of, rows_of};
ghost use Rattle.osm_words.specs.Values.{is_set, text_of, number_in};
ghost use Rattle.osm_base.specs.Number.{whole_of};
ghost use Rattle.osm_words.specs.Words.{HasSessions, HaveSessions, HaveWorkers, shown, shown_mirror, pipe_of, serve_of, load_of, level_by, mirror_by, mirror_of};

use crate::values::{checked, fitting, is_text};
use crate::words::{LEVEL_LIMIT, LoadOptions, MirrorWords, UPLOAD_LIMIT, Words};
use clap::ArgMatches;
use osm_base::{SESSION_LIMIT, whole_number};

fn value_of<'a>(matches: &ArgMatches<'a>, name: &str) -> Option<&'a str>
    ensures { option_map (λ text. text.now) result ≡ first_of name.now (rows_of (found_of matches.now)) }
{
    matches.get_str(name)
}

fn number_at(matches: &ArgMatches<'_>, name: &str) -> Option<u64>
    ensures { result ≡ option_and_then whole_of (first_of name.now (rows_of (found_of matches.now))) }
{
    whole_number(value_of(matches, name)?)
}

fn number_in(matches: &ArgMatches<'_>, name: &str, least: u32, most: u32) -> Option<u32>
    ensures value { result ≡ option_and_then (number_in least most) (first_of name.now (rows_of (found_of matches.now))) }
    ensures least { IfSome result (λ made. least ≤ made) }
    ensures most { IfSome result (λ made. made ≤ most) }
{
    checked(number_at(matches, name)?, least, most)
}

/// Whether the flag was given.
fn is_set(matches: &ArgMatches<'_>, name: &str) -> bool
    ensures { result ≡ is_set (first_of name.now (rows_of (found_of matches.now))) }
{
    match value_of(matches, name) {
        Some(text) => text == "true",
        None => false,
    }
}

/// The text, where it may be a path or an address.
fn path_of(text: &str) -> Option<&str>
    ensures { option_map (λ path. path.now) result ≡ text_of text.entry.now }
{
    if is_text(text) { Some(text) } else { None }
}

fn text_at<'a>(matches: &ArgMatches<'a>, name: &str) -> Option<&'a str>
    ensures { option_map (λ text. text.now) result
        ≡ option_and_then text_of (first_of name.now (rows_of (found_of matches.now))) }
{
    path_of(value_of(matches, name)?)
}

/// What `pipe` is to do.
pub fn pipe_of<'a>(matches: &ArgMatches<'a>) -> Option<Words<'a>>
    ensures value { option_map shown result ≡ pipe_of (rows_of (found_of matches.now)) }
    ensures sessions { IfSome result HaveSessions }
{
    let users = text_at(matches, "users")?;
    let at = match value_of(matches, "at") {
        Some(text) => Some(whole_number(text)?),
        None => None,
    };
    Some(Words::Pipe { users, at })
}

/// What `serve` is to do.
pub fn serve_of<'a>(matches: &ArgMatches<'a>) -> Option<Words<'a>>
    ensures value { option_map shown result ≡ serve_of (rows_of (found_of matches.now)) }
    ensures sessions { IfSome result HaveSessions }
{
    let users = text_at(matches, "users")?;
    let listen = text_at(matches, "listen")?;
    let workers = number_in(matches, "workers", 1, SESSION_LIMIT)?;
    let journal = match value_of(matches, "journal") {
        Some(path) => Some(path_of(path)?),
        None => None,
    };
    Some(Words::Serve {
        users,
        listen,
        workers,
        journal,
    })
}

/// The load that is asked for.
pub fn load_of(matches: &ArgMatches<'_>) -> Option<LoadOptions>
    ensures value { result ≡ load_of (rows_of (found_of matches.now)) }
    ensures sessions { IfSome result HasSessions }
{
    let seed = number_at(matches, "seed")?;
    let sessions = number_in(matches, "sessions", 1, SESSION_LIMIT)?;
    let uploads = number_in(matches, "uploads", 0, UPLOAD_LIMIT)?;
    fitting(seed, sessions, uploads)
}

/// For how many seconds a mirror counts as level, where the option is given.
fn level_at(matches: &ArgMatches<'_>) -> Option<Option<u32>>
    ensures { result ≡ level_by (first_of (codes "until-level") (rows_of (found_of matches.now))) }
{
    match value_of(matches, "until-level") {
        Some(text) => Some(Some(checked(whole_number(text)?, 1, LEVEL_LIMIT)?)),
        None => Some(None),
    }
}

fn standard_at<'a>(users: &'a str, at: &str, until_level: Option<u32>) -> Option<MirrorWords<'a>>
    ensures value { option_map shown_mirror result ≡ mirror_by until_level users.entry.now (Some at.now) None None None }
    ensures workers { IfSome result HaveWorkers }
{
    let at = Some(whole_number(at)?);
    Some(MirrorWords::Standard {
        users,
        at,
        until_level,
    })
}

fn listen_at<'a>(
    users: &'a str,
    listen: &'a str,
    count: &str,
    journal: Option<&'a str>,
    until_level: Option<u32>,
) -> Option<MirrorWords<'a>>
    ensures value { option_map shown_mirror result
        ≡ mirror_by until_level users.entry.now None (Some listen.entry.now) (Some count.now) (option_map (λ path. path.now) journal.entry) }
    ensures workers { IfSome result HaveWorkers }
{
    if !is_text(listen) {
        return None;
    }
    let workers = checked(whole_number(count)?, 1, SESSION_LIMIT)?;
    let journal = match journal {
        Some(path) => Some(path_of(path)?),
        None => None,
    };
    Some(MirrorWords::Listen {
        users,
        listen,
        workers,
        journal,
        until_level,
    })
}

/// What a mirror is to do.
pub fn mirror_of<'a>(matches: &ArgMatches<'a>) -> Option<MirrorWords<'a>>
    ensures value { option_map shown_mirror result ≡ mirror_of (rows_of (found_of matches.now)) }
    ensures workers { IfSome result HaveWorkers }
{
    let users = text_at(matches, "users")?;
    let until_level = level_at(matches)?;
    let at = value_of(matches, "at");
    let listen = value_of(matches, "listen");
    let workers = value_of(matches, "workers");
    if listen.is_none() && is_set(matches, "until-input-ends") {
        return None;
    }
    let journal = value_of(matches, "journal");
    match (at, listen, workers, journal) {
        (None, None, None, None) => Some(MirrorWords::Standard {
            users,
            at: None,
            until_level,
        }),
        (Some(at), None, None, None) => standard_at(users, at, until_level),
        (None, Some(listen), Some(count), journal) => {
            listen_at(users, listen, count, journal, until_level)
        }
        _ => None,
    }
}
