//! What `clap` is told of each command, and what it finds in words.
ghost use Rattle.std.specs.Prelude.{◌≡◌, IfOk, map, string_bytes, true, false};
ghost use Rattle.clap.specs.Words.{app_of, rule_of, with_rule, is_simple_and_free, kind_of};
ghost use Rattle.osm_words.specs.Commands.{option, flag, plain, pipe_app, serve_app, load_app, mirror_app, found};
ghost use Rattle.osm_words.specs.Found.{Finds, Tells};

use crate::words::WordsFault;
use clap::error::ErrorKind;
use clap::{Arg, ArgAction, ArgMatches, Command, Error};
use std::alloc::{AllocError, Global};

/// An option with one value, which may be given once.
fn option<'a>(alloc: Global, name: &'a str, is_needed: bool) -> Arg<'a>
    ensures rule { rule_of result ≡ option name.entry.now is_needed }
    ensures local { result.global ≡ false }
{
    Arg::new(alloc, name).long(name).required(is_needed)
}

/// An option without a value, which may be given once.
fn flag<'a>(alloc: Global, name: &'a str) -> Arg<'a>
    ensures rule { rule_of result ≡ flag name.entry.now }
    ensures local { result.global ≡ false }
{
    Arg::new(alloc, name).long(name).action(ArgAction::SetTrue)
}

/// A command without options. The flags for help and version that `clap` would add have no reading.
pub fn plain<'a>(alloc: Global, name: &'a str) -> Command<'a>
    ensures { app_of result ≡ plain name.entry.now }
{
    Command::new(alloc, name)
        .disable_help_flag(true)
        .disable_version_flag(true)
}

/// The command with one more option.
fn with_option<'a>(
    alloc: Global,
    command: Command<'a>,
    name: &'a str,
    is_needed: bool,
) -> Result<Command<'a>, AllocError>
    ensures { IfOk result (λ made. app_of made ≡ with_rule (app_of command.entry) (option name.entry.now is_needed)) }
{
    command.arg(option(alloc, name, is_needed))
}

/// The command with one more flag.
fn with_flag<'a>(
    alloc: Global,
    command: Command<'a>,
    name: &'a str,
) -> Result<Command<'a>, AllocError>
    ensures { IfOk result (λ made. app_of made ≡ with_rule (app_of command.entry) (flag name.entry.now)) }
{
    command.arg(flag(alloc, name))
}

/// `NAME --users FILE [--at SECONDS]`.
pub fn pipe<'a>(alloc: Global, name: &'a str) -> Result<Command<'a>, AllocError>
    ensures { IfOk result (λ command. app_of command ≡ pipe_app name.entry.now) }
{
    let needed = with_option(alloc, plain(alloc, name), "users", true)?;
    with_option(alloc, needed, "at", false)
}

/// `NAME --users FILE --listen ADDRESS --workers N [--until-input-ends] [--journal FILE]`.
pub fn serve<'a>(alloc: Global, name: &'a str) -> Result<Command<'a>, AllocError>
    ensures { IfOk result (λ command. app_of command ≡ serve_app name.entry.now) }
{
    let named = with_option(alloc, plain(alloc, name), "users", true)?;
    let placed = with_option(alloc, named, "listen", true)?;
    let manned = with_option(alloc, placed, "workers", true)?;
    let ending = with_flag(alloc, manned, "until-input-ends")?;
    with_option(alloc, ending, "journal", false)
}

/// `NAME --seed N --sessions N --uploads N`.
pub fn load<'a>(alloc: Global, name: &'a str) -> Result<Command<'a>, AllocError>
    ensures { IfOk result (λ command. app_of command ≡ load_app name.entry.now) }
{
    let seeded = with_option(alloc, plain(alloc, name), "seed", true)?;
    let shared = with_option(alloc, seeded, "sessions", true)?;
    with_option(alloc, shared, "uploads", true)
}

/// `osm_mirror --users FILE [--until-level SECONDS]`, and what a mirror may be told besides:
/// `--at SECONDS`, or `--listen ADDRESS --workers N [--until-input-ends] [--journal FILE]`.
pub fn mirror<'a>(alloc: Global) -> Result<Command<'a>, AllocError>
    ensures { IfOk result (λ command. app_of command ≡ mirror_app) }
{
    let needed = with_option(alloc, plain(alloc, "osm_mirror"), "users", true)?;
    let timed = with_option(alloc, needed, "at", false)?;
    let placed = with_option(alloc, timed, "listen", false)?;
    let manned = with_option(alloc, placed, "workers", false)?;
    let ending = with_flag(alloc, manned, "until-input-ends")?;
    let kept = with_option(alloc, ending, "journal", false)?;
    with_option(alloc, kept, "until-level", false)
}

/// Words that are refused have no reading, but for want of memory.
fn fault_of(error: &Error) -> WordsFault
    ensures { Tells (kind_of error.now) result }
{
    match error.kind() {
        ErrorKind::OutOfMemory => WordsFault::Memory,
        _ => WordsFault::NoReading,
    }
}

/// What the command finds in the words, of which the first is its name.
pub fn find<'a>(command: Command<'a>, words: &'a [String]) -> Result<ArgMatches<'a>, WordsFault>
    requires { is_simple_and_free (app_of command) ≡ true }
    ensures { Finds (found (app_of command.entry) (map string_bytes words.entry.now)) result }
{
    match command.try_get_matches_from(words) {
        Ok(matches) => Ok(matches),
        Err(error) => Err(fault_of(&error)),
    }
}
