//! Serving the standard link by a new mirror, as what a program runs.
//!
//! The program's frame serves a standard link by what is known when it is built, and for how long a
//! mirror counts as level is not. So the start and the exit of its link stand here.
ghost use Rattle.std.specs.Prelude.{◌≡◌};
ghost use Rattle.server_frame.specs.Standard.{IsStarted, ServesFrom, exit_of_end};
ghost use Rattle.mirror_desk.specs.Setting.{setting_of};
ghost use Rattle.mirror_serve.specs.Run.{RunsLink};
ghost use Rattle.mirror_serve.specs.Serve.{ServesMirror};

use crate::link::serve_mirror;
use http_link::{LinkEnd, Withheld};
use mirror_desk::MirrorSetting;
use osm_outside::{Clock, Host, Link, Outside};
use server_frame::{Exit, accept_users};
use std::alloc::Global;
use user_table::UserTable;

/// How the program ends by an end of its standard link, as that of a server does.
fn exit_of(end: LinkEnd) -> Exit
    ensures { result ≡ exit_of_end end }
{
    match end {
        LinkEnd::Ended | LinkEnd::Closed | LinkEnd::Budget => Exit::Done,
        LinkEnd::ReadFault => Exit::NotRead,
        LinkEnd::WriteFault => Exit::NotWritten,
        LinkEnd::Memory
        | LinkEnd::Unkept(Withheld::Memory | Withheld::Full | Withheld::Mismatched) => {
            Exit::NoMemory
        }
        LinkEnd::Unkept(Withheld::Failed) => Exit::NotKept,
        LinkEnd::Refused(_) => Exit::MessageRefused,
    }
}

/// Fixes the clock, where a moment is given.
fn start<L: Link>(link: &mut L, at: Option<u64>)
    ensures { IsStarted at (L.told link.old) (L.told link.new) }
{
    if let Some(seconds) = at {
        link.fix(seconds);
    }
}

fn serve_from<L: Link>(
    alloc: Global,
    users: UserTable,
    at: Option<u64>,
    until_level: Option<u32>,
    standard: &mut L,
) -> Exit
    ensures { ServesFrom (λ table. ServesMirror (setting_of until_level table)) users at (L.told standard.old) (L.told standard.new) result }
{
    let setting = MirrorSetting::of(users, until_level);
    start(standard, at);
    exit_of(serve_mirror(alloc, &setting, until_level, standard))
}

/// Reads the users of the text at that path, fixes the clock where a moment is given, in seconds since
/// 1970, and serves the standard link, with a limit to how long the mirror counts as level, in seconds,
/// or none.
pub fn run_link<H: Host, L: Link>(
    alloc: Global,
    users: &str,
    at: Option<u64>,
    until_level: Option<u32>,
    host: &mut H,
    standard: &mut L,
) -> Exit
    ensures { RunsLink until_level users.now at (H.told host.old) (H.told host.new) (L.told standard.old) (L.told standard.new) result }
{
    match accept_users(alloc, users, host) {
        Ok(users) => serve_from(alloc, users, at, until_level, standard),
        Err(exit) => exit,
    }
}
