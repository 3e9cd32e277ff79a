//! Serving the standard link.
ghost use Rattle.std.specs.Prelude.{◌≡◌};
ghost use Rattle.server_frame.specs.Standard.{IsStarted, RunsStandard, ServesFrom, exit_of_end};

use crate::exit::Exit;
use crate::users::accept_users;
use http_link::{LinkEnd, Withheld};
use osm_outside::{Clock, Host, Link, Outside};
use std::alloc::Global;
use std::sync::Wait;
use user_table::UserTable;

/// What serves one link.
pub trait LinkServer {
    ghost use Rattle.osm_outside.specs.Told.{Told};
    ghost use Rattle.http_link.specs.declared.end.LinkEnd.{LinkEnd};
    ghost use Rattle.user_table.specs.Users.{Users};

    // What serving a link comes to: by the users, from what the link told before to what it told
    // after, and how it ended.
    ghost serves: { Users → Told → Told → LinkEnd → Type 0 };

    /// Answers the requests of the link, until it ends.
    fn serve<R: Wait, L: Link>(rt: &R, alloc: Global, users: &UserTable, link: &mut L) -> LinkEnd
        ensures { serves users.now (L.told link.old) (L.told link.new) result };
}

/// How a program ends by an end of its standard link, on which no desk withholds a reply. One that was
/// withheld for anything but a failure would count as want of memory, which is tied to no cause.
fn exit_of(end: LinkEnd) -> Exit
    ensures { result ≡ exit_of_end end }
{
    match end {
        LinkEnd::Ended | LinkEnd::Closed | LinkEnd::Budget => Exit::Done,
        LinkEnd::ReadFault => Exit::NotRead,
        LinkEnd::WriteFault => Exit::NotWritten,
        LinkEnd::Memory
        | LinkEnd::Unkept(Withheld::Memory | Withheld::Full | Withheld::Mismatched) => {
            Exit::NoMemory
        }
        LinkEnd::Unkept(Withheld::Failed) => Exit::NotKept,
        LinkEnd::Refused(_) => Exit::MessageRefused,
    }
}

/// Fixes the clock, where a moment is given.
fn start<L: Link>(link: &mut L, at: Option<u64>)
    ensures { IsStarted at (L.told link.old) (L.told link.new) }
{
    if let Some(seconds) = at {
        link.fix(seconds);
    }
}

fn serve_from<S: LinkServer, R: Wait, L: Link>(
    rt: &R,
    alloc: Global,
    users: &UserTable,
    at: Option<u64>,
    standard: &mut L,
) -> Exit
    ensures { ServesFrom S.serves users.now at (L.told standard.old) (L.told standard.new) result }
{
    start(standard, at);
    exit_of(S::serve(rt, alloc, users, standard))
}

/// Reads the users of the text at that path, fixes the clock where a moment is given, in seconds
/// since 1970, and serves the standard link. The result is how the program ends.
pub fn run_standard<S: LinkServer, H: Host, R: Wait, L: Link>(
    rt: &R,
    alloc: Global,
    users: &str,
    at: Option<u64>,
    host: &mut H,
    standard: &mut L,
) -> Exit
    ensures { RunsStandard S.serves users.now at (H.told host.old) (H.told host.new)
        (L.told standard.old) (L.told standard.new) result }
{
    match accept_users(alloc, users, host) {
        Ok(users) => serve_from::<S, R, L>(rt, alloc, &users, at, standard),
        Err(exit) => exit,
    }
}
