//! The copy of a journal's file, whose keeper is a thread of these rows.
ghost use Rattle.std.specs.Prelude.{◌≡◌};
ghost use Rattle.journal_file.specs.Device.{Only};

use crate::files::{HEADER, journal_path};
use journal_file::{Device, DeviceFailed, DiskFault};
use journal_host::Journals;
use osm_base::Memory;
use osm_real::{FileJournals, Stop};
use row_lines::Tally;
use std::alloc::Global;
use std::io::{Read, Write};
use std::net::{Net, OpenListener, TcpListener, TcpStream};
use std::sync::Wait;
use std::thread::{Threads, join};
use std::{fs, io};

/// What a keeper is sent first, for a new journal: the greeting, a count and the header.
const BEGUN: &[u8] = b"hegunsap-copy-1\n\0\0\0\0\0\0\0\x0eosm-journal 2\n";

/// What is asked of a new journal's file, of 14 bytes.
#[derive(Clone, Copy, PartialEq, Eq)]
enum Call {
    /// Write `xy` over the bytes behind the first one.
    Write,
    /// Lay by three zeros behind the end.
    Room,
    /// Take the last byte away.
    Cut,
}

/// What the keeper is sent for a write of `xy` at place 1.
const WRITTEN: &[u8] = b"W\0\0\0\0\0\0\0\x01\0\0\0\0\0\0\0\x02xy";

/// What it is sent for three zeros behind 14 bytes.
const LAID: &[u8] = b"Z\0\0\0\0\0\0\0\x0e\0\0\0\0\0\0\0\x03";

/// What it is sent for a cut to 13 bytes.
const CUT: &[u8] = b"C\0\0\0\0\0\0\0\x0d";

/// Whether the next bytes of the server are these.
fn sends(server: &mut TcpStream, wanted: &[u8]) -> io::Result<bool> {
    let mut is_right = true;
    for byte in wanted {
        let mut sent = [0; 1];
        server.read_exact(&mut sent)?;
        is_right = is_right && sent[0] == *byte;
    }
    Ok(is_right)
}

/// A keeper that answers the first bytes by this one, and then one call. Whether it was sent what it must be.
fn keep(listener: &TcpListener, begun: u8, call: &[u8]) -> io::Result<bool> {
    let (mut server, _) = listener.accept()?;
    let has_begun = sends(&mut server, BEGUN)?;
    server.write_all(&[begun])?;
    if call.is_empty() {
        return Ok(has_begun);
    }
    let was_called = sends(&mut server, call)?;
    server.write_all(b"+")?;
    Ok(has_begun && was_called)
}

fn ask<D: Device>(file: &mut D, bytes: &[u8], call: Call) -> Result<(), DeviceFailed>
    requires read { bytes.now ≡ D.seen file.old }
    requires durable { Only (D.seen file.old) (D.may_leave file.old) }
{
    if bytes.len() < 3 {
        return Err(DeviceFailed);
    }
    match call {
        Call::Write => file.write_at(1, b"xy"),
        Call::Room => file.lay_by(bytes.len(), 3),
        Call::Cut => file.cut(bytes.len() - 1),
    }
}

/// Whether a call and a sync succeed, of the file that is given at that path.
fn does<J: Journals>(
    mut journals: J,
    alloc: Global,
    path: &str,
    call: Call,
) -> Result<bool, DiskFault>
where
    J: Drop,
{
    let (mut file, bytes) = journals.lend(alloc, path, HEADER)?;
    let is_done = ask(&mut file, &bytes, call).is_ok() && file.sync().is_ok();
    journals.back(file);
    Ok(is_done)
}

/// Has a keeper that begins by this answer, and a server that asks for its journal's file and calls it.
/// Gives whether the keeper was sent what it must be, and what the server came to.
fn play_both<R: Threads + Wait + Sync>(
    handle: &R,
    rt: HostRuntime,
    begun: u8,
    call: Call,
    sent: &[u8],
) -> io::Result<(bool, Result<bool, DiskFault>)> {
    let listener = TcpListener::bind(&rt, "127.0.0.1:0")?;
    let address = listener.local_addr()?;
    let file = journal_path(rt)?;
    let path = format!(in rt.alloc(); "{file}+tcp://{address}")?;
    let stop = Stop::new();
    let (kept, done) = join(
        handle,
        || keep(&listener, begun, sent),
        || does(
            FileJournals::new(rt, &stop),
            rt.alloc(),
            path.as_str(),
            call,
        ),
    );
    let _ = fs::remove_file(&rt, file.as_str());
    Ok((kept? && !stop.is_asked(), done))
}

fn goes_to_the_copy<R: Threads + Wait + Sync>(
    handle: &R,
    rt: HostRuntime,
    call: Call,
    sent: &[u8],
) -> io::Result<bool> {
    let (was_sent, done) = play_both(handle, rt, b'+', call, sent)?;
    Ok(was_sent && matches!(done, Ok(true)))
}

fn is_unfit_where_refused<R: Threads + Wait + Sync>(
    handle: &R,
    rt: HostRuntime,
) -> io::Result<bool> {
    let (was_sent, done) = play_both(handle, rt, b'-', Call::Write, b"")?;
    Ok(was_sent && matches!(done, Err(DiskFault::Unfit)))
}

/// Whether a path that names a keeper at a port where none listens gives no file.
fn fails_without_a_keeper(rt: HostRuntime) -> io::Result<bool> {
    let address = TcpListener::bind(&rt, "127.0.0.1:0")?.local_addr()?;
    let file = journal_path(rt)?;
    let path = format!(in rt.alloc(); "{file}+tcp://{address}")?;
    let stop = Stop::new();
    let outcome = does(
        FileJournals::new(rt, &stop),
        rt.alloc(),
        path.as_str(),
        Call::Write,
    );
    let _ = fs::remove_file(&rt, file.as_str());
    Ok(matches!(outcome, Err(DiskFault::Failed)))
}

fn told(outcome: io::Result<bool>) -> Result<bool, Memory> {
    match outcome {
        Ok(is_right) => Ok(is_right),
        Err(why) if why.kind() == io::ErrorKind::OutOfMemory => Err(Memory),
        Err(_) => Ok(false),
    }
}

pub fn play<R: Threads + Wait + Sync>(handle: &R, rt: HostRuntime, tally: &mut Tally) {
    let written = goes_to_the_copy(handle, rt, Call::Write, WRITTEN);
    tally.note(&rt, "a write goes to the copy", told(written));
    let laid = goes_to_the_copy(handle, rt, Call::Room, LAID);
    tally.note(&rt, "room goes to the copy", told(laid));
    let cut = goes_to_the_copy(handle, rt, Call::Cut, CUT);
    tally.note(&rt, "a cut goes to the copy", told(cut));
    let refused = is_unfit_where_refused(handle, rt);
    tally.note(&rt, "a copy that is refused is unfit", told(refused));
    let alone = fails_without_a_keeper(rt);
    tally.note(&rt, "without its keeper a journal is a fault", told(alone));
}
