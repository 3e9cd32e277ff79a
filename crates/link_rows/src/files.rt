//! A host over files.
use journal_file::{Device, DiskFault};
use journal_host::Journals;
use osm_base::{Bytes, Memory};
use osm_outside::{Host, HostFault};
use osm_real::{FileHost, FileJournals, Stop};
use row_lines::Tally;
use std::{env, fs, io, process};

pub const HEADER: &[u8] = b"osm-journal 2\n";

/// A new journal's file: the header alone.
const NEW: &[u8] = b"osm-journal 2\n";

/// A file of an older version, whose text ends with its first line where a byte became 0.
const LOST: &[u8] = b"osm-journal 2\n{}\n\0}\n#";

fn text_at(rt: HostRuntime, path: &str) -> Result<Bytes, HostFault> {
    FileHost::new(rt, &Stop::new()).users(rt.alloc(), path)
}

fn a_file_gives_its_text(rt: HostRuntime) -> Result<bool, Memory> {
    match text_at(rt, "some_users.txt") {
        Ok(text) => Ok(text.as_slice() == b"abc\n".as_slice()),
        Err(HostFault::Memory) => Err(Memory),
        Err(HostFault::Failed) => Ok(false),
    }
}

fn a_missing_file_is_a_fault(rt: HostRuntime) -> bool {
    match text_at(rt, "no_users.txt") {
        Ok(_) => false,
        Err(why) => why == HostFault::Failed,
    }
}

/// A path that no other process takes.
pub fn journal_path(rt: HostRuntime) -> io::Result<String> {
    let folder = env::temp_dir(&rt)?;
    let number = process::id(rt.process());
    let path = format!(in rt.alloc(); "{}/link_rows_{number}", folder.as_path().as_str())?;
    Ok(path)
}

/// A journal is made where none is, is busy as long as it is open, and is found again.
fn made_and_found(rt: HostRuntime, path: &str) -> Result<bool, DiskFault> {
    let stop = Stop::new();
    let mut journals = FileJournals::new(rt, &stop);
    let (mut device, made) = journals.lend(rt.alloc(), path, HEADER)?;
    let kept = device.sync().is_ok();
    let busy = matches!(
        journals.lend(rt.alloc(), path, HEADER),
        Err(DiskFault::Busy)
    );
    journals.back(device);
    let (_device, found) = journals.lend(rt.alloc(), path, b"another header\n")?;
    Ok(kept && busy && !stop.is_asked() && made.as_slice() == NEW && found.as_slice() == NEW)
}

fn a_journal_is_made_and_found(rt: HostRuntime) -> Result<bool, Memory> {
    let Ok(path) = journal_path(rt) else {
        return Ok(false);
    };
    let outcome = made_and_found(rt, path.as_str());
    let _ = fs::remove_file(&rt, path.as_str());
    match outcome {
        Ok(is_right) => Ok(is_right),
        Err(DiskFault::Memory) => Err(Memory),
        Err(_) => Ok(false),
    }
}

fn a_journal_without_a_folder_is_missing(rt: HostRuntime) -> bool {
    let stop = Stop::new();
    let outcome = FileJournals::new(rt, &stop).lend(rt.alloc(), "no_folder/journal", HEADER);
    matches!(outcome, Err(DiskFault::Missing))
}

/// What a journal's file with these bytes is refused for, if it is.
fn refused(rt: HostRuntime, path: &str, file: &[u8]) -> io::Result<Option<DiskFault>> {
    fs::write(&rt, path, file)?;
    let stop = Stop::new();
    let outcome = FileJournals::new(rt, &stop).lend(rt.alloc(), path, HEADER);
    let _ = fs::remove_file(&rt, path);
    Ok(outcome.err())
}

fn a_file_that_lost_lines_is_unfit(rt: HostRuntime) -> bool {
    let Ok(path) = journal_path(rt) else {
        return false;
    };
    matches!(refused(rt, path.as_str(), LOST), Ok(Some(DiskFault::Unfit)))
}

pub fn play(rt: HostRuntime, tally: &mut Tally) {
    tally.note(&rt, "a file gives its text", a_file_gives_its_text(rt));
    tally.note(
        &rt,
        "a missing file is a fault",
        Ok(a_missing_file_is_a_fault(rt)),
    );
    tally.note(
        &rt,
        "a journal is made and found",
        a_journal_is_made_and_found(rt),
    );
    tally.note(
        &rt,
        "a journal without a folder is missing",
        Ok(a_journal_without_a_folder_is_missing(rt)),
    );
    tally.note(
        &rt,
        "a file that lost lines is unfit",
        Ok(a_file_that_lost_lines_is_unfit(rt)),
    );
}
