//! Files in memory: what is appended, what is left alone, and what is lent.
use crate::texts::{FIRST, HEADER, SCRIPT, SECOND, joined, text_in};
use journal_file::{Device, JournalFile, MemFile, OpenFault, is_damaged};
use journal_host::{DiskFault, Journals, MemJournals};
use osm_base::Memory;
use row_lines::Tally;
use std::alloc::Global;

fn lines_are_appended(alloc: Global) -> Result<bool, Memory> {
    let wanted = joined(alloc, &[HEADER, FIRST, SECOND, b"\n\n"])?;
    let Some(file) = sealed(alloc)? else {
        return Ok(false);
    };
    Ok(file.device().bytes() == wanted.as_slice())
}

/// A file with two batches, which is sealed.
fn sealed(alloc: Global) -> Result<Option<JournalFile<MemFile>>, Memory> {
    let device = MemFile::new(alloc, HEADER.to_vec(alloc)?, u64::MAX);
    let Ok(mut file) = JournalFile::open(device, HEADER, HEADER) else {
        return Ok(None);
    };
    let added = file.append(FIRST).is_ok() && file.append(SECOND).is_ok() && file.seal().is_ok();
    Ok(if added { Some(file) } else { None })
}

/// Of a file that is sealed, each byte is lost in turn: it is told, or the text is whole still.
fn lost_bytes_are_told(alloc: Global) -> Result<bool, Memory> {
    let Some(file) = sealed(alloc)? else {
        return Ok(false);
    };
    let whole = file.device().bytes();
    let text = text_in(alloc, whole)?;
    for place in 0..whole.len() {
        let mut lost = whole.to_vec(alloc)?;
        lost[place] = 0;
        if !is_damaged(&lost) && text_in(alloc, &lost)?.as_slice() != text.as_slice() {
            return Ok(false);
        }
    }
    Ok(!is_damaged(whole))
}

/// Whether a file with this text, and that behind it, has the text and isn't damaged.
fn reads_as(alloc: Global, text: &[u8], behind: &[u8]) -> Result<bool, Memory> {
    let older = joined(alloc, &[text, behind])?;
    let found = text_in(alloc, &older)?;
    Ok(!is_damaged(&older) && found.as_slice() == text)
}

/// An older file has a closed gate behind its lines, and anything behind that: it has the same text, and
/// isn't damaged.
fn older_files_are_read(alloc: Global) -> Result<bool, Memory> {
    let text = b"osm-journal 2\n{\"a\":1}\n";
    for behind in [b"#".as_slice(), b"#\"b\":[]}\n#\0\0", b"", b"#\0\0\0"] {
        if !reads_as(alloc, text, behind)? {
            return Ok(false);
        }
    }
    Ok(true)
}

/// Whether these bytes are refused and the file has no call.
fn is_left(alloc: Global, bytes: &[u8]) -> Result<bool, Memory> {
    let device = MemFile::new(alloc, bytes.to_vec(alloc)?, u64::MAX);
    match JournalFile::open(device, bytes, HEADER) {
        Ok(_) => Ok(false),
        Err((why, device)) => Ok(why == OpenFault::Foreign && device.deeds().is_empty()),
    }
}

fn what_is_not_ours_is_left(alloc: Global) -> Result<bool, Memory> {
    for bytes in [b"".as_slice(), b"osm-journal 1\n{}\n", SCRIPT] {
        if !is_left(alloc, bytes)? {
            return Ok(false);
        }
    }
    Ok(true)
}

/// A file in memory is a new one where none was given; it has two calls done, and comes back as it is then.
fn lent_and_back(alloc: Global) -> Result<bool, DiskFault> {
    let mut journals = MemJournals::new(None, 2);
    let (mut device, bytes) = journals.lend(alloc, "journal", HEADER)?;
    let is_new = bytes.as_slice() == HEADER && journals.returned().is_none();
    let done = device.sync().is_ok() && device.cut(0).is_ok() && device.sync().is_err();
    journals.back(device);
    let Some(back) = journals.returned() else {
        return Ok(false);
    };
    Ok(is_new && done && back.bytes().is_empty() && back.deeds().len() == 2)
}

fn a_file_is_lent_and_comes_back(alloc: Global) -> Result<bool, Memory> {
    match lent_and_back(alloc) {
        Ok(is_right) => Ok(is_right),
        Err(DiskFault::Memory) => Err(Memory),
        Err(_) => Ok(false),
    }
}

pub fn play<R: Print>(rt: &R, alloc: Global, tally: &mut Tally) {
    tally.note(rt, "lines are appended", lines_are_appended(alloc));
    tally.note(rt, "lost bytes are told", lost_bytes_are_told(alloc));
    tally.note(rt, "older files are read", older_files_are_read(alloc));
    tally.note(
        rt,
        "what is not ours is left",
        what_is_not_ours_is_left(alloc),
    );
    tally.note(
        rt,
        "a file is lent and comes back",
        a_file_is_lent_and_comes_back(alloc),
    );
}
