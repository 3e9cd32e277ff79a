//! Files of the system, in the folder for temporary ones.
ghost use Rattle.journal_file.specs.Whole.{IsBatch};

use crate::texts::{FIRST, HEADER, SCRIPT, SECOND, joined};
use journal_file::{Device, DiskFault, DiskFile, JournalFile, OpenFault, create, is_damaged, open};
use osm_base::Memory;
use row_lines::Tally;
use std::alloc::Global;
use std::{env, fs, process};

/// A path that no other process takes.
fn path_of(rt: HostRuntime, name: &str) -> Result<String, DiskFault> {
    let folder = env::temp_dir(&rt)?;
    let number = process::id(rt.process());
    let path = format!(in rt.alloc(); "{}/kept_rows_{name}_{number}", folder.as_path().as_str())?;
    Ok(path)
}

/// Opens the file at this path as a journal, and adds the batch.
fn add(rt: HostRuntime, path: &str, batch: &[u8]) -> Result<JournalFile<DiskFile>, DiskFault>
    requires { IsBatch batch.now }
{
    let (device, bytes) = open(&rt, rt.alloc(), path)?;
    let Ok(mut file) = JournalFile::open(device, &bytes, HEADER) else {
        return Err(DiskFault::Unfit);
    };
    if file.append(batch).is_err() {
        return Err(DiskFault::Failed);
    }
    Ok(file)
}

/// Whether the file has these parts, one behind another, and behind them at most the zeros of room
/// that was laid by.
fn has(rt: HostRuntime, path: &str, parts: &[&[u8]]) -> Result<bool, DiskFault> {
    let (_device, bytes) = open(&rt, rt.alloc(), path)?;
    let wanted = joined(rt.alloc(), parts)?;
    let Some(behind) = bytes.strip_prefix(wanted.as_slice()) else {
        return Ok(false);
    };
    Ok(behind.iter().all(|byte| *byte == 0))
}

/// Whether the file has these parts and as much room behind them as the first lines had laid by.
fn has_room(rt: HostRuntime, path: &str, parts: &[&[u8]]) -> Result<bool, DiskFault> {
    let room = fs::metadata(&rt, path)?.len()
        == (HEADER.len() + FIRST.len() + DiskFile::ROOM) as u64;
    Ok(room && has(rt, path, parts)?)
}

/// A file is made, opened, added to, refused to a second device, not made anew, and opened again.
fn made(rt: HostRuntime, path: &str) -> Result<bool, DiskFault> {
    let alloc = rt.alloc();
    let missing = matches!(open(&rt, alloc, path), Err(DiskFault::Missing));
    create(&rt, alloc, path, HEADER)?;
    let file = add(rt, path, FIRST)?;
    let busy = matches!(open(&rt, alloc, path), Err(DiskFault::Busy));
    drop(file);
    let room = has_room(rt, path, &[HEADER, FIRST])?;
    create(&rt, alloc, path, HEADER)?;
    drop(add(rt, path, SECOND)?);
    Ok(missing && busy && room && has(rt, path, &[HEADER, FIRST, SECOND])?)
}

/// What a crash left behind the last whole line is cut, and the next lines stand in its place.
fn mended(rt: HostRuntime, path: &str) -> Result<bool, DiskFault> {
    let left = joined(rt.alloc(), &[HEADER, FIRST, b"{\"half"])?;
    fs::write(&rt, path, left.as_slice())?;
    drop(add(rt, path, SECOND)?);
    has(rt, path, &[HEADER, FIRST, SECOND])
}

/// A byte went bad amid the lines: no crash leaves that, and it can be told before anything is cut.
fn damaged(rt: HostRuntime, path: &str) -> Result<bool, DiskFault> {
    let parts: [&[u8]; 3] = [HEADER, FIRST, b"?\"b\":[]}\n\n"];
    let bad = joined(rt.alloc(), &parts)?;
    fs::write(&rt, path, bad.as_slice())?;
    let (_device, bytes) = open(&rt, rt.alloc(), path)?;
    let is_told = is_damaged(&bytes) && bytes.as_slice() == bad.as_slice();
    fs::write(
        &rt,
        path,
        joined(rt.alloc(), &[HEADER, FIRST, b"#"])?.as_slice(),
    )?;
    let whole = fs::read(&rt, path)?;
    Ok(is_told && !is_damaged(&whole))
}

/// A file that isn't a journal is refused, and stays as it is.
fn foreign(rt: HostRuntime, path: &str) -> Result<bool, DiskFault> {
    fs::write(&rt, path, SCRIPT)?;
    create(&rt, rt.alloc(), path, HEADER)?;
    let (device, bytes) = open(&rt, rt.alloc(), path)?;
    let refused = matches!(
        JournalFile::open(device, &bytes, HEADER),
        Err((OpenFault::Foreign, _))
    );
    Ok(refused && fs::read(&rt, path)?.as_slice() == SCRIPT)
}

/// What a creation left that was cut short is taken, and somebody's file under that name is not.
fn beside(rt: HostRuntime, path: &str, new: &str) -> Result<bool, DiskFault> {
    let alloc = rt.alloc();
    fs::write(&rt, new, "{\"somebody's\": true, \"and\": \"long\"}")?;
    let refused = matches!(create(&rt, alloc, path, HEADER), Err(DiskFault::Unfit));
    let kept = fs::read(&rt, new)?.len() > HEADER.len() && !fs::exists(&rt, path)?;
    fs::write(&rt, new, "osm-jou")?;
    create(&rt, alloc, path, HEADER)?;
    let is_made = has(rt, path, &[HEADER])? && !fs::exists(&rt, new)?;
    Ok(refused && kept && is_made)
}

fn a_file_is_made_and_opened_again(rt: HostRuntime) -> Result<bool, DiskFault> {
    let path = path_of(rt, "made")?;
    let outcome = made(rt, path.as_str());
    let _ = fs::remove_file(&rt, path.as_str());
    outcome
}

fn a_file_that_a_crash_left_is_mended(rt: HostRuntime) -> Result<bool, DiskFault> {
    let path = path_of(rt, "mended")?;
    let outcome = mended(rt, path.as_str());
    let _ = fs::remove_file(&rt, path.as_str());
    outcome
}

fn a_damaged_file_is_told(rt: HostRuntime) -> Result<bool, DiskFault> {
    let path = path_of(rt, "damaged")?;
    let outcome = damaged(rt, path.as_str());
    let _ = fs::remove_file(&rt, path.as_str());
    outcome
}

fn a_foreign_file_is_left(rt: HostRuntime) -> Result<bool, DiskFault> {
    let path = path_of(rt, "foreign")?;
    let outcome = foreign(rt, path.as_str());
    let _ = fs::remove_file(&rt, path.as_str());
    outcome
}

fn what_stands_under_the_other_name(rt: HostRuntime) -> Result<bool, DiskFault> {
    let path = path_of(rt, "beside")?;
    let new = format!(in rt.alloc(); "{}.new", path.as_str())?;
    let outcome = beside(rt, path.as_str(), new.as_str());
    let _ = fs::remove_file(&rt, path.as_str());
    let _ = fs::remove_file(&rt, new.as_str());
    outcome
}

fn a_folder_is_no_journal(rt: HostRuntime) -> Result<bool, DiskFault> {
    let folder = env::temp_dir(&rt)?;
    let opened = open(&rt, rt.alloc(), folder.as_path().as_str());
    Ok(matches!(opened, Err(DiskFault::Unfit)))
}

/// A fault of the system is a wrong row.
fn is_right(outcome: Result<bool, DiskFault>) -> Result<bool, Memory> {
    match outcome {
        Ok(is_right) => Ok(is_right),
        Err(DiskFault::Memory) => Err(Memory),
        Err(_) => Ok(false),
    }
}

pub fn play(rt: HostRuntime, tally: &mut Tally) {
    let rows = [
        (
            "a file is made and opened again",
            a_file_is_made_and_opened_again(rt),
        ),
        (
            "a file that a crash left is mended",
            a_file_that_a_crash_left_is_mended(rt),
        ),
        ("a damaged file is told", a_damaged_file_is_told(rt)),
        ("a foreign file is left", a_foreign_file_is_left(rt)),
        (
            "what stands under the other name",
            what_stands_under_the_other_name(rt),
        ),
        ("a folder is no journal", a_folder_is_no_journal(rt)),
    ];
    for (name, outcome) in rows {
        tally.note(&rt, name, is_right(outcome));
    }
}
