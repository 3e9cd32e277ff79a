//! A crash at each call of a script, in drawn outcomes, the start behind it, and one that crashes itself.
use crate::drawn::left_by;
use crate::roomy::RoomyFile;
use crate::starts::{found_in, recovers_after};
use crate::texts::{FIRST, HEADER, SECOND, THIRD, packed, text_in};
use journal_file::{AppendFault, Device, JournalFile, MemFile};
use osm_base::Memory;
use row_lines::Tally;
use std::alloc::Global;
use std::thread::Threads;

/// How many outcomes are drawn for each crash.
const SEEDS: u64 = 40;

/// Whether a start from what a crash left finds this text, also where it crashes itself after each of
/// its calls.
fn recovers<R: Threads + Sync>(
    rt: &R,
    alloc: Global,
    file: &[u8],
    text: &[u8],
    seed: u64,
) -> Result<bool, Memory> {
    for left in 0..11_u64 {
        if !recovers_after(rt, alloc, file, text, left, seed)? {
            return Ok(false);
        }
    }
    Ok(true)
}

/// A file without lines, which fails after so many calls.
fn fresh<const ROOM: usize>(
    alloc: Global,
    first: &[u8],
    left: u64,
) -> Result<Option<JournalFile<RoomyFile<ROOM>>>, Memory> {
    let file = MemFile::new(alloc, first.to_vec(alloc)?, left);
    Ok(JournalFile::open(RoomyFile::new(file), first, HEADER).ok())
}

/// Whether a file that failed takes no lines any more.
fn is_done_with<D: Device>(file: &mut JournalFile<D>) -> bool {
    file.is_broken() && file.append(FIRST) == Err(AppendFault::Failed)
}

/// The text of the batches that were acknowledged, and the same with the one that was added last.
#[derive(Drop)]
struct Script {
    before: Vec<u8>,
    after: Vec<u8>,
}

impl Script {
    fn new(alloc: Global) -> Result<Script, Memory> {
        let before = HEADER.to_vec(alloc)?;
        Ok(Script {
            before,
            after: HEADER.to_vec(alloc)?,
        })
    }

    /// Adds batches until a call fails. Whether a file that failed takes no lines any more.
    fn play<D: Device>(
        &mut self,
        alloc: Global,
        file: &mut JournalFile<D>,
    ) -> Result<bool, Memory> {
        for batch in [FIRST, SECOND, THIRD] {
            let lines = packed(alloc, batch)?;
            self.after.extend_from_slice(&lines)?;
            if file.append(batch).is_err() {
                return Ok(is_done_with(file));
            }
            self.before.extend_from_slice(&lines)?;
        }
        Ok(true)
    }

    /// Whether this is the text of what was acknowledged and a beginning of the lines behind it.
    fn has(&self, found: &[u8]) -> bool {
        let all = self.after.as_slice();
        found.starts_with(&self.before) && all.starts_with(found) && found.ends_with(b"\n")
    }
}

/// Whether a start takes up what a crash left, finds the lines that were acknowledged and of the next
/// ones the first, each whole, and finds the same where it crashes itself.
fn stands<R: Threads + Sync>(
    rt: &R,
    alloc: Global,
    crashed: &[u8],
    script: &Script,
    seed: u64,
) -> Result<bool, Memory> {
    let Some(found) = found_in(rt, alloc, crashed)? else {
        return Ok(false);
    };
    let stands = text_in(alloc, crashed)?;
    let is_known = script.has(&found) && stands.as_slice() == found.as_slice();
    Ok(is_known && recovers(rt, alloc, crashed, &found, seed.wrapping_add(1))?)
}

/// Adds the lines of the script to a file, and has it crash.
fn crash<R: Threads + Sync, const ROOM: usize>(
    rt: &R,
    alloc: Global,
    first: &[u8],
    file: &mut JournalFile<RoomyFile<ROOM>>,
    seed: u64,
) -> Result<bool, Memory> {
    let mut script = Script::new(alloc)?;
    if !script.play(alloc, file)? {
        return Ok(false);
    }
    let crashed = left_by(alloc, first, file.device().file().deeds(), seed)?;
    stands(rt, alloc, &crashed, &script, seed)
}

/// The lines of the script are added to a file in memory that fails from a call on: what a crash may
/// leave then has the lines that were acknowledged, and of the next ones the first, each whole.
fn script_crashes<R: Threads + Sync, const ROOM: usize>(
    rt: &R,
    alloc: Global,
    left: u64,
    seed: u64,
) -> Result<bool, Memory> {
    match fresh::<ROOM>(alloc, HEADER, left)? {
        Some(mut file) => crash(rt, alloc, HEADER, &mut file, seed),
        None => Ok(false),
    }
}

/// A crash behind so many calls of the script, in each outcome that is drawn.
fn crashes_after<R: Threads + Sync, const ROOM: usize>(
    rt: &R,
    alloc: Global,
    left: u64,
) -> Result<bool, Memory> {
    for seed in 0..SEEDS {
        if !script_crashes::<R, ROOM>(rt, alloc, left, seed.wrapping_mul(1_000_003))? {
            return Ok(false);
        }
    }
    Ok(true)
}

/// Notes the row of a crash behind so many calls.
fn note_crash<R: Threads + Sync + Print, const ROOM: usize>(
    rt: &R,
    alloc: Global,
    tally: &mut Tally,
    left: u64,
) -> Result<(), Memory> {
    let name = format!(in alloc;
        "a crash behind {left} calls of the script, by {ROOM} bytes of room"
    )?;
    tally.note(rt, name.as_str(), crashes_after::<R, ROOM>(rt, alloc, left));
    Ok(())
}

/// Notes a row for each of so many calls.
fn note_crashes<R: Threads + Sync + Print, const ROOM: usize>(
    rt: &R,
    alloc: Global,
    tally: &mut Tally,
    calls: u64,
) {
    for left in 0..calls {
        if note_crash::<R, ROOM>(rt, alloc, tally, left).is_err() {
            tally.note(rt, "a crash of the script", Err(Memory));
        }
    }
}

/// The script has twelve calls: four for each of its three appends, of which two lay room by. Where
/// sixteen bytes more are laid by at a time, the last has two fewer.
pub fn play<R: Threads + Sync + Print>(rt: &R, alloc: Global, tally: &mut Tally) {
    note_crashes::<R, 0>(rt, alloc, tally, 13);
    note_crashes::<R, 16>(rt, alloc, tally, 11);
}
