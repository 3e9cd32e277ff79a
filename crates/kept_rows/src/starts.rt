//! Starts from the file that a crash left, by what a server's start takes its journal up with.
ghost use Rattle.std.specs.Prelude.{◌≡◌, ◌++◌, ⊤, List, IfErr, OnOk};
ghost use Rattle.journal_recovery.specs.declared.faults.TextFault.{TextFault};
ghost use Rattle.kept_rows.specs.declared.script.ScriptLine.{ScriptLine};

use crate::drawn::left_by;
use crate::script::{ScriptLine, ScriptText, text_of};
use crate::texts::text_in;
use journal_file::{Deed, JournalFile, MemFile};
use journal_recovery::{EntryJudge, RestartFault, TextFault, restart};
use osm_base::Memory;
use std::alloc::Global;
use std::thread::Threads;

/// How the lines of the script are judged: any may follow any others.
pub struct AnyLines;

impl EntryJudge<ScriptLine> for AnyLines {
    ghost use Rattle.std.specs.Prelude.{⊤};

    type World = ();

    type Kept = Vec<ScriptLine>;

    type Journal = Vec<ScriptLine>;

    ghost entries = { λ lines. lines.items };

    ghost keeps = { λ lines. lines.items };

    ghost is_legal = { λ _. ⊤ };

    ghost follows = { λ _ _. ⊤ };

    fn begin(_alloc: Global) {}

    fn none(alloc: Global) -> Vec<ScriptLine> {
        Vec::new(alloc)
    }

    fn follow(_alloc: Global, _world: (), _part: &[ScriptLine]) -> Result<(), TextFault> {
        Ok(())
    }

    fn keep(
        _alloc: Global,
        kept: &mut Vec<ScriptLine>,
        mut part: Vec<ScriptLine>,
    ) -> Result<(), TextFault>
        requires { (world : Unit {0}) × ⊤ }
        ensures kept { OnOk result (kept.new.items ≡ kept.old.items ++ part.items) }
        ensures refused { IfErr result (λ fault. fault ≡ TextFault.NoJournal → (more : List ScriptLine) → ⊤ → ⊥) }
    {
        kept.append(&mut part)?;
        Ok(())
    }

    fn journal_of(kept: Vec<ScriptLine>, _first: (), _second: ()) -> Vec<ScriptLine> {
        kept
    }
}

/// The lines that a start took up with a file that is open then, or why not, with the file's device.
type Start = Result<(Vec<ScriptLine>, JournalFile<MemFile>), (RestartFault, MemFile)>;

/// A start from this file, whose device has so many calls done and then fails.
fn start<R: Threads + Sync>(
    rt: &R,
    alloc: Global,
    file: &[u8],
    left: u64,
) -> Result<Start, Memory> {
    let device = MemFile::new(alloc, file.to_vec(alloc)?, left);
    Ok(restart::<R, MemFile, ScriptLine, ScriptText, AnyLines>(rt, alloc, device, file))
}

/// The text of the lines that a start finds in this file. None where it refuses the file.
pub fn found_in<R: Threads + Sync>(
    rt: &R,
    alloc: Global,
    file: &[u8],
) -> Result<Option<Vec<u8>>, Memory> {
    match start(rt, alloc, file, u64::MAX)? {
        Ok((lines, _open)) => Ok(Some(text_of(alloc, &lines)?)),
        Err((RestartFault::Memory, _device)) => Err(Memory),
        Err(_refused) => Ok(None),
    }
}

/// Whether a start finds this text in the file, and it stands there.
fn finds<R: Threads + Sync>(
    rt: &R,
    alloc: Global,
    file: &[u8],
    text: &[u8],
) -> Result<bool, Memory> {
    let found = found_in(rt, alloc, file)?;
    Ok(
        text_in(alloc, file)?.as_slice() == text
            && found.is_some_and(|found| found.as_slice() == text),
    )
}

/// Whether a start finds this text in what a crash leaves of the file after these calls.
fn finds_again<R: Threads + Sync>(
    rt: &R,
    alloc: Global,
    file: &[u8],
    deeds: &[Deed],
    text: &[u8],
    seed: u64,
) -> Result<bool, Memory> {
    let again = left_by(alloc, file, deeds, seed)?;
    finds(rt, alloc, &again, text)
}

/// Whether the lines and the file that a start opened have this text.
fn has_text(
    alloc: Global,
    lines: &[ScriptLine],
    open: &JournalFile<MemFile>,
    text: &[u8],
) -> Result<bool, Memory> {
    let found = text_of(alloc, lines)?;
    let stands = text_in(alloc, open.device().bytes())?;
    Ok(stands.as_slice() == text && found.as_slice() == text)
}

/// Whether a start from what a crash left finds this text, where so many calls are done and then it
/// crashes itself, and whether what that leaves has the same text for the next start.
pub fn recovers_after<R: Threads + Sync>(
    rt: &R,
    alloc: Global,
    file: &[u8],
    text: &[u8],
    left: u64,
    seed: u64,
) -> Result<bool, Memory> {
    match start(rt, alloc, file, left)? {
        Ok((lines, open)) => Ok(
            has_text(alloc, &lines, &open, text)?
                && finds_again(rt, alloc, file, open.device().deeds(), text, seed)?,
        ),
        Err((RestartFault::Memory, _device)) => Err(Memory),
        Err((why, device)) => Ok(
            why == RestartFault::Failed
                && finds_again(rt, alloc, file, device.deeds(), text, seed)?,
        ),
    }
}
