//! Reading the lines of a text, in several threads at once.
//!
//! The text is cut behind the byte 10 of a line, so each part has lines of its own, and the entries of
//! the parts are put together in their order. Empty lines are passed over. Nothing is copied.
ghost use Rattle.std.specs.Prelude.{◌≡◌, ◌++◌, IfOk, OnErr, Err};
ghost use denote.Param.Send.{IsSync, IsSend};
ghost use Rattle.journal_file.specs.Whole.{packed};
ghost use Rattle.journal_recovery.specs.Parts.{IsRead};
ghost use Rattle.journal_recovery.specs.declared.faults.TextFault.{TextFault};

use crate::faults::TextFault;
use crate::reading::KeptText;
use line_text::cut_behind;
use osm_base::split_once;
use std::alloc::Global;
use std::thread::{Threads, join};

/// A shorter text is read by one thread, in a millisecond or so.
const SMALL_TEXT: usize = 65_536;

/// Reads the lines of a text, by at most so many threads. Where none can be had, one does it all.
#[cycle(lines)]
pub(crate) fn read_lines<R: Threads + Sync, E: Send + Drop, T: KeptText<E> + Send>(
    rt: &R,
    alloc: Global,
    text: &[u8],
    threads: usize,
) -> Result<Vec<E>, TextFault>
    ensures { IsRead T.lines T.is_entry (packed text.now) (λ v. v.items) result }
{
    T::text_law();
    if threads < 2 || text.len() < SMALL_TEXT {
        return read_in_turn::<E, T>(alloc, text);
    }
    let Some((front, back)) = cut_behind(text, text.len() / 2) else {
        return read_in_turn::<E, T>(alloc, text);
    };
    let few = threads / 2;
    let others = threads - few;
    let read_front = move || -> Result<Vec<E>, TextFault>
        requires { IsSync R.row × IsSend E.row × IsSend T.row }
        ensures { IsRead T.lines T.is_entry (packed front.entry.now) (λ v. v.items) result }
    { read_lines::<R, E, T>(rt, alloc, front, few) };
    let read_back = move || -> Result<Vec<E>, TextFault>
        requires { IsSync R.row × IsSend E.row × IsSend T.row }
        ensures { IsRead T.lines T.is_entry (packed back.entry.now) (λ v. v.items) result }
    { read_lines::<R, E, T>(rt, alloc, back, others) };
    let (first, second) = join(rt, read_front, read_back);
    let entries = first?;
    let rest = second?;
    together(entries, rest)
}

/// Reads the lines of a text one after another, but for the empty ones.
fn read_in_turn<E: Drop, T: KeptText<E>>(alloc: Global, text: &[u8]) -> Result<Vec<E>, TextFault>
    ensures { IsRead T.lines T.is_entry (packed text.now) (λ v. v.items) result }
{
    T::text_law();
    let mut entries = Vec::new(alloc);
    let mut rest = text;
    while !rest.is_empty() {
        let Some((line, behind)) = split_once(rest, b'\n') else {
            return Err(TextFault::NoJournal);
        };
        if line.is_empty() {
            rest = behind;
            continue;
        }
        let entry = T::read_line(alloc, line)?;
        entries.push(entry)?;
        rest = behind;
    }
    Ok(entries)
}

/// These entries, and behind them the others.
fn together<E: Drop>(entries: Vec<E>, mut others: Vec<E>) -> Result<Vec<E>, TextFault>
    ensures ok { IfOk result (λ all. all.items ≡ entries.items ++ others.items) }
    ensures err { OnErr result (result ≡ Err TextFault.Memory) }
{
    let mut all = entries;
    all.append(&mut others)?;
    Ok(all)
}
