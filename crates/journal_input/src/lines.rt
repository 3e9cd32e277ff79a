//! The lines of an input, which are judged as soon as they are whole.
ghost use Rattle.std.specs.Prelude.{◌≡◌, ◌<◌, ◌≤◌, ◌+◌, ◌^◌, ◌&&◌, ◌++◌, ◌==◌, true, false, [], List, ℕ, length, IfOk, IfErr, OnOk};
ghost use Rattle.journal_text.specs.Lines.{Follows, FollowsAlone, IsLineFault};
ghost use Rattle.journal_input.specs.Going.{Closes, LinesFail, Stands};
ghost use Rattle.journal_input.specs.Place.{has_gate_first, place_of};

use crate::gate::{Place, has_gate_first};
use journal_text::{
    JournalFault, Keeper, Version, lines_are_plain, lines_are_read_in_turn, read_line,
};
use osm_base::split_once;
use std::alloc::Global;

/// The line that comes next.
#[derive(Drop)]
pub(crate) struct Lines {
    /// Its bytes so far: those that were read behind the last byte 10.
    pub begun: Vec<u8>,
    /// Counted from 1, the header included.
    pub number: u64,
}

impl Lines {
    /// What the next byte is.
    pub(crate) fn place(&self) -> Place
        ensures { result ≡ place_of self.now.begun.items }
    {
        if self.begun.is_empty() {
            Place::LineStart
        } else {
            Place::InLine
        }
    }
}

/// Judges the lines that a piece ends, and begins the next one with what stands behind them. The
/// answer is whether there is a gate in the piece. Then no line is begun, and what stands behind the
/// gate isn't looked at.
pub(crate) fn judge_piece<K: Keeper>(
    alloc: Global,
    version: Version,
    lines: &mut Lines,
    piece: &[u8],
    keeper: &mut K,
) -> Result<bool, JournalFault>
    requires { lines.old.number + length piece.now < 2 ^ 63 }
    ensures whole { IfOk result (λ is_closed. is_closed ≡ false → (bytes : List ℕ) → Stands version bytes (K.kept keeper.old) lines.old []
        → Stands version (bytes ++ piece.now) (K.kept keeper.new) lines.new []) }
    ensures gate { IfOk result (λ is_closed. is_closed ≡ true → (bytes : List ℕ) → Stands version bytes (K.kept keeper.old) lines.old []
        → Closes version (bytes ++ piece.now) (K.kept keeper.new)) }
    ensures number { OnOk result (lines.new.number ≤ lines.old.number + length piece.now) }
    ensures fault { IfErr result (λ why. (bytes : List ℕ) → Stands version bytes (K.kept keeper.old) lines.old []
        → LinesFail version why (bytes ++ piece.now)) }
{
    lines_are_plain();
    lines_are_read_in_turn();
    let mut rest = piece;
    'ends: while !is_at_gate(lines, rest) {
        let Some((end, behind)) = split_once(rest, b'\n') else {
            begin(lines, rest)?;
            return Ok(false);
        };
        judge_line(alloc, version, lines, end, keeper)?;
        rest = behind;
    }
    Ok(true)
}

/// Whether no line is begun, and these bytes begin with a gate.
fn is_at_gate(lines: &Lines, bytes: &[u8]) -> bool
    ensures { result ≡ ((length lines.now.begun.items == 0) && has_gate_first bytes.now) }
{
    lines.begun.is_empty() && has_gate_first(bytes)
}

/// Judges the line that these bytes end.
fn judge_line<K: Keeper>(
    alloc: Global,
    version: Version,
    lines: &mut Lines,
    end: &[u8],
    keeper: &mut K,
) -> Result<(), JournalFault>
    requires { lines.old.number < 2 ^ 63 }
    ensures ok { OnOk result (Follows version (K.kept keeper.old) (lines.old.begun.items ++ end.now) (K.kept keeper.new)) }
    ensures alone { OnOk result (FollowsAlone (K.kept keeper.old) (lines.old.begun.items ++ end.now) (K.kept keeper.new)) }
    ensures next { OnOk result (lines.new.begun.items ≡ []) }
    ensures number { OnOk result (lines.new.number ≡ lines.old.number + 1) }
    ensures fault { IfErr result (λ why. IsLineFault version why lines.old.number (K.kept keeper.old) (lines.old.begun.items ++ end.now)) }
{
    read_begun(alloc, version, lines, end, keeper)?;
    lines.number += 1;
    Ok(())
}

/// Reads the begun line with the bytes that end it, which are copied where it has bytes before.
fn read_begun<K: Keeper>(
    alloc: Global,
    version: Version,
    lines: &mut Lines,
    end: &[u8],
    keeper: &mut K,
) -> Result<(), JournalFault>
    ensures ok { OnOk result (Follows version (K.kept keeper.old) (lines.old.begun.items ++ end.now) (K.kept keeper.new)) }
    ensures alone { OnOk result (FollowsAlone (K.kept keeper.old) (lines.old.begun.items ++ end.now) (K.kept keeper.new)) }
    ensures next { OnOk result (lines.new.begun.items ≡ []) }
    ensures number { lines.new.number ≡ lines.old.number }
    ensures fault { IfErr result (λ why. IsLineFault version why lines.old.number (K.kept keeper.old) (lines.old.begun.items ++ end.now)) }
{
    if lines.begun.is_empty() {
        return read_line(alloc, version, end, lines.number, keeper);
    }
    begin(lines, end)?;
    read_line(alloc, version, &lines.begun, lines.number, keeper)?;
    lines.begun.clear();
    Ok(())
}

/// Puts bytes behind those of the begun line.
fn begin(lines: &mut Lines, bytes: &[u8]) -> Result<(), JournalFault>
    ensures begun { OnOk result (lines.new.begun.items ≡ lines.old.begun.items ++ bytes.now) }
    ensures number { lines.new.number ≡ lines.old.number }
    ensures fault { IfErr result (λ why. why ≡ JournalFault.Memory) }
{
    match lines.begun.extend_from_slice(bytes) {
        Ok(()) => Ok(()),
        Err(_) => Err(JournalFault::Memory),
    }
}

/// The end of the input: no line may be begun there.
pub(crate) fn end(lines: &Lines) -> Result<(), JournalFault>
    ensures none { OnOk result (lines.now.begun.items ≡ []) }
    ensures some { IfErr result (λ why. lines.now.begun.items ≡ [] → ⊥) }
    ensures fault { IfErr result (λ why. why ≡ JournalFault.Line lines.now.number) }
{
    let is_whole = lines.begun.is_empty();
    if is_whole {
        Ok(())
    } else {
        Err(JournalFault::Line { line: lines.number })
    }
}
