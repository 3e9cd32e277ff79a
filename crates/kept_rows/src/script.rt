//! The lines of the script as entries of a file: how they are written, and how they are read again.
ghost use Rattle.std.specs.Prelude.{◌≡◌, ◌++◌, OnOk};
ghost use Rattle.std.specs.Bool.{Decides};
ghost use Rattle.kept_rows.specs.Script.{script_line, ended_line};

use crate::texts::HEADER;
use durable_log::{Lines, lines_law};
use journal_recovery::{KeptText, TextFault};
use osm_base::Memory;
use std::alloc::Global;

/// A line of the script, by what it holds.
#[derive(Clone, Copy, PartialEq, Eq)]
pub enum ScriptLine {
    Number,
    Array,
    Object,
    Empty,
    /// A byte `#`, as text.
    Gate,
}

/// The line without the byte 10 that ends it.
fn bytes_of(line: ScriptLine) -> &'static [u8]
    ensures { result.now ≡ script_line line }
{
    match line {
        ScriptLine::Number => b"{\"a\":1}",
        ScriptLine::Array => b"{\"b\":[]}",
        ScriptLine::Object => b"{\"c\":{}}",
        ScriptLine::Empty => b"{}",
        ScriptLine::Gate => b"{\"d\":\"#\"}",
    }
}

/// Whether these bytes are that line.
fn is_line(bytes: &[u8], line: ScriptLine) -> bool
    ensures { Decides result (bytes.now ≡ script_line line) }
{
    bytes == bytes_of(line)
}

/// Writes a line behind the others.
fn put(bytes: &mut Vec<u8>, line: ScriptLine) -> Result<(), Memory>
    ensures { OnOk result (bytes.new.items ≡ bytes.old.items ++ ended_line line) }
{
    bytes.extend_from_slice(bytes_of(line))?;
    bytes.push(b'\n')?;
    Ok(())
}

/// How the lines of the script are written: behind the header, each ended by byte 10.
pub struct ScriptText;

impl Lines<ScriptLine> for ScriptText {
    ghost use Rattle.kept_rows.specs.Script.{script_lines, script_text, script_more};

    ghost lines = { script_lines };

    ghost text = { script_text };

    fn lines_behind(bytes: Vec<u8>, entries: &[ScriptLine]) -> Result<Vec<u8>, Memory> {
        lines_law::<ScriptLine>();
        let mut longer = bytes;
        'lines: for line in entries {
            put(&mut longer, *line)?;
        }
        Ok(longer)
    }

    ghost more = { script_more };
}

impl KeptText<ScriptLine> for ScriptText {
    ghost use Rattle.std.specs.Prelude.{⊤};
    ghost use Rattle.kept_rows.specs.Script.{script_line, script_header};

    ghost is_entry = { λ _. ⊤ };

    ghost line = { script_line };

    ghost header = { script_header };

    fn header() -> &'static [u8] {
        HEADER
    }

    fn read_line(_alloc: Global, bytes: &[u8]) -> Result<ScriptLine, TextFault> {
        if is_line(bytes, ScriptLine::Number) {
            Ok(ScriptLine::Number)
        } else if is_line(bytes, ScriptLine::Array) {
            Ok(ScriptLine::Array)
        } else if is_line(bytes, ScriptLine::Object) {
            Ok(ScriptLine::Object)
        } else if is_line(bytes, ScriptLine::Empty) {
            Ok(ScriptLine::Empty)
        } else if is_line(bytes, ScriptLine::Gate) {
            Ok(ScriptLine::Gate)
        } else {
            Err(TextFault::NoJournal)
        }
    }

    fn text_law() {}
}

/// The text of these lines.
pub fn text_of(alloc: Global, lines: &[ScriptLine]) -> Result<Vec<u8>, Memory> {
    ScriptText::lines_behind(HEADER.to_vec(alloc)?, lines)
}
