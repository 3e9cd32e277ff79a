//! Laws on lines.
ghost use Rattle.std.specs.Prelude.{◌≡◌, ℕ, true, List, ◌∷◌};
ghost use Rattle.line_text.specs.OneLine.{is_one_line};
ghost use Rattle.notes_core.specs.declared.commands.NoteEntry.{NoteEntry};
ghost use Rattle.notes_text.specs.Line.{line, IsEntry};
ghost use Rattle.osm_json.specs.Again.{has_no_zero};

use osm_json::{texts_are_read_again, values_are_read_again};

/// Entries that have the same line are the same.
pub fn lines_tell_entries()
    ensures { (entry other : NoteEntry) → IsEntry entry → IsEntry other → line entry ≡ line other → entry ≡ other }
{
    texts_are_read_again();
    values_are_read_again();
}

/// The line of an entry begins with `{`, and neither a byte 10 nor a byte 0 stands in it.
pub fn lines_are_plain()
    ensures begins { (entry : NoteEntry) → (rest : List ℕ) × (line entry ≡ 123 ∷ rest) }
    ensures one { (entry : NoteEntry) → IsEntry entry → is_one_line (line entry) ≡ true }
    ensures full { (entry : NoteEntry) → IsEntry entry → has_no_zero (line entry) ≡ true }
{
    texts_are_read_again();
}
