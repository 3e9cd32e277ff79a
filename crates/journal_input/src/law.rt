//! A law on files in which a journal is kept.
ghost use Rattle.std.specs.Prelude.{◌≡◌, ℕ, List, ◌∷◌, ◌++◌, All};
ghost use Rattle.osm_model.specs.declared.commands.Entry.{Entry};
ghost use Rattle.journal_text.specs.Line.{IsEntry};
ghost use Rattle.journal_text.specs.Text.{text_in};
ghost use Rattle.journal_text.specs.declared.versions.Version.{Version};
ghost use Rattle.journal_input.specs.Gate.{before_gate};

use journal_text::lines_are_plain;

/// The text of a journal is read whole, and with a closed gate behind its last line it is read as that
/// text, whatever follows.
pub fn kept_files_are_read()
    ensures alone { (version : Version) (es : List Entry) → All IsEntry es → before_gate (text_in version es) ≡ text_in version es }
    ensures kept { (version : Version) (es : List Entry) (rest : List ℕ) → All IsEntry es → before_gate (text_in version es ++ 35 ∷ rest) ≡ text_in version es }
{
    lines_are_plain();
}
