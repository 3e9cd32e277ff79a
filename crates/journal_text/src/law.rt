//! Laws on texts that are read line by line.
ghost use Rattle.std.specs.Prelude.{◌≡◌, ◌+◌, ℕ, true, List, [], ◌∷◌, ◌++◌, length, All, None, Some};
ghost use Rattle.osm_base.specs.Parts.{parted};
ghost use Rattle.line_text.specs.OneLine.{is_one_line};
ghost use Rattle.osm_json.specs.Again.{has_no_zero};
ghost use Rattle.osm_model.specs.Journal.{IsLegal};
ghost use Rattle.osm_model.specs.declared.commands.Entry.{Entry};
ghost use Rattle.journal_text.specs.Faults.{BeginsWithLine};
ghost use Rattle.journal_text.specs.Kept.{may_follow};
ghost use Rattle.journal_text.specs.Line.{line, IsEntry};
ghost use Rattle.journal_text.specs.Lines.{Follows, FollowsAlone, IsLineFault, IsLinesFault, IsRefused, Reads};
ghost use Rattle.journal_text.specs.Text.{lines};
ghost use Rattle.journal_text.specs.Version.{IsEntryIn};
ghost use Rattle.journal_text.specs.declared.faults.JournalFault.{JournalFault};
ghost use Rattle.journal_text.specs.declared.faults.JournalFault.TheVariants.{Line};
ghost use Rattle.journal_text.specs.declared.versions.Version.{Version};

use osm_change::changes_are_read_again;
use osm_json::{parts_are_read_again, texts_are_read_again, values_are_read_again};

/// A legal journal stays legal with exactly those entries behind it that may follow it, and each
/// beginning of it is legal.
pub fn legal_journals_grow()
    ensures more { (journal : List Entry) (entry : Entry) → IsLegal journal → may_follow journal entry ≡ true → IsLegal (journal ++ entry ∷ []) }
    ensures follows { (journal : List Entry) (entry : Entry) → IsLegal (journal ++ entry ∷ []) → may_follow journal entry ≡ true }
    ensures front { (journal more : List Entry) → IsLegal (journal ++ more) → IsLegal journal }
{}

/// Entries that have the same line are the same.
pub fn lines_tell_entries()
    ensures { (entry other : Entry) → IsEntry entry → IsEntry other → line entry ≡ line other → entry ≡ other }
{
    texts_are_read_again();
    parts_are_read_again();
    values_are_read_again();
    changes_are_read_again();
}

/// The line of an entry begins with `{`, and neither a byte 10 nor a byte 0 stands in it.
pub fn lines_are_plain()
    ensures begins { (entry : Entry) → (rest : List ℕ) × (line entry ≡ 123 ∷ rest) }
    ensures one { (entry : Entry) → IsEntry entry → is_one_line (line entry) ≡ true }
    ensures full { (entry : Entry) → IsEntry entry → has_no_zero (line entry) ≡ true }
{
    texts_are_read_again();
    parts_are_read_again();
}

/// Lines that are cut from a text and read one after another are the lines of that text: what is
/// kept at its end is its journal, and the fault of a line, or of a rest that no byte 10 ends, is the
/// text's.
pub fn lines_are_read_in_turn()
    ensures start { (version : Version) (text : List ℕ) → Reads version text [] text }
    ensures more { (version : Version) (text : List ℕ) (old new : List Entry) (rest bytes behind : List ℕ) → Reads version text old rest
        → parted 10 rest ≡ Some (bytes, behind) → Follows version old bytes new → FollowsAlone old bytes new → Reads version text new behind }
    ensures end { (version : Version) (text : List ℕ) (journal : List Entry) → Reads version text journal [] → (text ≡ lines journal)
        × ((es : List Entry) → All (IsEntryIn version) es → text ≡ lines es → journal ≡ es) }
    ensures open { (version : Version) (text : List ℕ) (journal : List Entry) (rest : List ℕ) → Reads version text journal rest → (rest ≡ [] → ⊥)
        → parted 10 rest ≡ None → IsLinesFault version (Line (length journal + 2)) text × IsRefused version (Line (length journal + 2)) text }
    ensures fault { (version : Version) (f : JournalFault) (text : List ℕ) (journal : List Entry) (rest bytes behind : List ℕ) → Reads version text journal rest
        → parted 10 rest ≡ Some (bytes, behind) → IsLineFault version f (length journal + 2) journal bytes → IsLinesFault version f text × IsRefused version f text }
{
    texts_are_read_again();
    parts_are_read_again();
}
