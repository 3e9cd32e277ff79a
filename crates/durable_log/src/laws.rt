//! Entries that have a line each.
ghost use Rattle.std.specs.Prelude.{◌≡◌, ◌++◌, ◌∷◌, [], List, ℕ};
ghost use Rattle.durable_log.specs.Held.{HaveOneLine, HaveALineEach};
ghost use Rattle.journal_file.specs.Whole.{AreLines};

use journal_file::batch_law;

/// A law, for whoever writes entries: where each has one line, which begins with `{` and is ended by
/// byte 10, those are whole lines, and each front of whole lines has those of the first entries.
pub fn lines_law<E>()
    ensures { (line : E → List ℕ) (lines : List E → List ℕ) → lines [] ≡ [] → ((e : E) (es : List E) → lines (e ∷ es) ≡ line e ++ 10 ∷ lines es)
        → (entries : List E) → HaveOneLine line entries → AreLines (lines entries) × HaveALineEach lines entries }
{
    batch_law();
}
