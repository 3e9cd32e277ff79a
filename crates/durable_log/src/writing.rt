//! How entries are written.
ghost use Rattle.std.specs.Prelude.{◌≡◌, ◌++◌, IfOk, OnOk};
ghost use Rattle.durable_log.specs.Held.{HaveALineEach};
ghost use Rattle.journal_file.specs.Whole.{AreLines};

use osm_base::Memory;

/// How the entries of a journal are written, each as one whole line.
pub trait Lines<E> {
    ghost use Rattle.std.specs.Prelude.{◌≡◌, ◌++◌, ℕ, List};

    // The lines of entries.
    ghost lines: { List E → List ℕ };

    // The text of a journal: a header, and the lines of its entries.
    ghost text: { List E → List ℕ };

    /// The lines of the entries, behind what is there already.
    fn lines_behind(bytes: Vec<u8>, entries: &[E]) -> Result<Vec<u8>, Memory>
        ensures lines { IfOk result (λ longer. longer.items ≡ bytes.items ++ lines entries.now) }
        ensures whole { OnOk result (AreLines (lines entries.now)) }
        ensures each { OnOk result (HaveALineEach lines entries.now) };

    // More entries have their lines behind.
    ghost more: { (entries others : List E) → text (entries ++ others) ≡ text entries ++ lines others };
}
