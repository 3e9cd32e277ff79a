//! Who keeps the entries of a text as they are read.
//!
//! Whether an entry may come next is judged by a keeper, a trait with one call, so that a text can
//! be read onto any world that keeps the rules.
ghost use Rattle.std.specs.Prelude.{◌≡◌, List, IfOk};
ghost use Rattle.osm_model.specs.declared.commands.Entry.{Entry};
ghost use Rattle.journal_text.specs.Kept.{may_follow, kept_by};

use osm_base::Memory;
use osm_model::Entry;
use std::alloc::Global;

/// Keeps entries, each of which may follow those before it.
pub trait Keeper {
    // The entries that are kept, the first one first.
    ghost kept: { Self → List Entry };

    /// Whether the entry may come next: its command is accepted there at its own stamp, and its call
    /// is the next one of its session. Then it is kept at the end. Otherwise, and for want of memory,
    /// the keeper stays as it was.
    fn keep(&mut self, alloc: Global, entry: Entry) -> Result<bool, Memory>
        ensures answer { IfOk result (λ b. b ≡ may_follow (kept self.old) entry) }
        ensures kept { kept self.new ≡ kept_by result (kept self.old) entry };
}
