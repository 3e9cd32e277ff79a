//! Entries that were read, as a keeper of the map judges them.
ghost use Rattle.std.specs.Prelude.{◌≡◌, ◌++◌, List, IfErr, OnOk};
ghost use Rattle.journal_recovery.specs.declared.faults.TextFault.{TextFault};
ghost use Rattle.osm_model.specs.Journal.{IsLegal};
ghost use Rattle.osm_model.specs.declared.commands.Entry.{Entry};

use journal_recovery::TextFault;
use journal_text::{Keeper, legal_journals_grow};
use osm_model::Entry;
use std::alloc::Global;

/// Has entries judged and kept by a keeper, each behind those before it.
pub fn keep_all<K: Keeper>(
    alloc: Global,
    mut read: Vec<Entry>,
    keeper: &mut K,
) -> Result<(), TextFault>
    ensures kept { OnOk result (K.kept keeper.new ≡ K.kept keeper.old ++ read.items) }
    ensures refused { IfErr result (λ fault. fault ≡ TextFault.NoJournal → (more : List Entry) → IsLegal ((K.kept keeper.old ++ read.items) ++ more) → ⊥) }
{
    legal_journals_grow();
    read.reverse();
    'entries: while let Some(entry) = read.pop() {
        let kept = keeper.keep(alloc, entry)?;
        if !kept {
            return Err(TextFault::NoJournal);
        }
    }
    Ok(())
}
