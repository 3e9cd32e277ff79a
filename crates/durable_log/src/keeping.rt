//! Entries that a file gets behind those that it holds.
ghost use Rattle.std.specs.Prelude.{◌≡◌, ◌≤◌, ◌+◌, ◌^◌, ◌++◌, ℕ, true, false, List, length, IfOk, OnOk, IsErrOf};
ghost use Rattle.durable_log.specs.Held.{HaveALineEach, HoldsFrom};
ghost use Rattle.durable_log.specs.declared.keeping.KeepFault.{KeepFault};
ghost use Rattle.journal_file.specs.Whole.{whole, IsBatch};

use crate::writing::Lines;
use journal_file::{AppendFault, Device, JournalFile, batch_law};
use osm_base::Memory;
use std::alloc::Global;

/// Why entries were not kept.
#[derive(Clone, Copy, PartialEq, Eq)]
pub enum KeepFault {
    /// There was no memory for their lines. The file is as it was, and goes on.
    Memory,
    /// There is no room for them: in the file, which takes 2^62 bytes, or in the list of receipts, which
    /// takes 2^61. No run has shown it.
    Full,
    /// What was to be kept isn't of the file's list, as far as can be seen: they lack entries of each
    /// other, or there are receipts that the file lacks. No run has shown it.
    Mismatched,
    /// A call of the device has failed: the file takes no more until it is opened again.
    File,
}

impl From<Memory> for KeepFault {
    ghost use Rattle.std.specs.Prelude.{◌≡◌};
    ghost use Rattle.durable_log.specs.declared.keeping.KeepFault.TheVariants as fault;

    ghost from_gives = { λ _ why. why ≡ fault.Memory };

    fn from(_refused: Memory) -> KeepFault {
        KeepFault::Memory
    }
}

/// The lines of the entries, and an empty one behind them.
fn batch_of<E, T: Lines<E>>(alloc: Global, entries: &[E]) -> Result<Vec<u8>, Memory>
    ensures batch { IfOk result (λ batch. IsBatch batch.items) }
    ensures lines { IfOk result (λ batch. whole batch.items ≡ T.lines entries.now) }
    ensures each { OnOk result (HaveALineEach T.lines entries.now) }
{
    batch_law();
    let mut batch = T::lines_behind(Vec::new(alloc), entries)?;
    batch.push(b'\n')?;
    Ok(batch)
}

/// Has the file hold these entries behind those that it holds. At `Ok` every crash from then on
/// leaves all of them. At each moment before, and after a fault too, a crash leaves a beginning of
/// them that has at least what each moment before promised.
pub fn keep<E, T: Lines<E>, D: Device>(
    alloc: Global,
    file: &mut JournalFile<D>,
    entries: &[E],
) -> Result<(), KeepFault>
    ensures text { OnOk result ((held : List E) → file.old.text ≡ T.text held → file.new.text ≡ T.text (held ++ entries.now)) }
    ensures now { OnOk result ((held : List E) → file.old.text ≡ T.text held
        → HoldsFrom T.text D.left_since file.new.device (D.moment file.new.device) (length held + length entries.now) (held ++ entries.now)) }
    ensures each { (held : List E) (t k : ℕ) → file.old.text ≡ T.text held → k ≤ length held → t ≤ D.moment file.old.device
        → HoldsFrom T.text D.left_since file.old.device t k held → HoldsFrom T.text D.left_since file.new.device t k (held ++ entries.now) }
    ensures time { D.moment file.old.device ≤ D.moment file.new.device }
    ensures going { OnOk result ((file.old.broken ≡ false) × (file.new.broken ≡ false)) }
    ensures memory { IsErrOf result KeepFault.Memory → file.new ≡ file.old }
    ensures full { IsErrOf result KeepFault.Full → (file.new ≡ file.old) × (2 ^ 62 ≤ length (D.seen file.old.device)) }
    ensures matched { IsErrOf result KeepFault.Mismatched → ⊥ }
    ensures failed { IsErrOf result KeepFault.File → file.new.broken ≡ true }
{
    let batch = batch_of::<E, T>(alloc, entries)?;
    match file.append(&batch) {
        Ok(()) => {
            file.law();
            Ok(())
        }
        Err(AppendFault::Full) => Err(KeepFault::Full),
        Err(AppendFault::Failed) => Err(KeepFault::File),
    }
}
