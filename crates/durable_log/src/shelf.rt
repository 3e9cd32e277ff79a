//! The file of a journal that several sessions add to, and the receipts of what it holds.
ghost use Rattle.std.specs.Prelude.{◌≡◌, ◌≤◌, ◌<◌, ◌^◌, ◌++◌, ◌∷◌, ◌⊎◌, [], ℕ, true, false, List, length, IsTrue, ◌↔◌, OnOk, IsErrOf};
ghost use mathlib.Core.List.{IsPrefix};
ghost use Rattle.durable_log.specs.Held.{HoldsFrom};
ghost use Rattle.durable_log.specs.Receipts.{AreKept, last_count, shelved};
ghost use Rattle.durable_log.specs.declared.keeping.KeepFault.{KeepFault};
ghost use Rattle.journal_file.specs.Settled.{IsSealed};
ghost use Rattle.receipts.specs.declared.receipt.Receipt.{Receipt};

use crate::keeping::{KeepFault, keep};
use crate::writing::Lines;
use journal_file::{AppendFault, Device, JournalFile};
use receipts::{Moment, Receipt};
use shared_front::{Front, HubName, Tail};
use std::alloc::Global;
use std::marker::{Model, PhantomData};

/// The most receipts that are given.
const MOST: u64 = 1 << 61;

/// A file that holds a beginning of the shared list `N`, and the receipts for that, which are a list
/// `K` of their own. Contracts see its device, what the file may hold of the list, the receipts, and
/// whether a call of the device has failed; then nothing more is kept, and it may hold less.
#[derive(Drop)]
pub struct Shelf<N: HubName, K: HubName, E, T: Lines<E>, D: Device> {
    file: JournalFile<D>,
    front: Front<N, E>,
    tail: Tail<K, Receipt>,
    receipts: Front<K, Receipt>,
    of: PhantomData<T>,
}

impl<N: HubName, K: HubName, E, T: Lines<E>, D: Device> Model for Shelf<N, K, E, T, D> {
    ghost use Rattle.std.specs.Prelude.{◌≡◌, false};
    ghost use Rattle.durable_log.specs.Receipts.{Shelved, shelved, AreKept};

    ghost Value = { Shelved E D };

    ghost view = { λ s. shelved s.file.device s.front s.receipts s.file.broken };

    ghost invariant = { λ s. (s.file.broken ≡ false → s.file.text ≡ T.text s.front)
        × AreKept T.text D.moment D.left_since s.file.device s.front s.receipts };
}

/// Gives a receipt for so many entries at this moment, and says whether it did. It didn't where there
/// are more receipts than these, which no run has shown.
fn give<K: HubName, D: Device>(
    file: &JournalFile<D>,
    count: u64,
    tail: &Tail<K, Receipt>,
    receipts: &mut Front<K, Receipt>,
) -> bool
    requires { length receipts.old < 2 ^ 62 }
    ensures given { IsTrue result → (r : Receipt) × (r.count ≡ count) × (r.moment.at ≡ D.moment file.now.device) × (receipts.new ≡ receipts.old ++ r ∷ []) }
    ensures kept { result ≡ false → receipts.new ≡ receipts.old }
{
    let receipt = Receipt {
        count,
        moment: Moment::now(file.device()),
    };
    let mut more = receipts.again();
    if !more.add(tail, &receipt) {
        return false;
    }
    *receipts = more;
    true
}

impl<N: HubName, K: HubName, E, T: Lines<E>, D: Device> Shelf<N, K, E, T, D> {
    /// The shelf of a file that holds this beginning of the list, with no receipt yet.
    pub fn new(
        file: JournalFile<D>,
        front: Front<N, E>,
        tail: Tail<K, Receipt>,
        receipts: Front<K, Receipt>,
    ) -> Shelf<N, K, E, T, D>
        requires text { file.text ≡ T.text front }
        requires none { receipts ≡ [] }
        ensures { result ≡ shelved file.device front [] file.broken }
    {
        Shelf {
            file,
            front,
            tail,
            receipts,
            of: PhantomData,
        }
    }

    /// What the file may hold of the list.
    pub fn front(&self) -> &Front<N, E>
        ensures { result.now ≡ self.now.entries }
    {
        &self.front
    }

    /// The receipts so far.
    pub fn receipts(&self) -> Front<K, Receipt>
        ensures { result ≡ self.now.receipts }
    {
        self.receipts.again()
    }

    /// The device of its file.
    pub fn device(&self) -> &D
        ensures { result.now ≡ self.now.device }
    {
        self.file.device()
    }

    /// The device of its file alone.
    pub fn into_device(self) -> D
        ensures { result ≡ self.device }
    {
        let Shelf {
            file,
            front: _,
            tail: _,
            receipts: _,
            of: _,
        } = self;
        file.into_device()
    }

    /// Whether a call of the device has failed: then nothing more is kept.
    pub fn is_broken(&self) -> bool
        ensures { result ≡ self.now.broken }
    {
        self.file.is_broken()
    }

    /// Has the file hold the entries of a longer beginning of the list, whose entries behind those
    /// that it holds are these, and gives a receipt for them.
    pub fn keep(
        &mut self,
        alloc: Global,
        entries: &[E],
        longer: Front<N, E>,
    ) -> Result<(), KeepFault>
        requires { longer ≡ self.old.entries ++ entries.now }
        ensures ok { OnOk result ((self.new.entries ≡ longer) × (last_count self.new.receipts ≡ length longer)) }
        ensures given { OnOk result ((r : Receipt) × (r.count ≡ length longer) × (self.new.receipts ≡ self.old.receipts ++ r ∷ [])) }
        ensures receipts { IsPrefix self.old.receipts self.new.receipts }
        ensures entries { IsPrefix self.old.entries self.new.entries }
        ensures memory { IsErrOf result KeepFault.Memory → self.new ≡ self.old }
        ensures full { IsErrOf result KeepFault.Full → (self.new ≡ self.old)
            × ((2 ^ 61 ≤ length self.old.receipts) ⊎ (2 ^ 62 ≤ length (D.seen self.old.device))) }
        ensures failed { IsErrOf result KeepFault.File → self.new.broken ≡ true }
        // What every crash left of the list from a moment on, it leaves from then on still.
        ensures time { D.moment self.old.device ≤ D.moment self.new.device }
        ensures stays { (t k : ℕ) → k ≤ length self.old.entries → t ≤ D.moment self.old.device → HoldsFrom T.text D.left_since self.old.device t k self.old.entries
            → HoldsFrom T.text D.left_since self.new.device t k longer }
    {
        if self.file.is_broken() {
            return Err(KeepFault::File);
        }
        if self.receipts.len() >= MOST {
            return Err(KeepFault::Full);
        }
        match keep::<E, T, D>(alloc, &mut self.file, entries) {
            Ok(()) => {
                let count = longer.len();
                self.front = longer;
                if give(&self.file, count, &self.tail, &mut self.receipts) {
                    Ok(())
                } else {
                    Err(KeepFault::Mismatched)
                }
            }
            Err(KeepFault::Memory) => Err(KeepFault::Memory),
            Err(KeepFault::Full) => Err(KeepFault::Full),
            Err(KeepFault::Mismatched) => Err(KeepFault::Mismatched),
            Err(KeepFault::File) => {
                self.front = longer;
                Err(KeepFault::File)
            }
        }
    }

    /// Has the file tell from now on where a byte of its last batch is lost, by two empty lines behind it.
    /// A stop does so as the last thing. Where a call of the device fails, the shelf is broken.
    pub fn seal(&mut self) -> Result<(), KeepFault>
        ensures sealed { OnOk result (IsSealed (T.text self.old.entries) (D.seen self.old.device) (D.seen self.new.device)) }
        ensures entries { self.new.entries ≡ self.old.entries }
        ensures receipts { self.new.receipts ≡ self.old.receipts }
        ensures going { OnOk result (self.new.broken ≡ false) }
        ensures full { IsErrOf result KeepFault.Full → (self.new ≡ self.old) × (2 ^ 62 ≤ length (D.seen self.old.device)) }
        ensures failed { IsErrOf result KeepFault.File → self.new.broken ≡ true }
        // So where no call of the device has failed it is sealed, or was full.
        ensures sealed_or_full { self.new.broken ≡ false → IsSealed (T.text self.old.entries) (D.seen self.old.device) (D.seen self.new.device)
            ⊎ ((self.new ≡ self.old) × (2 ^ 62 ≤ length (D.seen self.old.device))) }
        // What every crash left of the list from a moment on, it leaves from then on still.
        ensures time { D.moment self.old.device ≤ D.moment self.new.device }
        ensures stays { (t k : ℕ) → k ≤ length self.old.entries → t ≤ D.moment self.old.device → HoldsFrom T.text D.left_since self.old.device t k self.old.entries
            → HoldsFrom T.text D.left_since self.new.device t k self.old.entries }
    {
        if self.file.is_broken() {
            return Err(KeepFault::File);
        }
        match self.file.seal() {
            Ok(()) => Ok(()),
            Err(AppendFault::Full) => Err(KeepFault::Full),
            Err(AppendFault::Failed) => Err(KeepFault::File),
        }
    }

    /// Whether these receipts are its first ones, which they are exactly where they are no more: then
    /// each of them is kept.
    pub fn gave(&self, receipts: &Front<K, Receipt>) -> bool
        ensures exact { IsTrue result ↔ (length receipts.now ≤ length self.now.receipts) }
        ensures kept { IsTrue result → AreKept T.text D.moment D.left_since self.now.device self.now.entries receipts.now }
    {
        receipts.begins(&self.receipts)
    }

    /// A law: each receipt is kept. From its moment on, which has come, every crash leaves a beginning
    /// of the list with at least the entries that it is for. The shelf is broken just where a call of
    /// the device has failed.
    pub fn law(&self)
        ensures kept { AreKept T.text D.moment D.left_since self.now.device self.now.entries self.now.receipts }
        ensures fine { self.now.broken ≡ false → D.faults self.now.device ≡ 0 }
        ensures failed { self.now.broken ≡ true → 0 < D.faults self.now.device }
    {
        self.file.law();
    }
}

/// A law: what is kept of a list is kept of each longer one, as the journal of a hub that is closed.
pub fn receipts_stay<E, T: Lines<E>, D: Device>()
    ensures { (device : D) (entries longer : List E) (receipts : List Receipt) → IsPrefix entries longer
        → AreKept T.text D.moment D.left_since device entries receipts → AreKept T.text D.moment D.left_since device longer receipts }
{}
