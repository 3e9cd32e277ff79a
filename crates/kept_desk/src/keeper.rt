//! What has replies wait until the file holds what they tell of.
ghost use Rattle.std.specs.Prelude.{◌≡◌, ◌≤◌, ◌∷◌, [], true, false, OnOk, OnErr, IsErrOf};
ghost use Rattle.http_link.specs.Desk.{showing};
ghost use Rattle.http_link.specs.declared.desk.Withheld.{Withheld};
ghost use mathlib.Core.List.{IsPrefix};
ghost use Rattle.durable_log.specs.Receipts.{last_count};
ghost use Rattle.session_desk.specs.Answered.{StaysOrFreshens};

use crate::inner::Inner;
use durable_log::{Behind, Board, KeepFault, Lines, Receipt, Shelf, receipts_for};
use http_link::Withheld;
use journal_file::Device;
use machine_law::Machine;
use osm_outside::{Outside, Witness};
use session_desk::SessionDesk;
use shared_front::{Front, HubName};
use snapshot_hub::Snapshot;
use std::alloc::Global;
use std::marker::{Model, PhantomData};
use std::sync::{Mutex, Wait};

/// What a desk keeps by that answers for a session: where the file's shelf is and the board where
/// its receipts are told, how many entries the desk's last reply may tell of, the receipts in hand, and
/// whether keeping failed. Contracts see the last three.
#[derive(Drop)]
pub struct Keeper<'a, N: HubName, K: HubName, E, T: Lines<E>, V: Device, W: Wait> {
    rt: &'a W,
    alloc: Global,
    shelf: &'a Mutex<Shelf<N, K, E, T, V>>,
    board: &'a Board<K>,
    tells_of: u64,
    receipts: Front<K, Receipt>,
    /// So many entries, at least, the last receipt in hand is for: what tells of no more needs no lock.
    held: u64,
    failed: bool,
}

impl<'a, N: HubName, K: HubName, E, T: Lines<E>, V: Device, W: Wait> Model
    for Keeper<'a, N, K, E, T, V, W> {
    ghost use Rattle.std.specs.Prelude.{◌≤◌};
    ghost use Rattle.kept_desk.specs.Kept.{InHand};
    ghost use Rattle.durable_log.specs.Receipts.{last_count};

    ghost Value = { InHand };

    ghost view = { λ k. record { tells_of = k.tells_of; receipts = k.receipts; failed = k.failed } };

    ghost invariant = { λ k. k.held ≤ last_count k.receipts };
}

impl<'a, N: HubName, K: HubName, E, T: Lines<E>, V: Device, W: Wait> Keeper<'a, N, K, E, T, V, W> {
    /// A keeper that has these receipts in hand, of a desk that has answered nothing.
    pub fn new(
        rt: &'a W,
        alloc: Global,
        shelf: &'a Mutex<Shelf<N, K, E, T, V>>,
        board: &'a Board<K>,
        receipts: Front<K, Receipt>,
    ) -> Keeper<'a, N, K, E, T, V, W>
        ensures { result ≡ record { tells_of = 0; receipts = receipts; failed = false } }
    {
        Keeper {
            rt,
            alloc,
            shelf,
            board,
            tells_of: 0,
            receipts,
            held: 0,
            failed: false,
        }
    }

    /// Notes how many entries the desk's last reply may tell of.
    pub fn note(&mut self, tells_of: u64)
        ensures { self.new ≡ record { tells_of = tells_of; receipts = self.old.receipts; failed = self.old.failed } }
    {
        self.tells_of = tells_of;
    }

    /// The receipts that it has in hand.
    pub fn receipts(&self) -> Front<K, Receipt>
        ensures { result ≡ self.now.receipts }
    {
        self.receipts.again()
    }

    /// Shows a link the receipts that it has in hand.
    fn show<L: Witness>(&self, link: &mut L)
        ensures { L.told link.new ≡ showing (self.now.receipts ∷ []) (L.told link.old) }
    {
        link.show(&self.receipts);
    }

    /// Whether a reply was withheld because keeping failed.
    pub fn has_failed(&self) -> bool
        ensures { result ≡ self.now.failed }
    {
        self.failed
    }

    /// The receipts in hand, when the desk is done.
    pub fn into_receipts(self) -> Front<K, Receipt>
        ensures { result ≡ self.entry.receipts }
    {
        let Keeper {
            rt: _rt,
            alloc: _alloc,
            shelf: _shelf,
            board: _board,
            tells_of: _tells_of,
            receipts,
            held: _held,
            failed: _failed,
        } = self;
        receipts
    }
}

/// Has the file hold what the desk's last reply may tell of, by the entries that this source has, and
/// takes the receipt for it, unless one in hand is for as much. Where a call of the device has failed
/// it notes that. Receipts that are older than those in hand are none for it: they aren't of one list
/// with those, as far as can be seen, and no run has shown them.
fn keep_for<N: HubName, K: HubName, E: Drop, T: Lines<E>, V: Device, B: Behind<N, E>, W: Wait>(
    keeper: &mut Keeper<'_, N, K, E, T, V, W>,
    source: &mut B,
) -> Result<(), Withheld>
    ensures source { B.becomes source.old source.new }
    ensures stays { keeper.new.tells_of ≡ keeper.old.tells_of }
    ensures receipts { IsPrefix keeper.old.receipts keeper.new.receipts }
    ensures tells { OnOk result (keeper.new.tells_of ≤ last_count keeper.new.receipts) }
    ensures noted { IsErrOf result Withheld.Failed → keeper.new.failed ≡ true }
    ensures failed { keeper.old.failed ≡ true → keeper.new.failed ≡ true }
{
    let count = keeper.tells_of;
    if count <= keeper.held {
        return Ok(());
    }
    let (rt, alloc) = (keeper.rt, keeper.alloc);
    let (shelf, board) = (keeper.shelf, keeper.board);
    match receipts_for(rt, alloc, shelf, board, source, count) {
        Ok(receipts) => {
            if !keeper.receipts.begins(&receipts) {
                return Err(Withheld::Mismatched);
            }
            keeper.receipts = receipts;
            keeper.held = count;
            Ok(())
        }
        Err(KeepFault::File) => {
            keeper.failed = true;
            Err(Withheld::Failed)
        }
        Err(KeepFault::Memory) => Err(Withheld::Memory),
        Err(KeepFault::Full) => Err(Withheld::Full),
        Err(KeepFault::Mismatched) => Err(Withheld::Mismatched),
    }
}

/// The same, and shows the link the receipts that are in hand then. Where it fails, the link is shown nothing.
pub fn keep_from<
    N: HubName,
    K: HubName,
    E: Drop,
    T: Lines<E>,
    V: Device,
    B: Behind<N, E>,
    W: Wait,
    L: Witness,
>(keeper: &mut Keeper<'_, N, K, E, T, V, W>, source: &mut B, link: &mut L) -> Result<(), Withheld>
    ensures source { B.becomes source.old source.new }
    ensures stays { keeper.new.tells_of ≡ keeper.old.tells_of }
    ensures receipts { IsPrefix keeper.old.receipts keeper.new.receipts }
    ensures tells { OnOk result (keeper.new.tells_of ≤ last_count keeper.new.receipts) }
    ensures shown { OnOk result (L.told link.new ≡ showing (keeper.new.receipts ∷ []) (L.told link.old)) }
    ensures unshown { OnErr result (L.told link.new ≡ L.told link.old) }
    ensures noted { IsErrOf result Withheld.Failed → keeper.new.failed ≡ true }
    ensures failed { keeper.old.failed ≡ true → keeper.new.failed ≡ true }
{
    keep_for(keeper, source)?;
    keeper.show(link);
    Ok(())
}

/// The same by the desk itself, which has the entries of its session.
pub fn keep<
    N: HubName,
    K: HubName,
    M: Machine,
    S: Snapshot<N, M>,
    T: Lines<M::Entry>,
    V: Device,
    D: SessionDesk<N, M, S>,
    W: Wait,
    L: Witness,
>(
    keeper: &mut Keeper<'_, N, K, M::Entry, T, V, W>,
    desk: &mut D,
    link: &mut L,
) -> Result<(), Withheld>
    ensures session { StaysOrFreshens M.rules (D.keeps desk.old) (D.keeps desk.new) }
    ensures stays { keeper.new.tells_of ≡ keeper.old.tells_of }
    ensures receipts { IsPrefix keeper.old.receipts keeper.new.receipts }
    ensures tells { OnOk result (keeper.new.tells_of ≤ last_count keeper.new.receipts) }
    ensures shown { OnOk result (L.told link.new ≡ showing (keeper.new.receipts ∷ []) (L.told link.old)) }
    ensures unshown { OnErr result (L.told link.new ≡ L.told link.old) }
    ensures noted { IsErrOf result Withheld.Failed → keeper.new.failed ≡ true }
    ensures failed { keeper.old.failed ≡ true → keeper.new.failed ≡ true }
{
    let mut source = Inner {
        desk,
        of: PhantomData,
    };
    keep_from(keeper, &mut source, link)
}
