//! The shelf of a file that holds a whole journal.
ghost use Rattle.std.specs.Prelude.{◌≡◌, ◌∷◌, [], false, length, IfOk, IfErr};
ghost use Rattle.durable_log.specs.Held.{HoldsFrom, LeavesAll};
ghost use Rattle.durable_log.specs.Receipts.{Receipt};
ghost use Rattle.kept_serve.specs.Ports.{IsSealedWith};

use durable_log::{Lines, Receipt, Shelf};
use journal_file::{Device, JournalFile};
use shared_front::{Front, HubName, Opened};
use std::alloc::Global;
use std::sync::Wait;

/// The device of a shelf, once no call of it has failed. None has, where no entries were asked for: no
/// run has shown otherwise, and where one has this waits for ever.
fn leave_whole<N: HubName, K: HubName, E, T: Lines<E>, V: Device, W: Wait>(
    rt: &W,
    shelf: Shelf<N, K, E, T, V>,
) -> V
    ensures same { result ≡ shelf.device }
    ensures fine { V.faults result ≡ 0 }
{
    for _ in rt.forever() {
        if !shelf.is_broken() {
            shelf.law();
            return shelf.into_device();
        }
    }
    unreachable!()
}

/// The shelf of a file that holds all that this front has, and the first receipt, which is for that.
/// The device comes back where no receipt was given, and no call of it has failed then. What every crash
/// left of the front it leaves still.
pub fn shelve<N: HubName, K: HubName, E, T: Lines<E>, V: Device, W: Wait>(
    rt: &W,
    alloc: Global,
    file: JournalFile<V>,
    front: Front<N, E>,
    opened: Opened<Receipt>,
) -> Result<(Shelf<N, K, E, T, V>, Front<K, Receipt>), V>
    requires named { opened ≡ K.book }
    requires text { file.text ≡ T.text front }
    ensures entries { IfOk result (λ r. r.0.entries ≡ front) }
    ensures receipts { IfOk result (λ r. r.1 ≡ r.0.receipts) }
    ensures first { IfOk result (λ r. (receipt : Receipt) × (r.0.receipts ≡ receipt ∷ []) × (receipt.count ≡ length front)) }
    ensures err { IfErr result (λ device. HoldsFrom T.text V.left_since file.device (V.moment file.device) (length front) front
        → HoldsFrom T.text V.left_since device (V.moment device) (length front) front) }
    ensures fine { IfErr result (λ device. V.faults device ≡ 0) }
{
    let (tail, none) = opened.named::<K>();
    let all = front.again();
    let mut shelf = Shelf::<N, K, E, T, V>::new(file, front, tail, none);
    match shelf.keep(alloc, &[], all) {
        Ok(()) => {
            let had = shelf.receipts();
            Ok((shelf, had))
        }
        Err(_) => Err(leave_whole(rt, shelf)),
    }
}

/// The device of a shelf by which nobody was served, once that has given this first receipt and has all
/// that the receipt is for, and no call of it has failed. It is so at once; where it isn't, which no
/// run has shown, this waits for ever.
pub fn leave_shelf<N: HubName, K: HubName, E, T: Lines<E>, V: Device, W: Wait>(
    rt: &W,
    first: &Front<N, E>,
    had: &Front<K, Receipt>,
    shelf: Shelf<N, K, E, T, V>,
) -> V
    requires { (receipt : Receipt) × (had.now ≡ receipt ∷ []) × (receipt.count ≡ length first.now) }
    ensures leaves { LeavesAll T.text V.moment V.left_since result first.now }
    ensures fine { V.faults result ≡ 0 }
{
    for _ in rt.forever() {
        if !shelf.is_broken() && shelf.gave(had) && first.begins(shelf.front()) {
            shelf.law();
            return shelf.into_device();
        }
    }
    unreachable!()
}

/// The shelf, sealed, as a stop leaves it, but where its file is full. Where a call of its device fails,
/// the shelf is broken.
pub fn seal_shelf<N: HubName, K: HubName, E, T: Lines<E>, V: Device>(
    shelf: Shelf<N, K, E, T, V>,
) -> Shelf<N, K, E, T, V>
    ensures entries { result.entries ≡ shelf.entries }
    ensures receipts { result.receipts ≡ shelf.receipts }
    ensures sealed { result.broken ≡ false → IsSealedWith T.text V.seen shelf.entries result.device }
{
    let mut shelf = shelf;
    let _sealed = shelf.seal();
    shelf
}
