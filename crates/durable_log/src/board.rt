//! Who has the file hold what a list has, while others wait for it.
ghost use Rattle.std.specs.Prelude.{◌≡◌, ◌≤◌, IfOk, IfSome};
ghost use Rattle.durable_log.specs.Receipts.{last_count};

use crate::keeping::KeepFault;
use crate::shelf::Shelf;
use crate::told::Told;
use crate::writing::Lines;
use journal_file::Device;
use osm_base::Memory;
use receipts::Receipt;
use shared_front::{Front, HubName};
use std::alloc::Global;
use std::sync::{Condvar, Mutex, Wait};

/// Why a source has no entries for a file.
#[derive(Clone, Copy, PartialEq, Eq)]
pub enum SourceFault {
    /// There was no memory for them.
    Memory,
    /// The source and the file aren't of one list, as far as can be seen. No run has shown it.
    Mismatched,
}

impl From<Memory> for SourceFault {
    fn from(_refused: Memory) -> SourceFault {
        SourceFault::Memory
    }
}

impl From<SourceFault> for KeepFault {
    fn from(why: SourceFault) -> KeepFault {
        match why {
            SourceFault::Memory => KeepFault::Memory,
            SourceFault::Mismatched => KeepFault::Mismatched,
        }
    }
}

/// Who has the entries of a list that a file lacks.
pub trait Behind<N: HubName, E> {
    ghost use Rattle.std.specs.Prelude.{◌≡◌, ◌++◌, IfOk};

    // What a source may have become, once it was asked or wasn't.
    ghost becomes: { Self → Self → Type 0 };

    // It may be what it was.
    ghost stays: { (source : Self) → becomes source source };

    /// The entries behind this beginning of the list, and the longer one that they make of it.
    fn behind(&mut self, front: &Front<N, E>) -> Result<(Vec<E>, Front<N, E>), SourceFault>
        ensures entries { IfOk result (λ r. r.1 ≡ front.now ++ r.0.items) }
        ensures becomes { becomes self.old self.new };
}

/// What is told, and the batch that is being written or that is written next.
#[derive(Drop)]
struct Turn<K: HubName> {
    told: Told<K>,
    is_taken: bool,
    /// Whether that batch has an odd number.
    is_odd: bool,
    /// How many entries the file holds once it is written, as soon as that is known.
    comes_to: Option<u64>,
}

impl<K: HubName> Turn<K> {
    /// Whether the batch whose end is to be waited for, for so many entries, has an odd number: that
    /// which is being written, unless it is known to come to fewer.
    fn serves_odd(&self, count: u64) -> bool {
        let next = self.comes_to.is_some_and(|all| all < count);
        self.is_odd != next
    }
}

/// Where receipts are told. One of those who ask has the file written, and all others wait until that
/// is done: then each that finds its entries kept goes on at once, and one of the rest writes next.
#[derive(Drop)]
pub struct Board<K: HubName> {
    turn: Mutex<Turn<K>>,
    even_ended: Condvar,
    odd_ended: Condvar,
}

impl<K: HubName> Board<K> {
    /// A board that tells this, and nobody writes.
    pub fn new(told: Told<K>) -> Board<K> {
        let turn = Turn {
            told,
            is_taken: false,
            is_odd: false,
            comes_to: None,
        };
        Board {
            turn: Mutex::new(turn),
            even_ended: Condvar::new(),
            odd_ended: Condvar::new(),
        }
    }

    /// Where one waits for the end of a batch with an odd number, or with an even one.
    fn ended(&self, is_odd: bool) -> &Condvar {
        if is_odd {
            &self.odd_ended
        } else {
            &self.even_ended
        }
    }

    /// The receipts that are told once the last is for so many entries at least, or `None`: then it is
    /// the caller's turn to write, until it ends that.
    fn receipts_or_turn<R: Wait>(&self, rt: &R, count: u64) -> Option<Front<K, Receipt>>
        ensures { IfSome result (λ receipts. count ≤ last_count receipts) }
    {
        let mut turn = self.turn.lock(rt);
        for _ in rt.forever() {
            if turn.told.count() >= count {
                return Some(turn.told.receipts());
            }
            if !turn.is_taken {
                turn.is_taken = true;
                return None;
            }
            let ended = self.ended(turn.serves_odd(count));
            turn = ended.wait(rt, turn);
        }
        unreachable!()
    }

    /// Tells those who come from now on that the file holds so many entries once the caller's turn has
    /// ended: who needs more isn't woken then.
    fn comes_to<R: Wait>(&self, rt: &R, all: u64) {
        self.turn.lock(rt).comes_to = Some(all);
    }

    /// Ends the caller's turn, tells what it came to, and wakes one of those who wait for the next
    /// batch, to write it, and all who wait for this one.
    fn end_turn<R: Wait>(&self, rt: &R, told: Option<Told<K>>) {
        let mut turn = self.turn.lock(rt);
        let was_odd = turn.is_odd;
        turn.is_taken = false;
        turn.is_odd = !was_odd;
        turn.comes_to = None;
        if let Some(told) = told {
            turn.told = told;
        }
        drop(turn);
        self.ended(!was_odd).notify_one();
        self.ended(was_odd).notify_all();
    }
}

/// Has the file hold all that the source has, which are so many entries at least, and tells of it. The
/// lock of the shelf is held while the source is asked and the disk is waited for, so no source may
/// need it.
fn keep_all<N: HubName, K: HubName, E: Drop, T: Lines<E>, D: Device, B: Behind<N, E>, R: Wait>(
    rt: &R,
    alloc: Global,
    shelf: &Mutex<Shelf<N, K, E, T, D>>,
    board: &Board<K>,
    source: &mut B,
    count: u64,
) -> Result<Told<K>, KeepFault>
    ensures enough { IfOk result (λ told. count ≤ last_count told) }
    ensures source { B.becomes source.old source.new }
{
    let mut shelf = shelf.lock(rt);
    let (entries, longer) = source.behind(shelf.front())?;
    let all = longer.len();
    if all < count {
        // The source lacks them, so no file can be made to hold them.
        return Err(KeepFault::Mismatched);
    }
    board.comes_to(rt, all);
    shelf.keep(alloc, &entries, longer)?;
    Ok(Told::of(shelf.receipts(), all))
}

/// Receipts of which the last is for so many entries at least: those that are told already, or else
/// the file is made to hold all that there is now, for everybody who waits. A reply that tells of so
/// many entries may be sent then.
pub fn receipts_for<
    N: HubName,
    K: HubName,
    E: Drop,
    T: Lines<E>,
    D: Device,
    B: Behind<N, E>,
    R: Wait,
>(
    rt: &R,
    alloc: Global,
    shelf: &Mutex<Shelf<N, K, E, T, D>>,
    board: &Board<K>,
    source: &mut B,
    count: u64,
) -> Result<Front<K, Receipt>, KeepFault>
    ensures enough { IfOk result (λ receipts. count ≤ last_count receipts) }
    ensures source { B.becomes source.old source.new }
{
    if let Some(receipts) = board.receipts_or_turn(rt, count) {
        return Ok(receipts);
    }
    // A turn that isn't ended has all others wait for ever, so no way out may stand before its end.
    match keep_all(rt, alloc, shelf, board, source, count) {
        Ok(told) => {
            let receipts = told.receipts();
            board.end_turn(rt, Some(told));
            Ok(receipts)
        }
        Err(why) => {
            board.end_turn(rt, None);
            Err(why)
        }
    }
}
