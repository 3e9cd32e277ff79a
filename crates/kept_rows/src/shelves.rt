//! Marks that are kept in a file in memory: by two threads, by one for many, and where it fails.
ghost use Rattle.std.specs.Prelude.{◌≡◌, []};

use crate::marks::{HEADER, MARKS, MarkShelf, Marks, Source, text_of};
use crate::texts::text_in;
use durable_log::{Board, KeepFault, Receipt, Shelf, Told, receipts_for};
use journal_file::{Deed, JournalFile, MemFile};
use osm_base::Memory;
use row_lines::Tally;
use shared_front::{Front, HubName, Opened, Tail};
use std::alloc::Global;
use std::marker::Brand;
use std::sync::{Mutex, Wait};
use std::thread::{Threads, join};

/// A shelf with no mark, whose file has so many calls done and then fails.
fn empty<N: HubName, K: HubName>(
    alloc: Global,
    left: u64,
    front: Front<N, bool>,
    tail: Tail<K, Receipt>,
    receipts: Front<K, Receipt>,
) -> Result<MarkShelf<N, K>, KeepFault>
    requires marks { front ≡ [] }
    requires receipts { receipts ≡ [] }
{
    let bytes = b"m\n".to_vec(alloc).map_err(Memory::from)?;
    let device = MemFile::new(alloc, bytes.to_vec(alloc).map_err(Memory::from)?, left);
    match JournalFile::open(device, &bytes, &HEADER) {
        Ok(file) => Ok(Shelf::new(file, front, tail, receipts)),
        Err(_) => Err(KeepFault::File),
    }
}

/// Adds marks, each of which is kept before the next is added: whether all receipts for them stand.
fn mark<N: HubName, K: HubName, R: Wait>(
    rt: &R,
    alloc: Global,
    shelf: &Mutex<MarkShelf<N, K>>,
    board: &Board<K>,
    marks: &Mutex<Marks<N>>,
    mark: bool,
) -> Result<bool, KeepFault> {
    let mut source = Source { rt, alloc, marks };
    let mut right = true;
    for _ in 0..MARKS {
        let count = marks.lock(rt).add(mark)?;
        let receipts = receipts_for(rt, alloc, shelf, board, &mut source, count)?;
        right &= shelf.lock(rt).gave(&receipts);
    }
    Ok(right)
}

/// How many syncs there were.
fn syncs(deeds: &[Deed]) -> u64 {
    let mut count = 0_u64;
    for deed in deeds {
        if matches!(deed, Deed::Synced) {
            count = count.saturating_add(1);
        }
    }
    count
}

/// Whether the file has all marks of both threads, and each receipt took two syncs.
fn has_all<N: HubName, K: HubName>(
    alloc: Global,
    marks: &Marks<N>,
    shelf: &MarkShelf<N, K>,
) -> Result<bool, Memory> {
    let file = shelf.device();
    let all = marks.marks.as_slice();
    let whole = text_in(alloc, file.bytes())?.as_slice() == text_of(alloc, all)?.as_slice();
    let yes = all.iter().filter(|mark| **mark).count();
    let counted = all.len() == 2 * MARKS && yes == MARKS;
    let given = shelf.receipts().len();
    Ok(whole && counted && syncs(file.deeds()) == given.saturating_mul(2))
}

/// The receipts for so many marks.
fn receipts_at<N: HubName, K: HubName, R: Wait>(
    rt: &R,
    alloc: Global,
    shelf: &Mutex<MarkShelf<N, K>>,
    board: &Board<K>,
    marks: &Mutex<Marks<N>>,
    count: u64,
) -> Result<Front<K, Receipt>, KeepFault> {
    let mut source = Source { rt, alloc, marks };
    receipts_for(rt, alloc, shelf, board, &mut source, count)
}

/// Whether the file has all that both threads kept. The last receipt is told, so this asks nothing of the file.
fn has_both<N: HubName, K: HubName, R: Wait>(
    rt: &R,
    alloc: Global,
    shelf: &Mutex<MarkShelf<N, K>>,
    board: &Board<K>,
    marks: &Mutex<Marks<N>>,
) -> Result<bool, KeepFault> {
    let told = receipts_at(rt, alloc, shelf, board, marks, 2 * MARKS as u64)?;
    let right = has_all(alloc, &marks.lock(rt), &shelf.lock(rt))?;
    Ok(right && shelf.lock(rt).receipts().len() == told.len())
}

fn keep_both<N: HubName + Send + Sync, K: HubName + Send + Sync, R: Threads + Wait + Sync>(
    rt: &R,
    alloc: Global,
    shelf: &Mutex<MarkShelf<N, K>>,
    board: &Board<K>,
    marks: &Mutex<Marks<N>>,
) -> Result<bool, KeepFault> {
    let (one, other) = join(
        rt,
        || mark(rt, alloc, shelf, board, marks, true),
        || mark(rt, alloc, shelf, board, marks, false),
    );
    Ok(one? && other? && has_both(rt, alloc, shelf, board, marks)?)
}

/// Two threads keep marks in one file. It holds all of both in the end, in the order of the list, and
/// each receipt took two syncs.
fn by_two<N: HubName + Send + Sync, K: HubName + Send + Sync, R: Threads + Wait + Sync>(
    rt: &R,
    alloc: Global,
    list: Opened<bool>,
    receipts: Opened<Receipt>,
) -> Result<bool, KeepFault>
    requires list { list ≡ N.book }
    requires receipts { receipts ≡ K.book }
{
    let (tail, front) = list.named::<N>();
    let (ends, none) = receipts.named::<K>();
    let shelf = Mutex::new(empty(alloc, u64::MAX, front.again(), ends, none.again())?);
    let board = Board::new(Told::new(none));
    let marks = Mutex::new(Marks {
        tail,
        front,
        marks: Vec::new(alloc),
    });
    keep_both(rt, alloc, &shelf, &board, &marks)
}

fn two_threads<R: Threads + Wait + Sync>(rt: &R, alloc: Global) -> Result<bool, KeepFault> {
    by_two::<Brand, Brand, R>(rt, alloc, Opened::new(), Opened::new())
}

fn add_three<N: HubName, R: Wait>(rt: &R, marks: &Mutex<Marks<N>>) -> Result<(), KeepFault> {
    for mark in [true, false, true] {
        marks.lock(rt).add(mark)?;
    }
    Ok(())
}

/// Whether one append keeps all three marks.
fn keeps_three<N: HubName, K: HubName, R: Wait>(
    rt: &R,
    alloc: Global,
    shelf: &Mutex<MarkShelf<N, K>>,
    board: &Board<K>,
    marks: &Mutex<Marks<N>>,
) -> Result<bool, KeepFault> {
    add_three(rt, marks)?;
    let first = receipts_at(rt, alloc, shelf, board, marks, 1)?.len();
    let again = receipts_at(rt, alloc, shelf, board, marks, 3)?.len();
    Ok(first == 1 && again == 1)
}

/// Whether the file fails where so many marks are to be kept.
fn fails<N: HubName, K: HubName, R: Wait>(
    rt: &R,
    alloc: Global,
    shelf: &Mutex<MarkShelf<N, K>>,
    board: &Board<K>,
    marks: &Mutex<Marks<N>>,
    count: u64,
) -> bool {
    matches!(
        receipts_at(rt, alloc, shelf, board, marks, count),
        Err(KeepFault::File)
    )
}

/// Whether a fourth mark isn't kept, however often it is tried.
fn keeps_no_fourth<N: HubName, K: HubName, R: Wait>(
    rt: &R,
    alloc: Global,
    shelf: &Mutex<MarkShelf<N, K>>,
    board: &Board<K>,
    marks: &Mutex<Marks<N>>,
) -> Result<bool, KeepFault> {
    let fourth = marks.lock(rt).add(false)?;
    let failed = fails(rt, alloc, shelf, board, marks, fourth);
    let broken = shelf.lock(rt).is_broken();
    Ok(failed && broken && fails(rt, alloc, shelf, board, marks, fourth))
}

/// Whether a shorter front still has its receipts, and nothing more was asked of the file.
fn still_stands<N: HubName, K: HubName, R: Wait>(
    rt: &R,
    alloc: Global,
    shelf: &Mutex<MarkShelf<N, K>>,
    board: &Board<K>,
    marks: &Mutex<Marks<N>>,
) -> Result<bool, KeepFault> {
    let third = receipts_at(rt, alloc, shelf, board, marks, 3)?;
    let shelf = shelf.lock(rt);
    Ok(shelf.gave(&third) && third.len() == 1 && shelf.device().deeds().len() == 7)
}

fn keeps_till<N: HubName, K: HubName, R: Wait>(
    rt: &R,
    alloc: Global,
    shelf: &Mutex<MarkShelf<N, K>>,
    board: &Board<K>,
    marks: &Mutex<Marks<N>>,
) -> Result<bool, KeepFault> {
    let three = keeps_three(rt, alloc, shelf, board, marks)?;
    let no_fourth = keeps_no_fourth(rt, alloc, shelf, board, marks)?;
    Ok(three && no_fourth && still_stands(rt, alloc, shelf, board, marks)?)
}

/// One append keeps all marks that there are. Behind a fault nothing is kept and nothing more is asked
/// of the file, what was told before stands, and a shorter front still has its receipts.
fn till_it_fails<N: HubName, K: HubName, R: Wait>(
    rt: &R,
    alloc: Global,
    list: Opened<bool>,
    receipts: Opened<Receipt>,
) -> Result<bool, KeepFault>
    requires list { list ≡ N.book }
    requires receipts { receipts ≡ K.book }
{
    let (tail, front) = list.named::<N>();
    let (ends, none) = receipts.named::<K>();
    let shelf = Mutex::new(empty(alloc, 7, front.again(), ends, none.again())?);
    let board = Board::new(Told::new(none));
    let marks = Mutex::new(Marks {
        tail,
        front,
        marks: Vec::new(alloc),
    });
    keeps_till(rt, alloc, &shelf, &board, &marks)
}

fn a_fault<R: Wait>(rt: &R, alloc: Global) -> Result<bool, KeepFault> {
    till_it_fails::<Brand, Brand, R>(rt, alloc, Opened::new(), Opened::new())
}

/// A fault of the file is a wrong row.
fn is_right(outcome: Result<bool, KeepFault>) -> Result<bool, Memory> {
    match outcome {
        Ok(is_right) => Ok(is_right),
        Err(KeepFault::Memory) => Err(Memory),
        Err(KeepFault::File | KeepFault::Full | KeepFault::Mismatched) => Ok(false),
    }
}

pub fn play<R: Threads + Wait + Sync + Print>(rt: &R, alloc: Global, tally: &mut Tally) {
    tally.note(
        rt,
        "two threads keep marks",
        is_right(two_threads(rt, alloc)),
    );
    tally.note(
        rt,
        "one keeps for many, until a fault",
        is_right(a_fault(rt, alloc)),
    );
}
