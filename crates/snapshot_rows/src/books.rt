//! A row on a book with its outlet.
use crate::listing::{Listing, Noted, Wish};
use crate::rows::{is_still, is_told};
use crate::tells::{Given, given_of, tell_added, tell_entries, tell_numbers, wish_of};
use hub_core::{Book, ListOutlet};
use machine_law::{Machine, Tag};
use osm_base::{Memory, Steps};
use row_lines::{RowFault, word_of};
use std::alloc::Global;
use std::sync::ledger::Ledger;

/// A book, and what took its entries.
#[derive(Drop)]
struct Side {
    book: Book<Listing>,
    outlet: ListOutlet<Noted>,
}

/// Plans a number and commits it as the next call of session 0.
fn commit<L: Ledger>(
    alloc: Global,
    side: &mut Side,
    wish: Wish,
    steps: &mut Steps<L>,
) -> Result<Given, Memory> {
    let Some(call) = side.book.calls(0).checked_add(1) else {
        return Err(Memory);
    };
    let tag = Tag { session: 0, call };
    let plan = Listing::plan(alloc, side.book.world(), wish, steps)?;
    let done = side.book.commit(plan, 0, tag, &mut side.outlet, steps)?;
    Ok(given_of(&done))
}

fn tell_calls(told: &mut String, side: &Side) -> Result<(), RowFault> {
    let calls = side.book.calls(0);
    write!(told, "{calls}")?;
    Ok(())
}

fn play_line<L: Ledger>(
    alloc: Global,
    side: &mut Side,
    line: &str,
    steps: &mut Steps<L>,
    told: &mut String,
) -> Result<(), RowFault> {
    let (word, rest) = word_of(line);
    match word {
        "add" => tell_added(told, commit(alloc, side, wish_of(rest)?, steps)),
        "journal" => tell_entries(told, side.book.journal().all(alloc)?.as_slice()),
        "outlet" => tell_entries(told, side.outlet.held()),
        "numbers" => tell_numbers(told, side.book.world().numbers.as_slice()),
        "calls" => tell_calls(told, side),
        _ => Err(RowFault::Unread),
    }
}

fn play_lines<R: Print, L: Ledger>(
    rt: &R,
    alloc: Global,
    side: &mut Side,
    lines: &str,
    steps: &mut Steps<L>,
    told: &mut String,
) -> Result<bool, RowFault> {
    for line in lines.lines() {
        if let Some(wanted) = line.strip_prefix("= ") {
            if !is_told(rt, wanted, told.as_str()) {
                return Ok(false);
            }
        } else if !is_still(line) {
            told.clear();
            play_line(alloc, side, line, steps, told)?;
        }
    }
    Ok(true)
}

/// Plays a row on a book of its own.
pub fn play_book<R: Print, L: Ledger>(
    rt: &R,
    alloc: Global,
    lines: &str,
    steps: &mut Steps<L>,
) -> Result<bool, RowFault> {
    let mut told = String::new(alloc);
    let mut side = Side {
        book: Book::<Listing>::new(alloc),
        outlet: ListOutlet::new(alloc, Vec::new(alloc)),
    };
    play_lines(rt, alloc, &mut side, lines, steps, &mut told)
}
