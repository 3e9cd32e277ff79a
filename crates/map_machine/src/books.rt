//! What a book of the map keeps, and the numbers of calls in it.
ghost use Rattle.std.specs.Prelude.{◌≡◌, ◌≤◌, ◌+◌, ◌^◌};
ghost use Rattle.osm_model.specs.Journal.{IsLegal, calls_of};

use crate::machine::MapMachine;
use hub_core::Book;

/// A law: what a book keeps is a legal journal.
pub fn book_law(book: &Book<MapMachine>)
    ensures { IsLegal book.now }
{
    let _entries = book.journal();
}

/// The number of a session's next call.
pub fn next_call(book: &Book<MapMachine>, session: u32) -> u64
    ensures { result ≡ calls_of session book.now + 1 }
{
    one_more(book.calls(session), book.journal().len())
}

/// A number of some of so many entries, and one.
fn one_more(calls: u64, entries: usize) -> u64
    requires within { calls ≤ entries }
    requires few { entries ≤ 2 ^ 62 }
    ensures { result ≡ calls + 1 }
{
    calls + 1
}
