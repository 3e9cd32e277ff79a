//! A journal, made again by one desk over a book.
use crate::jobs::MOMENT;
use crate::notes::Told;
use api_desk::OneDesk;
use http_link::Desk;
use http_wire::whole_message;
use hub_core::{Book, Entries};
use journal_text::entry_line;
use map_machine::MapMachine;
use osm_base::Memory;
use std::alloc::Global;
use user_table::UserTable;

/// Whether the desk answers a request as its session was told, and has as many entries before and
/// after as the session's place says.
fn answers_so(alloc: Global, desk: &mut OneDesk<'_>, told: Told) -> Result<bool, Memory> {
    let before = desk.entries().len() as u64;
    desk.switch_to(told.session);
    let Some(message) = whole_message(alloc, told.bytes)? else {
        return Ok(false);
    };
    let reply = desk.answer(alloc, message, MOMENT)?;
    let after = desk.entries().len() as u64;
    Ok(
        before == told.place / 2
            && after == told.place.div_ceil(2)
            && reply.status == told.reply.status
            && reply.body.as_slice() == told.reply.body.as_slice(),
    )
}

/// How many lines of two journals differ.
fn differing(
    alloc: Global,
    one: &Entries<'_, MapMachine>,
    other: &Entries<'_, MapMachine>,
) -> Result<u64, Memory> {
    let mut count = one.len().abs_diff(other.len()) as u64;
    for place in 0..one.len().min(other.len()) {
        let mine = entry_line(alloc, &one.entry(alloc, place)?)?;
        let theirs = entry_line(alloc, &other.entry(alloc, place)?)?;
        if mine.as_slice() != theirs.as_slice() {
            count = count.saturating_add(1);
        }
    }
    Ok(count)
}

fn replay_at(
    alloc: Global,
    desk: &mut OneDesk<'_>,
    told: Vec<Told>,
    journal: &Entries<'_, MapMachine>,
) -> Result<u64, Memory> {
    let mut wrong = 0_u64;
    for told in told {
        if !answers_so(alloc, desk, told)? {
            wrong = wrong.saturating_add(1);
        }
    }
    Ok(wrong.saturating_add(differing(alloc, &desk.entries(), journal)?))
}

/// Sends all that sessions sent to one desk over an empty book, in the order of the places. Answers
/// how many replies aren't those that the sessions had, and how many entries aren't those of the
/// journal.
pub fn replay(
    alloc: Global,
    users: &UserTable,
    told: Vec<Told>,
    journal: &Entries<'_, MapMachine>,
) -> Result<u64, Memory> {
    let mut told = told;
    told.sort_by_key(|told| told.place)?;
    let mut book = Book::<MapMachine>::new(alloc);
    let mut desk = OneDesk::new(alloc, &mut book, users, 0)?;
    replay_at(alloc, &mut desk, told, journal)
}
