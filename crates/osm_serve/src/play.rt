//! A load from its first request to its last.
ghost use Rattle.std.specs.Prelude.{◌≡◌, ◌<◌, ◌≤◌, IfOk, length, []};
ghost use Rattle.osm_base.specs.declared.limits.TheConstants.{SESSION_LIMIT};
ghost use Rattle.osm_model.specs.Journal.{IsLegal, replay};
ghost use Rattle.workload.specs.Figures.{figures_of};
ghost use Rattle.api_desk.specs.Desk.{entries_of, users_of};
ghost use Rattle.journal_text.specs.Text.{text_of};
ghost use Rattle.workload.specs.Users.{AreUsersOf};
ghost use Rattle.osm_serve.specs.Played.{AreReplied, IsPlayed};
ghost use Rattle.osm_serve.specs.declared.sending.Replies.{Replies};
ghost use Rattle.osm_serve.specs.Export.{IsExport};

use crate::sending::{Replies, send_each};
use api_desk::OneDesk;
use hub_core::{Book, Entries};
use journal_text::{HEADER, lines_behind};
use map_machine::MapMachine;
use osm_base::{Bytes, Memory, SESSION_LIMIT};
use std::alloc::Global;
use std::slice;
use user_table::UserTable;
use workload::{Figures, Load, figures_of, users_of_load};

const FIRST_SESSION: u32 = 0;

/// What a load comes to.
#[derive(Clone, Copy)]
pub struct Played {
    /// The numbers of its journal, and of the map that it makes.
    pub figures: Figures,
    pub replies: Replies,
}

/// The numbers of a desk's journal and of its map.
fn figures_at(desk: &OneDesk<'_>) -> Figures
    ensures figures { result ≡ figures_of (replay (entries_of desk.now)).elements (length (entries_of desk.now)) }
    ensures legal { IsLegal (entries_of desk.now) }
{
    figures_of(desk.world().store(), desk.entries().len() as u64)
}

/// Sends a load to a desk, and takes the numbers.
fn run_at(alloc: Global, load: Load, desk: &mut OneDesk<'_>) -> Result<Played, Memory>
    ensures { IfOk result (λ played. IsLegal (entries_of desk.new)
        × AreReplied (users_of desk.old) load (entries_of desk.old) (entries_of desk.new) played.replies
        × (played.figures ≡ figures_of (replay (entries_of desk.new)).elements (length (entries_of desk.new)))) }
{
    let replies = send_each(alloc, load, desk)?;
    let figures = figures_at(desk);
    Ok(Played { figures, replies })
}

/// Sends a load of its users over a book that is empty at first.
fn run_over(
    alloc: Global,
    users: &UserTable,
    book: &mut Book<MapMachine>,
    seed: u64,
    sessions: u32,
    uploads: u32,
) -> Result<Played, Memory>
    requires some { 0 < sessions }
    requires few { sessions ≤ SESSION_LIMIT }
    requires table { AreUsersOf sessions users.now }
    requires empty { book.old ≡ [] }
    ensures { IfOk result (IsPlayed seed sessions uploads) }
{
    let mut desk = OneDesk::new(alloc, book, users, FIRST_SESSION)?;
    run_at(alloc, Load::new(seed, sessions, uploads), &mut desk)
}

/// Sends the requests of the load of a seed, one after another, each to a desk of its session over
/// the book, which is empty at first. A reply that tells of want of memory is a refused one; want of
/// memory elsewhere is `Memory`.
pub fn run_load(
    alloc: Global,
    book: &mut Book<MapMachine>,
    seed: u64,
    sessions: u32,
    uploads: u32,
) -> Result<Played, Memory>
    requires some { 0 < sessions }
    requires few { sessions ≤ SESSION_LIMIT }
    requires empty { book.old ≡ [] }
    ensures { IfOk result (IsPlayed seed sessions uploads) }
{
    let users = users_of_load(alloc, sessions)?;
    run_over(alloc, &users, book, seed, sessions, uploads)
}

/// The text of a journal, of which one entry at a time is made anew.
fn text_of(alloc: Global, entries: &Entries<'_, MapMachine>) -> Result<Bytes, Memory>
    ensures { IfOk result (λ text. text ≡ text_of entries.now) }
{
    let mut text = Vec::from_slice(alloc, HEADER)?;
    for place in 0..entries.len() {
        let entry = entries.entry(alloc, place)?;
        text = lines_behind(text, slice::from_ref(&entry))?;
    }
    Ok(Bytes::from_vec(text))
}

/// Sends a load to a desk, and writes the text of the journal.
fn journal_at(alloc: Global, load: Load, desk: &mut OneDesk<'_>) -> Result<Bytes, Memory>
    ensures { IfOk result (λ text. (replies : Replies) × (replies.lacking ≡ 0) × IsLegal (entries_of desk.new)
        × AreReplied (users_of desk.old) load (entries_of desk.old) (entries_of desk.new) replies
        × (text ≡ text_of (entries_of desk.new))) }
{
    let replies = send_each(alloc, load, desk)?;
    if replies.lacking > 0 {
        return Err(Memory);
    }
    text_of(alloc, &desk.entries())
}

/// Sends a load of its users over a book that is empty at first, and writes the text of the journal.
fn journal_over(
    alloc: Global,
    users: &UserTable,
    book: &mut Book<MapMachine>,
    seed: u64,
    sessions: u32,
    uploads: u32,
) -> Result<Bytes, Memory>
    requires some { 0 < sessions }
    requires few { sessions ≤ SESSION_LIMIT }
    requires table { AreUsersOf sessions users.now }
    requires empty { book.old ≡ [] }
    ensures { IfOk result (IsExport seed sessions uploads) }
{
    let mut desk = OneDesk::new(alloc, book, users, FIRST_SESSION)?;
    journal_at(alloc, Load::new(seed, sessions, uploads), &mut desk)
}

/// The text of the journal that a run of the load makes, over a book that is empty at first. A
/// reply that tells of want of memory is `Memory` too.
pub fn journal_of_load(
    alloc: Global,
    book: &mut Book<MapMachine>,
    seed: u64,
    sessions: u32,
    uploads: u32,
) -> Result<Bytes, Memory>
    requires some { 0 < sessions }
    requires few { sessions ≤ SESSION_LIMIT }
    requires empty { book.old ≡ [] }
    ensures { IfOk result (IsExport seed sessions uploads) }
{
    let users = users_of_load(alloc, sessions)?;
    journal_over(alloc, &users, book, seed, sessions, uploads)
}
