//! The calls of the replication feed, and what they are told of a journal's entries.
ghost use Rattle.std.specs.Prelude.{◌≡◌, Some, IfOk, option_copied};
ghost use Rattle.osm_base.specs.Status.{IsStatus};
ghost use Rattle.osm_change.specs.Moments.{IsShownMoment};
ghost use Rattle.osm_model.specs.Journal.{IsLegal};
ghost use Rattle.replication_feed.specs.Text.{state_text};
ghost use Rattle.api_desk.specs.Answers.{reply_of};
ghost use Rattle.api_desk.specs.Feed.{shows, last_stamp, piece_told, fed};

use desk_parts::refusal_reply;
use http_link::Reply;
use hub_core::Book;
use map_machine::{MapMachine, MapWorld, book_law};
use osm_base::{Bytes, Memory, Stamp};
use osm_change::Refusal;
use osm_model::Entry;
use replication_feed::{entry_text, state_text};
use snapshot_hub::Reading;
use std::alloc::Global;

/// A call of the replication feed, whose pieces are the entries of the journal.
#[derive(Clone, Copy)]
pub enum FeedCall {
    /// How far the feed goes.
    State,
    /// One piece. The first is number 1.
    Piece { number: u64 },
}

/// The reply that shows a text.
fn shown(text: Bytes) -> Reply
    ensures reply { result ≡ reply_of (Some (shows text)) }
    ensures status { IsStatus result.status }
{
    Reply {
        status: 200,
        body: text,
    }
}

/// The stamp of the last entry, or 0 where there is none.
fn last_stamp(entries: &[Entry]) -> Stamp
    ensures { result ≡ last_stamp entries.now }
{
    match entries.last() {
        Some(entry) => entry.stamp,
        None => Stamp(0),
    }
}

/// The reply to a call for the state of a feed with that many pieces, the last of them stamped so.
pub(crate) fn state_reply(alloc: Global, length: u64, last: Stamp) -> Result<Reply, Memory>
    requires { IsShownMoment last }
    ensures reply { IfOk result (λ reply. reply ≡ reply_of (Some (shows (state_text length last)))) }
    ensures status { IfOk result (λ reply. IsStatus reply.status) }
{
    let text = state_text(alloc, length, last)?;
    Ok(shown(text))
}

/// The reply to a call for a piece, by its entry, if the feed with that last number has it.
pub(crate) fn piece_reply(
    alloc: Global,
    last: u64,
    number: u64,
    entry: Option<&Entry>,
) -> Result<Reply, Memory>
    ensures reply { IfOk result (λ reply. reply ≡ reply_of (Some (piece_told last number (option_copied entry.entry)))) }
    ensures status { IfOk result (λ reply. IsStatus reply.status) }
{
    match entry {
        Some(entry) => Ok(shown(entry_text(alloc, number, entry)?)),
        None => refusal_reply(alloc, Refusal::NoPiece { last, number }),
    }
}

/// The stamp of the map's last entry, or 0 before the first.
pub(crate) struct LastStamp;

impl Reading<MapMachine> for LastStamp {
    ghost use Rattle.osm_model.specs.declared.states.State.{State};

    type Read = Stamp;

    ghost of = { λ (P : State). P.last };

    fn read(world: &MapWorld) -> Stamp {
        world.world().last_stamp()
    }
}

/// The stamp of a book's last entry, or 0 where there is none.
fn book_stamp(book: &Book<MapMachine>) -> Stamp
    ensures { result ≡ last_stamp book.now }
{
    book_law(book);
    LastStamp::read(book.world())
}

/// The reply to a call of the feed, where a book has all its entries.
pub fn feed_reply(alloc: Global, book: &Book<MapMachine>, call: FeedCall) -> Result<Reply, Memory>
    ensures reply { IfOk result (λ reply. reply ≡ reply_of (Some (fed book.now call))) }
    ensures status { IfOk result (λ reply. IsStatus reply.status) }
{
    book_law(book);
    let journal = book.journal();
    let length = journal.len() as u64;
    match call {
        FeedCall::State => state_reply(alloc, length, book_stamp(book)),
        FeedCall::Piece { number } => {
            let found = journal.part(alloc, number.saturating_sub(1), 1)?;
            piece_reply(alloc, length, number, found.first())
        }
    }
}

/// The reply to a call of the feed, where these are all its entries.
pub fn list_reply(alloc: Global, journal: &[Entry], call: FeedCall) -> Result<Reply, Memory>
    requires { IsLegal journal.now }
    ensures reply { IfOk result (λ reply. reply ≡ reply_of (Some (fed journal.now call))) }
    ensures status { IfOk result (λ reply. IsStatus reply.status) }
{
    let length = journal.len() as u64;
    match call {
        FeedCall::State => state_reply(alloc, length, last_stamp(journal)),
        FeedCall::Piece { number } => {
            let place = number.saturating_sub(1) as usize;
            piece_reply(alloc, length, number, journal.get(place))
        }
    }
}
