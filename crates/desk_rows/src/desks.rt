//! Both desks, each with its map.
use crate::faults::Fault;
use crate::plain::PlainDesk;
use api_desk::OneDesk;
use http_link::{Desk, Reply};
use http_wire::{Message, whole_message};
use journal_text::journal_text;
use osm_base::{Bytes, Memory};
use plain_model::Journal;
use std::alloc::Global;

/// Who sends a request, and when.
#[derive(Clone, Copy)]
pub struct Sender {
    pub session: u32,
    pub moment: u64,
}

/// The replies of both to one request.
#[derive(Drop)]
pub struct Replies {
    pub plain: Reply,
    pub fast: Reply,
}

impl Replies {
    /// Whether they are the same, byte by byte.
    pub fn are_same(&self) -> bool {
        self.plain.status == self.fast.status
            && self.plain.body.as_slice() == self.fast.body.as_slice()
    }
}

/// The message that the bytes are read as.
pub fn message_of(alloc: Global, bytes: &[u8]) -> Result<Message, Fault> {
    let bytes = Bytes::of(alloc, bytes)?;
    match whole_message(alloc, bytes)? {
        Some(message) => Ok(message),
        None => Err(Fault::Line),
    }
}

/// Sends a message to both. The plain one keeps its entries in that journal.
pub fn replies_of(
    fast: &mut OneDesk<'_>,
    plain: &PlainDesk<'_>,
    journal: &mut Journal,
    sender: Sender,
    bytes: &[u8],
) -> Result<Replies, Fault> {
    let message = message_of(plain.alloc, bytes)?;
    Ok(answer(fast, plain, journal, sender, message)?)
}

fn answer(
    fast: &mut OneDesk<'_>,
    plain: &PlainDesk<'_>,
    journal: &mut Journal,
    sender: Sender,
    message: Message,
) -> Result<Replies, Memory> {
    let slow = plain.answer(journal, sender, &message)?;
    fast.switch_to(sender.session);
    let quick = fast.answer(plain.alloc, message, sender.moment)?;
    Ok(Replies {
        plain: slow,
        fast: quick,
    })
}

/// Whether their journals differ. The text of a journal tells all of it.
pub fn journals_differ(
    alloc: Global,
    fast: &OneDesk<'_>,
    journal: &Journal,
) -> Result<Option<&'static str>, Memory> {
    let slow = journal_text(alloc, journal.entries())?;
    let entries = fast.entries().all(alloc)?;
    let quick = journal_text(alloc, entries.as_slice())?;
    let are_same = slow.as_slice() == quick.as_slice();
    Ok(if are_same { None } else { Some("the journals") })
}
