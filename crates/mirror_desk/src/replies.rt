//! The mirror's own replies.
ghost use Rattle.std.specs.Prelude.{◌≡◌, ◌+◌, ◌≤◌, ◌++◌, length, decimal, Some, IfOk};
ghost use Rattle.osm_base.specs.Status.{IsStatus};
ghost use Rattle.journal_follower.specs.declared.answers.Taken.TheVariants.{Gap};
ghost use Rattle.mirror_desk.specs.Answers.{read_only, not_piece, took, not_level, levelled, text_taken, status_taken, reply_of};

use http_link::Reply;
use itoa::Buffer;
use journal_follower::Taken;
use osm_base::{Bytes, Memory};
use std::alloc::Global;

const READ_ONLY: &[u8] = b"{\"error\":\"read_only\"}";

const NOT_PIECE: &[u8] = b"{\"error\":\"not_piece\"}";

const NOT_LEVEL: &[u8] = b"{\"error\":\"not_level\"}";

// What stands before the first number of a text, between two numbers, and behind the last one.
const NEXT: &[u8] = b"{\"next\":";

const FOLDED: &[u8] = b",\"taken\":\"folded\"}";

const OLD: &[u8] = b",\"taken\":\"old\"}";

const DIFFERS: &[u8] = b"{\"error\":\"differs\",\"number\":";

const GAP: &[u8] = b"{\"error\":\"gap\",\"next\":";

const NUMBER: &[u8] = b",\"number\":";

const ILLEGAL: &[u8] = b"{\"error\":\"illegal\",\"number\":";

const LEVEL_NEXT: &[u8] = b"{\"level\":true,\"next\":";

const CLOSING: &[u8] = b"}";

/// A text with a number in it, in a list of its very length.
fn numbered(alloc: Global, before: &[u8], number: u64, behind: &[u8]) -> Result<Bytes, Memory>
    requires { length before.now + length behind.now ≤ 100 }
    ensures { IfOk result (λ bytes. bytes ≡ before.now ++ decimal number ++ behind.now) }
{
    let mut digits = Buffer::new();
    let number = digits.format(number).as_bytes();
    let around = before.len() + behind.len();
    let mut text = Vec::with_capacity(alloc, around + number.len())?;
    text.extend_from_slice(before)?;
    text.extend_from_slice(number)?;
    text.extend_from_slice(behind)?;
    Ok(Bytes::from_vec(text))
}

/// The text that tells that a piece of that number can't be taken before the next one.
fn gap_text(alloc: Global, next: u64, number: u64) -> Result<Bytes, Memory>
    ensures { IfOk result (λ bytes. bytes ≡ text_taken number next (Gap next)) }
{
    let mut next_digits = Buffer::new();
    let next = next_digits.format(next).as_bytes();
    let mut digits = Buffer::new();
    let number = digits.format(number).as_bytes();
    let around = GAP.len() + NUMBER.len() + CLOSING.len();
    let mut text = Vec::with_capacity(alloc, around + next.len() + number.len())?;
    text.extend_from_slice(GAP)?;
    text.extend_from_slice(next)?;
    text.extend_from_slice(NUMBER)?;
    text.extend_from_slice(number)?;
    text.extend_from_slice(CLOSING)?;
    Ok(Bytes::from_vec(text))
}

/// The text that tells what came of a piece of that number, where `next` would come next then.
fn text_taken(alloc: Global, number: u64, next: u64, taken: Taken) -> Result<Bytes, Memory>
    ensures { IfOk result (λ bytes. bytes ≡ text_taken number next taken) }
{
    match taken {
        Taken::Folded => numbered(alloc, NEXT, next, FOLDED),
        Taken::Old => numbered(alloc, NEXT, next, OLD),
        Taken::Differs => numbered(alloc, DIFFERS, number, CLOSING),
        Taken::Gap { next } => gap_text(alloc, next, number),
        Taken::Illegal => numbered(alloc, ILLEGAL, number, CLOSING),
    }
}

fn status_taken(taken: Taken) -> u16
    ensures status { result ≡ status_taken taken }
    ensures known { IsStatus result }
{
    match taken {
        Taken::Folded | Taken::Old => 200,
        Taken::Differs | Taken::Gap { next: _ } => 409,
        Taken::Illegal => 400,
    }
}

/// The reply that tells what came of a piece of that number, where `next` would come next then.
pub(crate) fn took(alloc: Global, number: u64, next: u64, taken: Taken) -> Result<Reply, Memory>
    ensures reply { IfOk result (λ reply. reply ≡ reply_of (Some (took number next taken))) }
    ensures status { IfOk result (λ reply. IsStatus reply.status) }
{
    Ok(Reply {
        status: status_taken(taken),
        body: text_taken(alloc, number, next, taken)?,
    })
}

/// The reply that tells that a mirror is read only.
pub(crate) fn read_only(alloc: Global) -> Result<Reply, Memory>
    ensures reply { IfOk result (λ reply. reply ≡ reply_of (Some read_only)) }
    ensures status { IfOk result (λ reply. IsStatus reply.status) }
{
    Ok(Reply {
        status: 403,
        body: Bytes::of(alloc, READ_ONLY)?,
    })
}

/// The reply that tells that a body is no piece's text.
pub(crate) fn not_piece(alloc: Global) -> Result<Reply, Memory>
    ensures reply { IfOk result (λ reply. reply ≡ reply_of (Some not_piece)) }
    ensures status { IfOk result (λ reply. IsStatus reply.status) }
{
    Ok(Reply {
        status: 400,
        body: Bytes::of(alloc, NOT_PIECE)?,
    })
}

/// The reply that tells that the mirror isn't known to be level.
pub(crate) fn not_level(alloc: Global) -> Result<Reply, Memory>
    ensures reply { IfOk result (λ reply. reply ≡ reply_of (Some not_level)) }
    ensures status { IfOk result (λ reply. IsStatus reply.status) }
{
    Ok(Reply {
        status: 503,
        body: Bytes::of(alloc, NOT_LEVEL)?,
    })
}

/// The reply that tells that the mirror counts as level, and which piece would come next.
pub(crate) fn levelled(alloc: Global, next: u64) -> Result<Reply, Memory>
    ensures reply { IfOk result (λ reply. reply ≡ reply_of (Some (levelled next))) }
    ensures status { IfOk result (λ reply. IsStatus reply.status) }
{
    Ok(Reply {
        status: 200,
        body: numbered(alloc, LEVEL_NEXT, next, CLOSING)?,
    })
}
