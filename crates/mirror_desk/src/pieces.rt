//! Taking a piece, and telling what came of it.
//!
//! The answer to a piece that is folded is made before the piece is taken, so that none is folded
//! whose answer would be want of memory. Of a piece that comes to something else this makes one
//! short text in vain; its own answer is made afterwards, when nothing has changed.
ghost use Rattle.std.specs.Prelude.{◌≡◌, ℕ, ◌+◌, ◌≤◌, ◌<◌, ◌^◌, Bool, length, Some, IfOk, OnOk, OnErr};
ghost use Rattle.osm_base.specs.Status.{IsStatus};
ghost use Rattle.http_link.specs.Desk.{counted_reply};
ghost use Rattle.journal_follower.specs.Taken.{taken, after};
ghost use Rattle.mirror_desk.specs.Answers.{took, reply_of, AnswersAsk};
ghost use Rattle.mirror_desk.specs.Request.{takes};

use crate::replies::{not_piece, took};
use http_link::Reply;
use journal_follower::{Follower, Taken};
use osm_base::Memory;
use replication_feed::{Piece, PieceFault, read_piece};
use std::alloc::Global;

/// The number of the piece that comes next.
pub(crate) fn next_number(follower: &Follower) -> u64
    ensures next { result ≡ length follower.now + 1 }
    ensures room { result + 1 < 2 ^ 64 }
{
    follower.length() + 1
}

/// Takes a piece. The answer to one that is folded is made before it is, so that none is folded whose
/// answer would be want of memory.
fn take_piece(alloc: Global, follower: &mut Follower, piece: Piece) -> Result<Reply, Memory>
    requires { 1 ≤ piece.number }
    ensures reply { IfOk result (λ reply. reply
        ≡ reply_of (Some (took piece.number (length follower.new + 1) (taken follower.old piece)))) }
    ensures journal { OnOk result (follower.new ≡ after follower.old piece) }
    ensures memory { OnErr result (follower.new ≡ follower.old) }
    ensures status { IfOk result (λ reply. IsStatus reply.status) }
{
    let number = piece.number;
    let next = next_number(follower);
    let folded = took(alloc, number, next + 1, Taken::Folded)?;
    match follower.take(alloc, piece)? {
        Taken::Folded => Ok(folded),
        other => took(alloc, number, next, other),
    }
}

/// Takes the piece whose text the body is, if it is one.
pub(crate) fn answer_piece(
    alloc: Global,
    follower: &mut Follower,
    body: &[u8],
) -> Result<Reply, Memory>
    ensures answers { (is_held_back : Bool) (moment : ℕ) → AnswersAsk is_held_back follower.old moment (takes body.now) (counted_reply result) follower.new }
    ensures status { IfOk result (λ reply. IsStatus reply.status) }
{
    match read_piece(alloc, body) {
        Ok(piece) => take_piece(alloc, follower, piece),
        Err(PieceFault::NotPiece) => not_piece(alloc),
        Err(PieceFault::Memory) => Err(Memory),
    }
}
