//! The bytes of an answer, the two of its status, high byte first, and then its body; and as a reply.
ghost use Rattle.std.specs.Prelude.{◌≡◌, ◌+◌, ◌*◌, ◌≤◌, length, drop, slice_index, Some, IfOk};
ghost use Rattle.osm_base.specs.Status.{IsStatus};
ghost use Rattle.osm_change.specs.Moments.{RefusalHasShownEnd};
ghost use Rattle.desk_parts.specs.Replies.{reply_of, refusal_bytes, TellsStatus};

use http_link::Reply;
use osm_base::{Bytes, Memory};
use osm_change::{Answer, Refusal};
use osm_json::{answer_body, answer_status};
use std::alloc::Global;

/// The status that the first two bytes are, and the rest. It takes no memory.
fn parted(answer: Bytes) -> Reply
    requires { 2 ≤ length answer }
    ensures status { result.status ≡ slice_index answer 0 * 256 + slice_index answer 1 }
    ensures body { result.body ≡ drop 2 answer }
{
    let mut bytes = answer.into_vec();
    let status = u16::from(bytes[0]) * 256 + u16::from(bytes[1]);
    let rest = bytes.len() - 2;
    bytes.copy_within(2.., 0);
    bytes.truncate(rest);
    Reply {
        status,
        body: Bytes::from_vec(bytes),
    }
}

/// The reply that the bytes of an answer tell. It takes no memory.
#[tactic(auto, using(crate::proofs::Told::bytes_long, crate::proofs::Told::told_listed, crate::proofs::Told::reply_read))]
pub fn reply_from(answer: Bytes) -> Reply
    requires { TellsStatus answer }
    ensures reply { result ≡ reply_of (Some answer) }
    ensures status { IsStatus result.status }
{
    parted(answer)
}

/// The reply that tells a refusal.
#[tactic(auto, using(crate::proofs::Told::refusal_told))]
pub fn refusal_reply(alloc: Global, refusal: Refusal) -> Result<Reply, Memory>
    requires { RefusalHasShownEnd refusal }
    ensures reply { IfOk result (λ reply. reply ≡ reply_of (Some (refusal_bytes refusal))) }
    ensures status { IfOk result (λ reply. IsStatus reply.status) }
{
    let answer = Answer::Refused(refusal);
    Ok(Reply {
        status: answer_status(&answer),
        body: answer_body(alloc, &answer)?,
    })
}
