//! Bytes in memory as the message that they begin with. They are read by the wire, through a source
//! that can't fail: `measure`, `export` and the events of a load read their requests so.
ghost use Rattle.std.specs.Prelude.{◌≡◌, IfOk};
ghost use Rattle.http_wire.specs.End.{IsTold};
ghost use Rattle.http_wire.specs.Messages.{BeginsAs};

use crate::end::WireEnd;
use crate::law::{end_in_any_pieces, message_in_any_pieces};
use crate::message::Message;
use crate::unfailing::Unfailing;
use crate::wire::Wire;
use osm_base::{BODY_LIMIT, Bytes, Memory};
use std::alloc::Global;

/// The message that the bytes begin with, or none where they come to an end in its place.
pub fn whole_message(alloc: Global, bytes: Bytes) -> Result<Option<Message>, Memory>
    ensures { IfOk result (BeginsAs bytes) }
{
    // The source gives the bytes in pieces.
    message_in_any_pieces();
    end_in_any_pieces();
    let mut source = Unfailing::new(alloc, bytes)?;
    let mut wire = Wire::new(alloc, BODY_LIMIT)?;
    match wire.read_message(alloc, &mut source) {
        Ok(message) => Ok(Some(message)),
        Err(why) => {
            end_of_bytes(why)?;
            Ok(None)
        }
    }
}

/// Tells want of memory apart from the ends that bytes come to.
fn end_of_bytes(why: WireEnd) -> Result<(), Memory>
    requires { ¬ (why ≡ WireEnd.ReadFault) }
    ensures { IfOk result (λ _. IsTold why) }
{
    match why {
        WireEnd::Memory => Err(Memory),
        WireEnd::ReadFault => unreachable!(),
        WireEnd::End
        | WireEnd::Truncated
        | WireEnd::BadHead
        | WireEnd::HeadLong
        | WireEnd::BadLength
        | WireEnd::BodyLong
        | WireEnd::Coded => Ok(()),
    }
}
