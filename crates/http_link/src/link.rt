//! Serving a link.
//!
//! The 1,000th request that says close ends the link as closed, any other as spent. Both replies
//! say close.
ghost use Rattle.http_link.specs.Link.{Serves, ServesTold};

use crate::desk::Desk;
use crate::end::LinkEnd;
use crate::law::bytes_tell_the_end;
use crate::turn::{Next, take_turn};
use http_wire::Wire;
use osm_base::REQUEST_LIMIT;
use osm_outside::{Link, Outside};
use std::alloc::Global;

/// Answers the messages of a link one after another, until it ends. For each the clock is read once, after its last byte and
/// before its reply, and nothing more is read before that reply is written. A message's body may have so many bytes.
pub fn serve_desk<D: Desk, L: Link>(
    alloc: Global,
    desk: &mut D,
    link: &mut L,
    body_limit: usize,
) -> LinkEnd
    ensures serves { Serves body_limit D.allows desk.old desk.new (L.told link.old) (L.told link.new) result }
    ensures told { ServesTold body_limit D.allows D.tells D.shows D.withholds desk.old desk.new (L.told link.old) (L.told link.new) result }
{
    // What the turns tell of the bytes is the same for every end.
    bytes_tell_the_end();
    let Ok(mut wire) = Wire::new(alloc, body_limit) else {
        return LinkEnd::Memory;
    };
    'requests: for count in 0..REQUEST_LIMIT {
        match take_turn(alloc, &mut wire, desk, link, count) {
            Next::GoesOn => {}
            Next::Over(end) => return end,
        }
    }
    LinkEnd::Budget
}
