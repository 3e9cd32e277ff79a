//! Serving one link by a desk.
ghost use Rattle.std.specs.Prelude.{[], ℕ};
ghost use Rattle.osm_outside.specs.Told.{Told};
ghost use Rattle.http_link.specs.declared.end.LinkEnd.TheVariants.{Memory};
ghost use Rattle.server_frame.specs.OnLink.{AnswersLink, AnswersLinkWithin, AnswersLinkTold, AnswersLinkToldWithin, OnLink, OnLinkWithin};

use http_link::{Desk, LinkEnd, serve_desk};
use http_wire::some_reading;
use osm_base::BODY_LIMIT;
use osm_outside::{Link, Outside};
use std::alloc::Global;

/// Answers the messages of a link by the desk, one after another, until the link ends. A message's body may have so many bytes.
pub fn answer_link_within<D: Desk, L: Link>(
    alloc: Global,
    desk: &mut D,
    link: &mut L,
    body_limit: usize,
) -> LinkEnd
    ensures answers { AnswersLinkWithin body_limit D.allows desk.old desk.new (L.told link.old) (L.told link.new) result }
    ensures told { AnswersLinkToldWithin body_limit D.allows D.tells D.shows D.withholds desk.old desk.new (L.told link.old) (L.told link.new) result }
{
    serve_desk(alloc, desk, link, body_limit)
}

/// The same by a server's limit on bodies.
pub fn answer_link<D: Desk, L: Link>(alloc: Global, desk: &mut D, link: &mut L) -> LinkEnd
    ensures answers { AnswersLink D.allows desk.old desk.new (L.told link.old) (L.told link.new) result }
    ensures told { AnswersLinkTold D.allows D.tells D.shows D.withholds desk.old desk.new (L.told link.old) (L.told link.new) result }
{
    answer_link_within(alloc, desk, link, BODY_LIMIT)
}

/// A link that is left alone has no answered messages, and ends in want of memory, whatever limit a body has.
pub fn link_left_alone_within()
    ensures { (body_limit : ℕ) (told : Told) → OnLinkWithin body_limit told told [] Memory }
{
    some_reading();
}

/// The same by a server's limit on bodies.
pub fn link_left_alone()
    ensures { (told : Told) → OnLink told told [] Memory }
{
    link_left_alone_within();
}
