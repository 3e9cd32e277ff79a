//! Laws of links.
ghost use Rattle.std.specs.Prelude.{◌≡◌, ◌++◌, ◌∷◌, [], ℕ, List};
ghost use Rattle.std.specs.List.{concat};
ghost use Rattle.std.specs.Io.KnownBytes.{Consumes};
ghost use Rattle.osm_outside.specs.Event.{Event, Gave, Answered};
ghost use Rattle.osm_outside.specs.Told.{Told};
ghost use Rattle.http_link.specs.declared.end.LinkEnd.{LinkEnd};
ghost use Rattle.http_link.specs.Turns.{Turn, Ending, AreRead, events_of, exchanges_of, bytes_of};
ghost use Rattle.http_link.specs.Exchange.{Exchange};
ghost use Rattle.http_link.specs.Link.{LinkEnds, AgreesWithBytes, AreTold, TellsAll};
ghost use Rattle.http_link.specs.Order.{HasAnswered, HasNext};

use crate::desk::AlwaysTells;
use http_wire::{
    end_stays, message_stays, no_empty_message, no_end_at_a_message, one_message, one_reading,
    some_reading,
};

/// The bytes that were read tell which messages are answered and how a link ends.
pub fn bytes_tell_the_end()
    ensures { (body_limit : ℕ) (before after : Told) (turns : List Turn) (left : List ℕ) (ending : Ending) (end : LinkEnd)
        → AreRead body_limit [] turns left → Consumes before.left after.left (bytes_of turns ending)
        → LinkEnds body_limit before after turns left ending end
        → AgreesWithBytes body_limit before (bytes_of turns ending) (left ++ concat ending.reads) (exchanges_of turns) end }
{
    one_message();
    no_empty_message();
    no_end_at_a_message();
    message_stays();
    end_stays();
    one_reading();
    some_reading();
}

/// Whenever something is read, each whole message before it was answered whole, and none of them ends the link: so nothing is
/// read after a close, after the last request that is answered, or after an answered end.
pub fn replies_come_before_reads()
    ensures { (body_limit : ℕ) (before after : Told) (turns : List Turn) (left : List ℕ) (ending : Ending) (end : LinkEnd)
        (front behind : List Event) (piece : List ℕ) → AreRead body_limit [] turns left
        → LinkEnds body_limit before after turns left ending end → events_of turns ending ≡ front ++ (Gave piece ∷ behind)
        → HasAnswered body_limit (exchanges_of turns) front }
{}

/// Whenever the clock is read, the next message is whole and each before it was answered whole: the clock is read between a
/// message's last byte and its reply.
pub fn clock_is_read_between()
    ensures { (body_limit : ℕ) (before after : Told) (turns : List Turn) (left : List ℕ) (ending : Ending) (end : LinkEnd)
        (front behind : List Event) (moment : ℕ) → AreRead body_limit [] turns left
        → LinkEnds body_limit before after turns left ending end → events_of turns ending ≡ front ++ (Answered moment ∷ behind)
        → HasNext body_limit (exchanges_of turns) front moment }
{}

/// No link ends with a reply withheld whose desk never withholds one.
pub fn always_tells<D: AlwaysTells>()
    ensures { (start now : D) (exchanges : List Exchange) (end : LinkEnd)
        → AreTold D.allows D.tells D.shows D.withholds start exchanges now end → TellsAll end }
{}
