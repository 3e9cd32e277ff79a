//! An input that is refused.
ghost use Rattle.std.specs.Prelude.{◌≡◌, ◌<◌, ◌≤◌, ◌+◌, List, ℕ, length};
ghost use Rattle.osm_outside.specs.Told.{Told};
ghost use Rattle.journal_text.specs.declared.limits.TheConstants.{TEXT_LIMIT};
ghost use Rattle.journal_input.specs.Going.{SoFar, Fails};
ghost use Rattle.journal_input.specs.Input.{IsInputFault};
ghost use Rattle.journal_input.specs.Place.{Sees};

use crate::faults::InputFault;
use crate::gate::Place;
use crate::rest::read_rest;
use journal_text::{JournalFault, TEXT_LIMIT};
use osm_outside::{Outside, Source};

/// Why the input of a text with this fault gave no journal, of which so many bytes were read up to
/// this place. Its rest is read and thrown away, since the text may be too long; want of memory is
/// told at once.
pub(crate) fn refuse<S: Source>(
    source: &mut S,
    room: &mut [u8],
    fault: JournalFault,
    place: Place,
    count: usize,
) -> InputFault
    requires some { 0 < length room.old }
    requires within { count ≤ TEXT_LIMIT + 1 }
    ensures { (before : Told) (text : List ℕ) → SoFar before (S.told source.old) text → count ≡ length text → Sees place text → Fails fault text
        → IsInputFault result before (S.told source.new) }
{
    if fault == JournalFault::Memory {
        return InputFault::Text(fault);
    }
    match read_rest(source, room, place, count) {
        Ok(true) => InputFault::Text(JournalFault::Long),
        Ok(false) => InputFault::Text(fault),
        Err(_) => InputFault::Failed,
    }
}
