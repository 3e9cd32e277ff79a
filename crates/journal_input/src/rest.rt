//! The rest of an input, of which nothing is kept.
ghost use Rattle.std.specs.Prelude.{◌≡◌, ◌<◌, ◌≤◌, ◌+◌, List, ℕ, length};
ghost use Rattle.osm_outside.specs.Told.{Told};
ghost use Rattle.journal_text.specs.declared.limits.TheConstants.{TEXT_LIMIT};
ghost use Rattle.journal_input.specs.Going.{IsRestRead, SoFar};
ghost use Rattle.journal_input.specs.Place.{Sees};

use crate::gate::Place;
use crate::pieces::read_piece;
use journal_text::TEXT_LIMIT;
use osm_outside::{Failed, Outside, Source};

/// Reads an input, of which so many bytes were read up to this place, to its end or to one byte past
/// the most that a text may have, and throws them away. The answer is whether its text is too long:
/// what stands behind a gate doesn't count.
pub(crate) fn read_rest<S: Source>(
    source: &mut S,
    room: &mut [u8],
    place: Place,
    count: usize,
) -> Result<bool, Failed>
    requires some { 0 < length room.old }
    requires within { count ≤ TEXT_LIMIT + 1 }
    ensures { (before : Told) (text : List ℕ) → SoFar before (S.told source.old) text → count ≡ length text → Sees place text
        → IsRestRead result before (S.told source.new) text }
{
    let mut place = place;
    let mut total = count;
    'rest: while total <= TEXT_LIMIT {
        let most = (TEXT_LIMIT + 1 - total).min(room.len());
        let more = read_piece(source, &mut room[..most])?;
        if more == 0 {
            return Ok(false);
        }
        place = place.behind(&room[..more]);
        total += more;
    }
    Ok(place.is_open())
}
