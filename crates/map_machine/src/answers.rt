//! An answer as bytes: the two of its status, high byte first, and then its body.
//!
//! The body is written behind the two, so it is never moved; who tells the answer takes them off in
//! place.
ghost use Rattle.std.specs.Prelude.{◌≡◌, ◌/◌, ◌%◌, ◌∷◌, [], IfOk};
ghost use Rattle.osm_change.specs.Moments.{HasShownMoments};
ghost use Rattle.map_machine.specs.Machine.{bytes_of};

use osm_base::{Bytes, Memory};
use osm_change::Answer;
use osm_json::{answer_behind, answer_status};
use std::alloc::Global;

/// The bytes of an answer.
pub(crate) fn bytes_of(alloc: Global, answer: &Answer<'_>) -> Result<Bytes, Memory>
    requires { HasShownMoments answer.now }
    ensures { IfOk result (λ bytes. bytes ≡ bytes_of answer.now) }
{
    answer_behind(status_bytes(alloc, answer_status(answer))?, answer)
}

/// The two bytes of a status.
fn status_bytes(alloc: Global, status: u16) -> Result<Vec<u8>, Memory>
    ensures { IfOk result (λ bytes. bytes.items ≡ (status / 256) ∷ (status % 256) ∷ []) }
{
    let mut bytes = Vec::new(alloc);
    bytes.push((status / 256) as u8)?;
    bytes.push((status % 256) as u8)?;
    Ok(bytes)
}
