//! What answers are written as: their statuses and their bodies.
ghost use Rattle.osm_change.specs.Moments.{HasShownMoments};

mod elements;
mod refusals;
mod results;

use osm_base::{Memory, Owner, Text};
use osm_change::Answer;
use osm_json::{answer_body, answer_status};
use row_lines::Tally;
use std::alloc::Global;

fn is_told(alloc: Global, answer: &Answer<'_>, status: u16, text: &str) -> Result<bool, Memory>
    requires { HasShownMoments answer.now }
{
    let body = answer_body(alloc, answer)?;
    Ok(answer_status(answer) == status && body.as_slice() == text.as_bytes())
}

/// Whether an answer has that status and that body.
fn tells(alloc: Global, answer: Answer<'_>, status: u16, text: &str) -> Result<bool, Memory>
    requires { HasShownMoments answer }
{
    is_told(alloc, &answer, status, text)
}

fn alice(alloc: Global) -> Result<Owner, Memory> {
    let name = Text::of(alloc, "alice")?;
    Ok(Owner { id: 1, name })
}

pub fn play<R: Print>(rt: &R, alloc: Global, tally: &mut Tally) {
    results::play(rt, alloc, tally);
    elements::play(rt, alloc, tally);
    refusals::play(rt, alloc, tally);
}
