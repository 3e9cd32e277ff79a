//! A command, done on the lists.
ghost use Rattle.std.specs.Prelude.{◌≡◌, IfOk};
ghost use Rattle.osm_element.specs.Later.{Keeps};
ghost use Rattle.osm_model.specs.Act.{act};

use crate::alterations::take_alteration;
use crate::judgements::judge;
use osm_base::{Memory, Stamp, User};
use osm_change::Answer;
use osm_model::{Command, Fault, State};
use std::alloc::Global;

/// What the command does to the state, and what it answers. The state is lost with `Memory`.
pub fn plain_act(
    alloc: Global,
    mut state: State,
    user: &User,
    moment: u64,
    command: &Command,
) -> Result<(State, Answer<'static>), Memory>
    ensures act { IfOk result (λ done. done ≡ act state user.now moment command.now) }
    ensures kept { IfOk result (λ done. Keeps state.elements done.0.elements) }
{
    let at = Stamp::after(state.last, moment);
    match judge(alloc, &state, user, at, command) {
        Ok((alteration, answer)) => {
            take_alteration(&mut state, alteration)?;
            state.last = at;
            Ok((state, answer))
        }
        Err(Fault::Refused(refusal)) => Ok((state, Answer::Refused(refusal))),
        Err(Fault::Memory) => Err(Memory),
    }
}
