//! What an accepted command changes.
//!
//! What an accepted command changes is an `Alteration` in the plain program, the last stamp aside:
//! it is judged on a state that stays as it is, and taken only once its answer has its last form.
//! An edit is what a request asks for (`Edit` of api_desk).
ghost use Rattle.std.specs.Prelude.{◌≡◌, ◌-◌, ◌^◌, ◌<◌, OnOk, OnErr, slice_get, Some};
ghost use Rattle.std.specs.Option.{ForSome};
ghost use Rattle.plain_model.specs.Alteration.{state_after, CanTake};

use changeset_core::{ChangesetRecord, Work};
use osm_base::{Box7, Items, Key, Memory, Stamp, Text};
use osm_element::{Elements, Tags, check_number};
use osm_model::State;

/// What an accepted command changes, the last stamp aside.
#[derive(Drop)]
pub enum Alteration {
    AddChangeset(ChangesetRecord),
    /// Other tags, which is activity at the stamp.
    SetTags {
        changeset: u64,
        tags: Tags,
        at: Stamp,
    },
    SetEnd {
        changeset: u64,
        at: Stamp,
    },
    /// The elements that an upload at the stamp leaves, and for its changeset the versions that it
    /// made, in order, and the box of what it touched.
    EnterWork {
        changeset: u64,
        at: Stamp,
        elements: Elements,
        works: Items<Work>,
        touched: Option<Box7>,
    },
    AddRedaction(Text),
    Mark {
        key: Key,
        version: u64,
        redaction: Option<u64>,
    },
}

/// Takes the alteration. Want of memory leaves the state as it was.
pub fn take_alteration(state: &mut State, alteration: Alteration) -> Result<(), Memory>
    requires { CanTake state.old alteration }
    ensures ok { OnOk result (state.new ≡ state_after state.old alteration) }
    ensures memory { OnErr result (state.new ≡ state.old) }
{
    match alteration {
        Alteration::AddChangeset(made) => state.changesets.push(made),
        Alteration::SetTags {
            changeset,
            tags,
            at,
        } => {
            let kept = state.changesets.item_mut(changeset as usize - 1);
            kept.tags = tags;
            kept.activity = at;
            Ok(())
        }
        Alteration::SetEnd { changeset, at } => {
            state.changesets.item_mut(changeset as usize - 1).ended = Some(at);
            Ok(())
        }
        Alteration::EnterWork {
            changeset,
            at,
            elements,
            works,
            touched,
        } => {
            let kept = state.changesets.item_mut(changeset as usize - 1);
            kept.work(works.items(), touched, at)?;
            state.elements = elements;
            Ok(())
        }
        Alteration::AddRedaction(title) => state.redactions.push(title),
        Alteration::Mark {
            key,
            version,
            redaction,
        } => {
            check_mark(redaction)?;
            state.elements.mark(key, version, redaction);
            Ok(())
        }
    }
}

/// A version has no room for the number of every redaction.
fn check_mark(redaction: Option<u64>) -> Result<(), Memory>
    ensures { OnOk result (ForSome redaction (λ number. number < 2 ^ 32)) }
{
    match redaction {
        Some(number) => check_number(number),
        None => Ok(()),
    }
}
