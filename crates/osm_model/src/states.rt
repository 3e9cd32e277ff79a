//! The map's state.
ghost use Rattle.std.specs.Prelude.{◌≡◌, ◌<◌, ◌≤◌, length, option_copied, IfSome};
ghost use Rattle.osm_model.specs.State.{empty, changeset, HasChangeset};

use changeset_core::ChangesetRecord;
use osm_base::{Items, Stamp, Text};
use osm_element::Elements;
use std::alloc::Global;

/// The map. Changeset and redaction n are the n-th of their lists, counted from 1; `last` is the
/// stamp of the last accepted command, 0 before the first.
#[derive(Drop)]
pub struct State {
    pub elements: Elements,
    pub changesets: Items<ChangesetRecord>,
    pub redactions: Items<Text>,
    pub last: Stamp,
}

impl State {
    /// The map before the first command. It takes no memory.
    pub fn empty(alloc: Global) -> State
        ensures { result ≡ empty }
    {
        State {
            elements: Elements::empty(alloc),
            changesets: Items::none(alloc),
            redactions: Items::none(alloc),
            last: Stamp(0),
        }
    }

    /// The record of a changeset: `None` where there never was one with this id.
    pub fn changeset(&self, id: u64) -> Option<&ChangesetRecord>
        ensures found { option_copied result ≡ changeset self.now id }
        ensures known { IfSome result (λ _. HasChangeset self.now id) }
    {
        if id == 0 {
            return None;
        }
        self.changesets.items().get(id as usize - 1)
    }
}
