//! Elements as an upload names them.
//!
//! A user in a refusal is told by its id where it was there before the upload, else by the
//! placeholder of its creation.
//!
//! What an upload's name stands for, which ids its creates get, and how a refusal names an element
//! stand in osm_change once (`Name::id`, `Name::key`, `Name::said`, `said_made`,
//! `FirstIds::after`), each with its definition, and so does what a read's fault is answered
//! (`ReadFault::answer`). Whoever judges, applies or numbers an upload calls these.
ghost use Rattle.std.specs.Prelude.{◌≡◌, position, option_copied};
ghost use Rattle.osm_base.specs.Key.{key_eq};
ghost use Rattle.osm_element.specs.Elements.{key};
ghost use Rattle.osm_change.specs.Keys.{id_of};
ghost use Rattle.osm_change.specs.Names.{said, said_made};
ghost use Rattle.osm_change.specs.Said.{placeholder_in};

use crate::operations::{Name, Op, Referent};
use crate::refusals::Said;
use osm_base::{Key, Kind};

impl Name {
    /// The id that it stands for, by the elements of the operations before: 0 at a place that none
    /// of them has.
    pub fn id(self, keys: &[Key]) -> u64
        ensures { result ≡ id_of keys.now self }
    {
        match self.referent() {
            Referent::Old(id) => id,
            Referent::New(place) => match keys.get(place as usize) {
                Some(key) => key.id,
                None => 0,
            },
        }
    }

    /// The element of a kind that it stands for, by the elements of the operations before.
    pub fn key(self, kind: Kind, keys: &[Key]) -> Key
        ensures { result ≡ key kind (id_of keys.now self) }
    {
        Key {
            kind,
            id: self.id(keys),
        }
    }

    /// The element as the client named it.
    pub fn said(self, operations: &[Op]) -> Said
        ensures { result ≡ said operations.now self }
    {
        match self.referent() {
            Referent::Old(id) => Said::Id(id),
            Referent::New(place) => {
                Said::Placeholder(placeholder_in(operations.get(place as usize)))
            }
        }
    }
}

/// The placeholder of a create; 0 for any other operation, and for none.
pub(crate) fn placeholder_in(operation: Option<&Op>) -> i64
    ensures { result ≡ placeholder_in (option_copied operation.entry) }
{
    match operation {
        Some(Op::Create { placeholder, .. }) => *placeholder,
        _ => 0,
    }
}

fn first_operation(keys: &[Key], key: Key) -> Option<usize>
    ensures { result ≡ position (λ x. key_eq x key) keys.now }
{
    keys.iter().position(|made| made.is(key))
}

/// An element that an upload made, as the client would name it: by the placeholder of its creation.
/// `keys` are the elements of the operations, in order; one that isn't among them is named by its
/// id.
pub fn said_made(operations: &[Op], keys: &[Key], key: Key) -> Said
    ensures { result ≡ said_made operations.now keys.now key }
{
    match first_operation(keys, key) {
        Some(place) => Said::Placeholder(placeholder_in(operations.get(place))),
        None => Said::Id(key.id),
    }
}
