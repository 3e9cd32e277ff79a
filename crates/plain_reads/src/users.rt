//! The users of an element.
ghost use Rattle.std.specs.Prelude.{◌≡◌, ◌++◌, ◌∷◌, [], filter, map, IfOk};
ghost use Rattle.osm_element.specs.Elements.{uses};
ghost use Rattle.osm_model.specs.Reads.{current_shown, users_of_kind, ways_of, relations_of};

use crate::elements::current;
use osm_base::{Items, Key, Kind, Memory};
use osm_change::VersionId;
use osm_element::Elements;
use std::alloc::Global;

/// The visible ways that list a node, by id.
pub fn ways_of(alloc: Global, elements: &Elements, id: u64) -> Result<Items<VersionId>, Memory>
    ensures { IfOk result (λ found. found ≡ ways_of elements.now id) }
{
    let node = Key {
        kind: Kind::Node,
        id,
    };
    users_of_kind(alloc, elements, Kind::Way, node)
}

/// The visible relations that list an element, by id, itself left out.
pub fn relations_of(
    alloc: Global,
    elements: &Elements,
    key: Key,
) -> Result<Items<VersionId>, Memory>
    ensures { IfOk result (λ found. found ≡ relations_of elements.now key) }
{
    users_of_kind(alloc, elements, Kind::Relation, key)
}

/// The users of an element that are of one kind. It looks at every element of that kind.
fn users_of_kind(
    alloc: Global,
    elements: &Elements,
    kind: Kind,
    used: Key,
) -> Result<Items<VersionId>, Memory>
    ensures { IfOk result (λ found. found ≡ users_of_kind elements.now kind used) }
{
    let mut found = Vec::new(alloc);
    for place in 0..elements.histories(kind).len() {
        let user = Key {
            kind,
            id: place as u64 + 1,
        };
        add_user(elements, user, used, &mut found)?;
    }
    Ok(Items::of(found))
}

/// Adds an element as it is now, if it is a user.
fn add_user(
    elements: &Elements,
    user: Key,
    used: Key,
    found: &mut Vec<VersionId>,
) -> Result<(), Memory>
    ensures { IfOk result (λ _. found.new.items ≡ found.old.items ++ map (current_shown elements.now) (filter
        (λ a. uses elements.now a used) (user ∷ []))) }
{
    if elements.uses(user, used) {
        found.push(current(elements, user))?;
    }
    Ok(())
}
