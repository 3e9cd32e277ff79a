//! Who uses an element, found by going through all.
ghost use Rattle.std.specs.Prelude.{◌≡◌, ◌++◌, ◌∷◌, [], filter, length, slice_get, IfOk};
ghost use Rattle.osm_element.specs.Elements.{keys_to, histories, uses, users, first_user};

use crate::elements::Elements;
use osm_base::{Key, Kind, Memory};
use std::alloc::Global;

impl Elements {
    /// Whether an element is visible, lists the other, and isn't that other.
    pub fn uses(&self, user: Key, used: Key) -> bool
        ensures { result ≡ uses self.now user used }
    {
        match self.content(user) {
            Some(content) => content.lists(used) && !user.is(used),
            None => false,
        }
    }

    /// The visible elements that list this one, itself left out, in the order of keys. It looks at
    /// every element.
    pub fn users(&self, alloc: Global, key: Key) -> Result<Vec<Key>, Memory>
        ensures { IfOk result (λ made. made.items ≡ users self.now key) }
    {
        let mut found = Vec::new(alloc);
        add_users(self, Kind::Node, key, &mut found)?;
        add_users(self, Kind::Way, key, &mut found)?;
        add_users(self, Kind::Relation, key, &mut found)?;
        Ok(found)
    }

    /// The least of the users, in the order of keys. It looks at every element up to that one.
    pub fn first_user(&self, key: Key) -> Option<Key>
        ensures { result ≡ first_user self.now key }
    {
        if let Some(node) = first_of_kind(self, Kind::Node, key) {
            return Some(node);
        }
        if let Some(way) = first_of_kind(self, Kind::Way, key) {
            return Some(way);
        }
        first_of_kind(self, Kind::Relation, key)
    }
}

/// The least of the users of one kind.
#[tactic(auto, using(crate::proofs::FirstUser::none_more))]
fn first_of_kind(elements: &Elements, kind: Kind, used: Key) -> Option<Key>
    ensures { result ≡ slice_get (filter (λ a. uses elements.now a used) (keys_to kind (length (histories elements.now kind)))) 0 }
{
    for place in 0..elements.histories(kind).len() {
        let user = Key {
            kind,
            id: place as u64 + 1,
        };
        if elements.uses(user, used) {
            return Some(user);
        }
    }
    None
}

/// Adds an element, if it is a user.
fn add_user(elements: &Elements, user: Key, used: Key, found: &mut Vec<Key>) -> Result<(), Memory>
    ensures { IfOk result (λ _. found.new.items ≡ found.old.items ++ filter (λ a. uses elements.now a used) (user ∷ [])) }
{
    if elements.uses(user, used) {
        found.push(user)?;
    }
    Ok(())
}

/// Adds the users of one kind, by id.
fn add_users(elements: &Elements, kind: Kind, used: Key, found: &mut Vec<Key>) -> Result<(), Memory>
    ensures { IfOk result (λ _. found.new.items ≡ found.old.items ++ filter
        (λ a. uses elements.now a used) (keys_to kind (length (histories elements.now kind)))) }
{
    for place in 0..elements.histories(kind).len() {
        let user = Key {
            kind,
            id: place as u64 + 1,
        };
        add_user(elements, user, used, found)?;
    }
    Ok(())
}
