//! The map as some operations left it.
ghost use Rattle.std.specs.Prelude.{◌≡◌, ◌++◌, List, take, filter, slice_get, option_map, OnOk};
ghost use Rattle.osm_base.specs.Key.{lists_key};
ghost use Rattle.osm_base.specs.declared.keys.Key.{Key};
ghost use Rattle.osm_element.specs.Elements.{content_of, position_in, refs_in};
ghost use Rattle.osm_element.specs.Held.{held_content};
ghost use Rattle.osm_world.specs.Beds.{content_of_op};
ghost use Rattle.osm_world.specs.World.{state_of};
ghost use Rattle.upload_check.specs.Checks.{least_where, least_user};
ghost use Rattle.upload_check.specs.Effects.{IsFresh};
ghost use Rattle.upload_check.specs.Overlay.{standing, content_now, is_visible, uses};
ghost use Rattle.upload_check.specs.Passed.{place_named, place_seen};
ghost use Rattle.upload_check.specs.Users.{least};

use crate::overlays::Overlay;
use crate::references::{add_given, add_refs, op_lists};
use crate::standings::{Holds, Standing, standing_in};
use osm_base::{Coord, Key, Kind, Memory};
use osm_change::{Name, Op};
use osm_element::{Content, Held};
use osm_world::World;
use std::marker::Model;

/// The map as some operations left it: the overlay over the world. An operation's content is read
/// where it stands in the upload.
#[derive(Drop)]
pub struct View<'a> {
    pub world: &'a World,
    pub operations: &'a [Op],
    pub over: &'a Overlay,
}

impl<'a> Model for View<'a> {
    ghost use Rattle.osm_world.specs.World.{state_of};
    ghost use Rattle.upload_check.specs.Overlay.{Sight, sight};

    ghost Value = { Sight };

    ghost view = { λ v. sight (state_of v.world.now).elements v.operations.now v.over.now };
}

/// What an element held before the upload.
pub fn stored(world: &World, key: Key) -> Option<Held<'_>>
    ensures { option_map held_content result ≡ content_of (state_of world.now).elements key }
{
    match world.store().current(key) {
        Some(version) => version.content(),
        None => None,
    }
}

/// Whether a content lists an element.
fn stored_lists(content: &Option<Held<'_>>, used: Key) -> bool
    ensures { result ≡ lists_key (refs_in (option_map held_content content.now)) used }
{
    match content {
        Some(content) => content.lists(used),
        None => false,
    }
}

/// Where what a content is of lies, if it is visible: nowhere, if it is no node.
fn seen_stored(content: &Option<Held<'_>>) -> Option<Option<Coord>>
    ensures { result ≡ option_map position_in (option_map held_content content.now) }
{
    match content {
        Some(held) => Some(held.position()),
        None => None,
    }
}

/// The same of the content that an operation gives, if it gives one.
fn seen_given(operation: &Op) -> Option<Option<Coord>>
    ensures { (ks : List Key) → result ≡ option_map position_in (content_of_op ks operation.now) }
{
    match operation {
        Op::Create { content, .. } | Op::Modify { content, .. } => match content {
            Content::Node(at) => Some(Some(*at)),
            Content::Way(_) | Content::Relation(_) => Some(None),
        },
        Op::Delete { .. } => None,
    }
}

impl<'a> View<'a> {
    /// Where an element stands: as before, where nothing is noted of it.
    pub fn standing(&self, key: Key) -> Standing
        ensures { result ≡ standing self.now key }
    {
        standing_in(self.world, self.over.standings(), key)
    }

    /// How many versions an element has. Its users aren't looked for.
    pub fn versions(&self, key: Key) -> u64
        ensures { result ≡ (standing self.now key).versions }
    {
        match self.over.standings().look(key) {
            Some(standing) => standing.versions,
            None => self.world.store().count(key),
        }
    }

    /// Where an element's content stands.
    pub fn holds(&self, key: Key) -> Holds
        ensures { result ≡ (standing self.now key).holds }
    {
        match self.over.standings().look(key) {
            Some(standing) => standing.holds,
            None => Holds::AsBefore,
        }
    }

    /// The elements of the operations before a place.
    pub fn keys_before(&self, place: u32) -> &[Key]
        ensures { result.now ≡ take place self.now.over.keys }
    {
        let keys = self.over.keys();
        match keys.get(..place as usize) {
            Some(before) => before,
            None => keys,
        }
    }

    /// Where an element lies whose content stands there, if it is visible: nowhere, if it is no node.
    pub fn place_seen(&self, key: Key, holds: Holds) -> Option<Option<Coord>>
        requires { holds ≡ (standing self.now key).holds }
        ensures { result ≡ place_seen self.now key }
    {
        match holds {
            Holds::AsBefore => seen_stored(&stored(self.world, key)),
            Holds::Nothing => None,
            Holds::FromOperation(place) => match self.operations.get(place as usize) {
                Some(operation) => seen_given(operation),
                None => None,
            },
        }
    }

    /// Whether an element whose content stands there isn't deleted.
    pub fn is_visible(&self, key: Key, holds: Holds) -> bool
        requires { holds ≡ (standing self.now key).holds }
        ensures { result ≡ is_visible self.now key }
    {
        self.place_seen(key, holds).is_some()
    }

    /// The same of an element that is named: it is looked for once.
    pub fn place_named(&self, kind: Kind, name: Name) -> Option<Option<Coord>>
        ensures { result ≡ place_named self.now kind name }
    {
        match self.known(kind, name) {
            Some(key) => self.place_seen(key, self.holds(key)),
            None => None,
        }
    }

    fn lists(&self, user: Key, used: Key) -> bool
        ensures { result ≡ lists_key (refs_in (content_now self.now user)) used }
    {
        match self.holds(user) {
            Holds::AsBefore => stored_lists(&stored(self.world, user), used),
            Holds::Nothing => false,
            Holds::FromOperation(place) => match self.operations.get(place as usize) {
                Some(operation) => op_lists(self.keys_before(place), operation, used),
                None => false,
            },
        }
    }

    /// Adds what an element lists whose content stands there, in list order.
    fn add_listed(&self, user: Key, holds: Holds, listed: &mut Vec<Key>) -> Result<(), Memory>
        requires { holds ≡ (standing self.now user).holds }
        ensures { OnOk result (listed.new.items ≡ listed.old.items ++ refs_in (content_now self.now user)) }
    {
        match holds {
            Holds::AsBefore => match stored(self.world, user) {
                Some(content) => add_refs(&content, listed),
                None => Ok(()),
            },
            Holds::Nothing => Ok(()),
            Holds::FromOperation(place) => match self.operations.get(place as usize) {
                Some(operation) => add_given(self.keys_before(place), operation, listed),
                None => Ok(()),
            },
        }
    }

    /// Adds what the element of an operation lists before it, where its content stands there. What it
    /// creates isn't looked for.
    pub fn add_replaced(
        &self,
        operation: &Op,
        key: Key,
        holds: Holds,
        listed: &mut Vec<Key>,
    ) -> Result<(), Memory>
        requires fresh { IsFresh self.now operation.now key }
        requires holds { holds ≡ (standing self.now key).holds }
        ensures { OnOk result (listed.new.items ≡ listed.old.items ++ refs_in (content_now self.now key)) }
    {
        match operation {
            Op::Create { .. } => Ok(()),
            Op::Modify { .. } | Op::Delete { .. } => self.add_listed(key, holds, listed),
        }
    }

    /// Whether an element is visible, lists the other, and isn't that other.
    pub fn uses(&self, user: Key, used: Key) -> bool
        ensures { result ≡ uses self.now user used }
    {
        self.lists(user, used) && !user.is(used)
    }

    /// The first of some elements that uses another.
    #[tactic(auto, using(crate::proofs::FirstUser::no_passing_more, crate::proofs::FirstUser::no_passing_end, crate::proofs::FirstUser::passing_found))]
    fn first_of(&self, keys: &[Key], used: Key) -> Option<Key>
        ensures { result ≡ slice_get (filter (λ a. uses self.now a used) keys.now) 0 }
    {
        for key in keys {
            if self.uses(*key, used) {
                return Some(*key);
            }
        }
        None
    }

    /// The least of some elements that uses another.
    fn least_of(&self, keys: &[Key], used: Key) -> Option<Key>
        ensures { result ≡ least_where (λ a. uses self.now a used) keys.now }
    {
        let mut found = None;
        for key in keys {
            found = self.lesser(found, *key, used);
        }
        found
    }

    fn lesser(&self, found: Option<Key>, key: Key, used: Key) -> Option<Key>
        ensures { result ≡ lesser_where (λ a. uses self.now a used) found key }
    {
        if self.uses(key, used) {
            least_key(found, Some(key))
        } else {
            found
        }
    }

    /// The least element that uses another. It is a user of before, or the element of an operation.
    pub fn least_user(&self, used: Key) -> Option<Key>
        ensures { result ≡ least_user self.now used }
    {
        let users = self.world.users(used);
        let first = self.first_of(users.items(), used);
        least_key(first, self.least_of(self.over.keys(), used))
    }
}

ghost use Rattle.upload_check.specs.Checks.{lesser_where};

/// The lesser of two keys, where there are any.
fn least_key(one: Option<Key>, other: Option<Key>) -> Option<Key>
    ensures { result ≡ least one other }
{
    match (one, other) {
        (None, other) => other,
        (Some(one), None) => Some(one),
        (Some(one), Some(other)) => {
            if other.is_before(one) {
                Some(other)
            } else {
                Some(one)
            }
        }
    }
}
