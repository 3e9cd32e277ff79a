//! The box of what an operation touches, on the map as those before it left it.
ghost use Rattle.std.specs.Prelude.{◌≡◌, List, [], ◌∷◌, ◌++◌, None, Some, IfSome, false, if◌then◌else◌, filter_map, option_map, option_to_list, slice_get};
ghost use Rattle.std.specs.Option.{option_map_or};
ghost use Rattle.osm_base.specs.Key.{key_eq};
ghost use Rattle.osm_base.specs.declared.keys.Key.{Key};
ghost use Rattle.osm_element.specs.Elements.{refs_in};
ghost use Rattle.osm_element.specs.Held.{held_content};
ghost use Rattle.osm_element.specs.declared.contents.Content.TheVariants as content;
ghost use Rattle.changeset_core.specs.Changeset.{new_position, widen_all};
ghost use Rattle.osm_world.specs.Beds.{content_of_op};
ghost use Rattle.upload_check.specs.Effects.{IsFresh};
ghost use Rattle.upload_check.specs.Overlay.{content_now, position_now, standing};

use crate::sights::{View, stored};
use crate::standings::Holds;
use osm_base::{Box7, Coord, Key};
use osm_change::Op;
use osm_element::{Content, Held};

/// The place that an operation gives its element, if that is a node.
fn place_given(operation: &Op) -> Option<Coord>
    ensures { (ks : List Key) → result ≡ new_position (content_of_op ks operation.now) }
{
    match operation {
        Op::Create { content, .. } | Op::Modify { content, .. } => match content {
            Content::Node(at) => Some(*at),
            _ => None,
        },
        Op::Delete { .. } => None,
    }
}

/// The least box with a place, where there is one.
pub fn with_place(area: Option<Box7>, place: Option<Coord>) -> Option<Box7>
    ensures { result ≡ widen_all area (option_to_list place) }
{
    match (area, place) {
        (Some(area), Some(at)) => Some(area.with(at)),
        (None, Some(at)) => Some(Box7::at(at)),
        (area, None) => area,
    }
}

/// Where an element lay before an operation, if it was a visible node, and where it lies as the node
/// that it is then. It listed nothing, and lists nothing.
#[derive(Clone, Copy)]
pub struct Moved {
    pub from: Option<Coord>,
    pub to: Coord,
}

impl Moved {
    /// The least box of both places.
    pub fn touched(self) -> Option<Box7>
        ensures { result ≡ widen_all (widen_all None (option_to_list self.from)) (option_to_list (Some self.to)) }
    {
        with_place(with_place(None, self.from), Some(self.to))
    }
}

/// What a content that an operation replaces is moved from, if it is a node's.
fn moved_from(content: &Option<Held<'_>>, to: Coord) -> Option<Moved>
    ensures listed { IfSome result (λ moved. refs_in (option_map held_content content.now) ≡ []) }
    ensures from { IfSome result (λ moved. moved.from ≡ new_position (option_map held_content content.now)) }
    ensures to { IfSome result (λ moved. moved.to ≡ to) }
{
    match content {
        Some(Held::Node(from)) => Some(Moved {
            from: Some(*from),
            to,
        }),
        _ => None,
    }
}

/// Whether a list has this element at a place.
fn has_at(keys: &[Key], place: usize, key: Key) -> bool
    ensures { result ≡ option_map_or (λ k. key_eq k key) (slice_get keys.now place) false }
{
    match keys.get(place) {
        Some(other) => other.is(key),
        None => false,
    }
}

impl<'a> View<'a> {
    /// Where an element lies whose content stands there, if it is a visible node.
    fn place_held(&self, key: Key, holds: Holds) -> Option<Coord>
        requires { holds ≡ (standing self.now key).holds }
        ensures { result ≡ position_now self.now key }
    {
        match holds {
            Holds::AsBefore => self.world.store().place_of(key),
            Holds::Nothing => None,
            Holds::FromOperation(place) => match self.operations.get(place as usize) {
                Some(operation) => place_given(operation),
                None => None,
            },
        }
    }

    /// What a node's content that stands there is moved from by an operation.
    fn moved_to(&self, key: Key, holds: Holds, to: Coord) -> Option<Moved>
        requires { holds ≡ (standing self.now key).holds }
        ensures listed { IfSome result (λ moved. refs_in (content_now self.now key) ≡ []) }
        ensures from { IfSome result (λ moved. moved.from ≡ position_now self.now key) }
        ensures to { IfSome result (λ moved. moved.to ≡ to) }
    {
        match holds {
            Holds::AsBefore => moved_from(&stored(self.world, key), to),
            _ => None,
        }
    }

    /// Where the element of an operation lies before and after it, if the operation creates a node, or
    /// moves one that was there before the upload. It is looked up once.
    #[tactic(auto, using(crate::proofs::Placed::node_there))]
    pub fn moved(&self, operation: &Op, key: Key, holds: Holds) -> Option<Moved>
        requires fresh { IsFresh self.now operation.now key }
        requires holds { holds ≡ (standing self.now key).holds }
        ensures listed { IfSome result (λ moved. refs_in (content_now self.now key) ≡ []) }
        ensures from { IfSome result (λ moved. moved.from ≡ position_now self.now key) }
        ensures to { IfSome result (λ moved. (ks : List Key) → content_of_op ks operation.now ≡ Some (content.Node moved.to)) }
    {
        let Some(to) = place_given(operation) else {
            return None;
        };
        match operation {
            Op::Create { .. } => Some(Moved { from: None, to }),
            Op::Modify { .. } => self.moved_to(key, holds, to),
            Op::Delete { .. } => None,
        }
    }

    /// Where an element lies, if it is a visible node.
    fn place_of(&self, key: Key) -> Option<Coord>
        ensures { result ≡ position_now self.now key }
    {
        self.place_held(key, self.holds(key))
    }

    /// Where the element of an operation lies before it, whose content stands there. What it creates
    /// isn't looked for.
    fn place_before(&self, operation: &Op, key: Key, holds: Holds) -> Option<Coord>
        requires fresh { IsFresh self.now operation.now key }
        requires holds { holds ≡ (standing self.now key).holds }
        ensures { result ≡ position_now self.now key }
    {
        match operation {
            Op::Create { .. } => None,
            Op::Modify { .. } | Op::Delete { .. } => self.place_held(key, holds),
        }
    }

    /// The box with the place of an element, unless it is known to hold that.
    fn with_element(&self, area: Option<Box7>, key: Key, known: bool) -> Option<Box7>
        ensures { result ≡ (if known then area else widen_all area (option_to_list (position_now self.now key))) }
    {
        if known {
            area
        } else {
            with_place(area, self.place_of(key))
        }
    }

    /// The least box with the places of the elements of both lists, from that of what begins. What
    /// stands at the same place in both isn't looked at, so where a long list hardly changes, what ends
    /// costs next to nothing.
    fn with_ended(&self, area: Option<Box7>, begun: &[Key], ended: &[Key]) -> Option<Box7>
        requires { area ≡ widen_all None (filter_map (position_now self.now) begun.now) }
        ensures { result ≡ widen_all None (filter_map (position_now self.now) (begun.now ++ ended.now)) }
    {
        let mut both = area;
        for (place, key) in ended.iter().enumerate() {
            both = self.with_element(both, *key, has_at(begun, place, *key));
        }
        both
    }

    /// The least box of what an operation touches, from that of what it lists: where its element lies,
    /// whose content stands there, where what the element listed lies, and the element's new place.
    pub fn touched(
        &self,
        operation: &Op,
        key: Key,
        holds: Holds,
        area: Option<Box7>,
        begun: &[Key],
        ended: &[Key],
    ) -> Option<Box7>
        requires fresh { IsFresh self.now operation.now key }
        requires holds { holds ≡ (standing self.now key).holds }
        requires area { area ≡ widen_all None (filter_map (position_now self.now) begun.now) }
        ensures { result ≡ widen_all None (filter_map (position_now self.now) (key ∷ (ended.now ++ begun.now)) ++ option_to_list (new_position (content_of_op self.now.over.keys operation.now))) }
    {
        let area = self.with_ended(area, begun, ended);
        let area = with_place(area, self.place_before(operation, key, holds));
        with_place(area, place_given(operation))
    }
}
