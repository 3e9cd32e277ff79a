//! What an upload has come to so far, beside the map of before.
ghost use Rattle.std.specs.Prelude.{◌≡◌, ℕ, ◌<◌, ◌^◌, [], ◌∷◌, ◌++◌, List, None, Some, length, IfOk, OnOk, OnErr};
ghost use Rattle.osm_element.specs.declared.contents.Content.TheVariants as content;
ghost use Rattle.osm_element.specs.Elements.{refs_in};
ghost use Rattle.osm_change.specs.Keys.{ids_after};
ghost use Rattle.osm_change.specs.declared.operations.Op.{Op};
ghost use Rattle.changeset_core.specs.Changeset.{join_areas};
ghost use Rattle.diff_result.specs.Counted.{HasNumbers};
ghost use Rattle.osm_model.specs.Fold.{start};
ghost use Rattle.osm_world.specs.Beds.{first_ids, content_of_op};
ghost use Rattle.osm_world.specs.World.{state_of};
ghost use Rattle.upload_check.specs.Effects.{holds_of, HasUsers, IsApplied, IsEntered, IsFresh};
ghost use Rattle.upload_check.specs.Overlay.{content_now, position_now, sight, standing, touched_now, StandsAlike, StandsFor};
ghost use Rattle.upload_check.specs.Passed.{box_listed};

use crate::boxes::Moved;
use crate::checks::Passed;
use crate::counts::{make, revise};
use crate::creations::Creations;
use crate::references::add_given;
use crate::sights::View;
use crate::standings::{Holds, Standing, Standings};
use changeset_core::join_boxes;
use osm_base::{Box7, Key, Kind, Memory};
use osm_change::{FirstIds, Op};
use osm_world::World;
use rising_lists::keys_sorted_once;
use std::alloc::Global;
use std::marker::Model;
use std::mem;

/// What the operations of an upload have come to so far, beside the map of before: their elements,
/// the ids that come next, where each element stands of which they changed anything, and the box of
/// what they touched. The lists `ended` and `begun` serve one operation after the other.
#[derive(Drop)]
pub struct Overlay {
    keys: Vec<Key>,
    next: FirstIds,
    standings: Standings,
    touched: Option<Box7>,
    ended: Vec<Key>,
    begun: Vec<Key>,
}

impl Model for Overlay {
    ghost use Rattle.upload_check.specs.Overlay.{Overlaid};

    ghost Value = { Overlaid };

    ghost view = { λ o. record { keys = o.keys.items; next = o.next; notes = o.standings; touched = o.touched } };
}

impl Overlay {
    /// The start of an upload of some operations.
    pub fn new(alloc: Global, world: &World, operations: &[Op]) -> Result<Overlay, Memory>
        ensures start { IfOk result
            (λ over. (ops : List Op) → StandsFor (sight (state_of world.now).elements ops over) (start (state_of world.now).elements)) }
        ensures keys { IfOk result (λ over. over.keys ≡ []) }
        ensures next { IfOk result (λ over. over.next ≡ first_ids (state_of world.now).elements) }
        ensures few { IfOk result (λ over. (n : ℕ) → n < 2 ^ 32 → HasNumbers over.next n) }
    {
        let keys = Vec::with_capacity(alloc, operations.len())?;
        let next = first_ids(world);
        Ok(Overlay {
            keys,
            next,
            standings: Standings::new(alloc, next, Creations::of(operations)),
            touched: None,
            ended: Vec::new(alloc),
            begun: Vec::new(alloc),
        })
    }

    /// The elements of the operations so far.
    pub fn keys(&self) -> &[Key]
        ensures { result.now ≡ self.now.keys }
    {
        self.keys.as_slice()
    }

    /// The ids that the next elements of each kind get.
    pub fn next(&self) -> FirstIds
        ensures { result ≡ self.now.next }
    {
        self.next
    }

    /// The least box of what the operations so far touched, if that is anything.
    pub fn touched(&self) -> Option<Box7>
        ensures { result ≡ self.now.touched }
    {
        self.touched
    }

    /// What is noted of elements.
    pub(crate) fn standings(&self) -> &Standings
        ensures { result.now ≡ self.now.notes }
    {
        &self.standings
    }

    /// Enters an operation that is passed. After `Memory` the overlay stands for what it did.
    pub(crate) fn enter(
        &mut self,
        alloc: Global,
        world: &World,
        operations: &[Op],
        operation: &Op,
        passed: Passed,
    ) -> Result<(), Memory>
        requires few { length self.old.keys < 2 ^ 32 }
        requires users { HasUsers (sight (state_of world.now).elements operations.now self.old) passed.step.key }
        requires fresh { IsFresh (sight (state_of world.now).elements operations.now self.old) operation.now passed.step.key }
        requires stood { passed.stood ≡ standing (sight (state_of world.now).elements operations.now self.old) passed.step.key }
        requires area { passed.area ≡ box_listed (sight (state_of world.now).elements operations.now self.old) operation.now }
        ensures entered { OnOk result (IsEntered (sight (state_of world.now).elements operations.now self.old) operation.now passed.step self.new) }
        ensures memory { OnErr result (StandsAlike (state_of world.now).elements self.old self.new) }
    {
        let key = passed.step.key;
        let stood = passed.stood;
        if !passed.step.applies {
            return self.skip(operation, key);
        }
        let moved = View {
            world,
            operations,
            over: self,
        }
        .moved(operation, key, stood.holds);
        match moved {
            Some(moved) => self.place(world, operations, operation, moved, key, stood),
            None => self.apply(alloc, world, operations, operation, key, stood, passed.area),
        }
    }

    /// Enters an operation that leaves its element as it is.
    fn skip(&mut self, operation: &Op, key: Key) -> Result<(), Memory>
        ensures entered { OnOk result (self.new ≡ record self.old { keys = self.old.keys ++ key ∷ []; next = ids_after self.old.next operation.now }) }
        ensures memory { OnErr result (self.new ≡ self.old) }
    {
        let next = self.next.after(operation)?;
        self.keys.push(key)?;
        self.next = next;
        Ok(())
    }

    /// Enters an operation that creates or moves a node, which lists nothing before it and nothing after
    /// it: what it touches is the node's places. It comes to the same as `apply`.
    #[tactic(auto, using(crate::proofs::Placed::touched_placed))]
    fn place(
        &mut self,
        world: &World,
        operations: &[Op],
        operation: &Op,
        moved: Moved,
        key: Key,
        stood: Standing,
    ) -> Result<(), Memory>
        requires few { length self.old.keys < 2 ^ 32 }
        requires listed { refs_in (content_now (sight (state_of world.now).elements operations.now self.old) key) ≡ [] }
        requires from { moved.from ≡ position_now (sight (state_of world.now).elements operations.now self.old) key }
        requires to { content_of_op self.old.keys operation.now ≡ Some (content.Node moved.to) }
        requires stood { stood ≡ standing (sight (state_of world.now).elements operations.now self.old) key }
        ensures keys { OnOk result (self.new.keys ≡ self.old.keys ++ key ∷ []) }
        ensures next { OnOk result (self.new.next ≡ ids_after self.old.next operation.now) }
        ensures notes { OnOk result (IsApplied (sight (state_of world.now).elements operations.now self.old) operation.now key self.new.notes) }
        ensures touched { OnOk result (self.new.touched ≡ join_areas self.old.touched (touched_now (sight (state_of world.now).elements operations.now self.old) key (content_of_op self.old.keys operation.now))) }
        ensures memory { OnErr result (StandsAlike (state_of world.now).elements self.old self.new) }
    {
        let next = self.next.after(operation)?;
        let holds = holds_of(self.keys().len() as u32, operation);
        self.keys.reserve(1)?;
        revise(&mut self.standings, key, stood, holds)?;
        self.keys.push_reserved(key);
        self.next = next;
        self.touched = join_boxes(self.touched, moved.touched());
        Ok(())
    }

    /// Enters an operation that makes a version of an element which stood there, counts the users of
    /// what it listed and of what it lists, and joins the box of what it touches. Room for the key is
    /// taken before the counts change, so that want of memory leaves what the overlay stands for.
    fn apply(
        &mut self,
        alloc: Global,
        world: &World,
        operations: &[Op],
        operation: &Op,
        key: Key,
        stood: Standing,
        area: Option<Box7>,
    ) -> Result<(), Memory>
        requires few { length self.old.keys < 2 ^ 32 }
        requires users { HasUsers (sight (state_of world.now).elements operations.now self.old) key }
        requires fresh { IsFresh (sight (state_of world.now).elements operations.now self.old) operation.now key }
        requires stood { stood ≡ standing (sight (state_of world.now).elements operations.now self.old) key }
        requires area { area ≡ box_listed (sight (state_of world.now).elements operations.now self.old) operation.now }
        ensures keys { OnOk result (self.new.keys ≡ self.old.keys ++ key ∷ []) }
        ensures next { OnOk result (self.new.next ≡ ids_after self.old.next operation.now) }
        ensures notes { OnOk result (IsApplied (sight (state_of world.now).elements operations.now self.old) operation.now key self.new.notes) }
        ensures touched { OnOk result (self.new.touched ≡ join_areas self.old.touched (touched_now (sight (state_of world.now).elements operations.now self.old) key (content_of_op self.old.keys operation.now))) }
        ensures memory { OnErr result (StandsAlike (state_of world.now).elements self.old self.new) }
    {
        let next = self.next.after(operation)?;
        let ended = self.ended_uses(alloc, world, operations, operation, key, stood.holds)?;
        let begun = self.begun_uses(alloc, operation)?;
        let touched = View {
            world,
            operations,
            over: self,
        }
        .touched(
            operation,
            key,
            stood.holds,
            area,
            begun.as_slice(),
            ended.as_slice(),
        );
        let holds = holds_of(self.keys().len() as u32, operation);
        self.keys.reserve(1)?;
        let ended = keys_sorted_once(ended);
        let begun = keys_sorted_once(begun);
        make(
            world,
            &mut self.standings,
            key,
            stood,
            holds,
            ended.as_slice(),
            begun.as_slice(),
        )?;
        self.keys.push_reserved(key);
        self.next = next;
        self.touched = join_boxes(self.touched, touched);
        self.ended = ended;
        self.begun = begun;
        Ok(())
    }

    /// What the element of an operation lists before it, where its content stands there, in list
    /// order, in the list of the last operation.
    fn ended_uses(
        &mut self,
        alloc: Global,
        world: &World,
        operations: &[Op],
        operation: &Op,
        key: Key,
        holds: Holds,
    ) -> Result<Vec<Key>, Memory>
        requires fresh { IsFresh (sight (state_of world.now).elements operations.now self.old) operation.now key }
        requires holds { holds ≡ (standing (sight (state_of world.now).elements operations.now self.old) key).holds }
        ensures same { self.new ≡ self.old }
        ensures listed { IfOk result
            (λ listed. listed.items ≡ refs_in (content_now (sight (state_of world.now).elements operations.now self.old) key)) }
    {
        let mut listed = mem::replace(&mut self.ended, Vec::new(alloc));
        listed.clear();
        let view = View {
            world,
            operations,
            over: self,
        };
        view.add_replaced(operation, key, holds, &mut listed)?;
        Ok(listed)
    }

    /// What an operation's content lists, in list order, in the list of the last operation.
    fn begun_uses(&mut self, alloc: Global, operation: &Op) -> Result<Vec<Key>, Memory>
        ensures same { self.new ≡ self.old }
        ensures listed { IfOk result (λ listed. listed.items ≡ refs_in (content_of_op self.old.keys operation.now)) }
    {
        let mut listed = mem::replace(&mut self.begun, Vec::new(alloc));
        listed.clear();
        add_given(self.keys.as_slice(), operation, &mut listed)?;
        Ok(listed)
    }
}

/// Where the content of the operation at a place stands.
fn holds_of(place: u32, operation: &Op) -> Holds
    ensures { result ≡ holds_of place operation.now }
{
    match operation {
        Op::Create { .. } | Op::Modify { .. } => Holds::FromOperation(place),
        Op::Delete { .. } => Holds::Nothing,
    }
}

/// The ids that the next elements of each kind get on a world.
pub fn first_ids(world: &World) -> FirstIds
    ensures value { result ≡ first_ids (state_of world.now).elements }
    ensures few { (n : ℕ) → n < 2 ^ 32 → HasNumbers result n }
{
    let store = world.store();
    FirstIds {
        node: store.next_id(Kind::Node),
        way: store.next_id(Kind::Way),
        relation: store.next_id(Kind::Relation),
    }
}
