//! Where elements stand.
ghost use Rattle.std.specs.Prelude.{◌≡◌, None, Some, if◌then◌else◌, OnOk, OnErr};
ghost use Rattle.osm_base.specs.Key.{key_eq};
ghost use Rattle.osm_base.specs.declared.keys.Key.{Key};
ghost use Rattle.upload_check.specs.Overlay.{noted, IsNoted};

use crate::creations::Creations;
use crate::kind_standings::KindStandings;
use osm_base::{Key, Kind, Memory};
use osm_change::FirstIds;
use osm_world::World;
use std::alloc::Global;
use std::marker::Model;

/// Where an element's content stands.
#[derive(Clone, Copy)]
pub enum Holds {
    /// What it held before the upload.
    AsBefore,
    /// It is deleted.
    Nothing,
    /// The content that the operation at this place gives, counted from 0.
    FromOperation(u32),
}

/// Where an element stands after some operations: how many versions it has, what it holds, and how
/// many elements use it.
#[derive(Clone, Copy)]
pub struct Standing {
    pub versions: u64,
    pub holds: Holds,
    pub users: u64,
}

/// Where the elements stand of which the operations changed anything.
#[derive(Drop)]
pub struct Standings {
    nodes: KindStandings,
    ways: KindStandings,
    relations: KindStandings,
}

impl Model for Standings {
    ghost use Rattle.upload_check.specs.Overlay.{Notes};

    ghost Value = { Notes };

    ghost view = { λ s. record { nodes = s.nodes; ways = s.ways; relations = s.relations } };
}

impl Standings {
    /// Nothing is noted, and created elements have ids from `first` on. The first of each kind takes
    /// room for all of them; this takes no memory.
    pub fn new(alloc: Global, first: FirstIds, creations: Creations) -> Standings
        ensures { (k : Key) → noted result k ≡ None }
    {
        Standings {
            nodes: KindStandings::new(alloc, first.node, creations.nodes),
            ways: KindStandings::new(alloc, first.way, creations.ways),
            relations: KindStandings::new(alloc, first.relation, creations.relations),
        }
    }

    /// What is noted of an element.
    pub fn look(&self, key: Key) -> Option<Standing>
        ensures { result ≡ noted self.now key }
    {
        match key.kind {
            Kind::Node => self.nodes.look(key.id),
            Kind::Way => self.ways.look(key.id),
            Kind::Relation => self.relations.look(key.id),
        }
    }

    /// Notes where an element stands now. `Memory` leaves what is noted.
    pub fn set(&mut self, key: Key, standing: Standing) -> Result<(), Memory>
        ensures set { OnOk result ((k : Key) → noted self.new k ≡ (if key_eq k key then Some standing else noted self.old k)) }
        ensures memory { OnErr result (self.new ≡ self.old) }
    {
        match key.kind {
            Kind::Node => self.nodes.set(key.id, standing),
            Kind::Way => self.ways.set(key.id, standing),
            Kind::Relation => self.relations.set(key.id, standing),
        }
    }

    /// Notes where an element stands now of which something is noted. It takes no memory.
    pub fn change(&mut self, key: Key, standing: Standing)
        requires { IsNoted self.old key }
        ensures { (k : Key) → noted self.new k ≡ (if key_eq k key then Some standing else noted self.old k) }
    {
        match key.kind {
            Kind::Node => self.nodes.change(key.id, standing),
            Kind::Way => self.ways.change(key.id, standing),
            Kind::Relation => self.relations.change(key.id, standing),
        }
    }
}

ghost use Rattle.osm_world.specs.World.{state_of};
ghost use Rattle.upload_check.specs.Overlay.{standing_before, standing_in};

/// Where an element stands before the upload.
pub fn standing_before(world: &World, key: Key) -> Standing
    ensures { result ≡ standing_before (state_of world.now).elements key }
{
    let users = world.users(key);
    Standing {
        versions: world.store().count(key),
        holds: Holds::AsBefore,
        users: users.items().len() as u64,
    }
}

/// Where an element stands: as before the upload, where nothing is noted of it.
pub fn standing_in(world: &World, standings: &Standings, key: Key) -> Standing
    ensures { result ≡ standing_in (state_of world.now).elements standings.now key }
{
    match standings.look(key) {
        Some(standing) => standing,
        None => standing_before(world, key),
    }
}
