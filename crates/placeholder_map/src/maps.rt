//! Placeholders of an upload, and where they are bound.
ghost use Rattle.std.specs.Prelude.{◌≡◌, length, OnOk, OnErr, Ok, IfOk};

use indexmap::IndexMap;
use osm_base::{Kind, Memory};
use std::alloc::Global;
use std::marker::Model;

/// The place of each operation that creates an element, by the element's kind and placeholder. A
/// placeholder is bound once. The start of the hashing is fixed.
#[derive(Drop)]
pub struct PlaceholderMap {
    nodes: IndexMap<i64, u32>,
    ways: IndexMap<i64, u32>,
    relations: IndexMap<i64, u32>,
}

impl Model for PlaceholderMap {
    ghost use Rattle.placeholder_map.specs.Placeholders.{Placeholders};

    ghost Value = { Placeholders };

    ghost view = { λ m. record { nodes = m.nodes.entries; ways = m.ways.entries; relations = m.relations.entries } };
}

impl PlaceholderMap {
    ghost use Rattle.placeholder_map.specs.Placeholders.{Placeholders, no_placeholders, bindings, look_of, bound, is_bound};

    /// A map that binds nothing. It takes no memory.
    pub fn new(alloc: Global) -> PlaceholderMap
        ensures { result ≡ no_placeholders }
    {
        PlaceholderMap {
            nodes: IndexMap::new(alloc),
            ways: IndexMap::new(alloc),
            relations: IndexMap::new(alloc),
        }
    }

    /// The place that the placeholder of this kind is bound to. None where it isn't bound.
    pub fn look(&self, kind: Kind, placeholder: i64) -> Option<u32>
        ensures { result ≡ look_of self.now kind placeholder }
    {
        self.of_kind(kind).get(&placeholder).copied()
    }

    /// How many placeholders of this kind are bound.
    pub fn count(&self, kind: Kind) -> u64
        ensures { result ≡ length (bindings self.now kind) }
    {
        self.of_kind(kind).len() as u64
    }

    /// Binds the placeholder, or answers false where it is bound already. `Memory` leaves the map
    /// as it was.
    pub fn bind(&mut self, kind: Kind, placeholder: i64, place: u32) -> Result<bool, Memory>
        ensures answer { IfOk result (λ new. new ≡ not (is_bound self.old kind placeholder)) }
        ensures ok { OnOk result (self.new ≡ bound self.old kind placeholder place) }
        ensures err { OnErr result (self.new ≡ self.old) }
    {
        match kind {
            Kind::Node => bind_in(&mut self.nodes, placeholder, place),
            Kind::Way => bind_in(&mut self.ways, placeholder, place),
            Kind::Relation => bind_in(&mut self.relations, placeholder, place),
        }
    }

    fn of_kind(&self, kind: Kind) -> &IndexMap<i64, u32>
        ensures { result.now.entries ≡ bindings self.now kind }
    {
        match kind {
            Kind::Node => &self.nodes,
            Kind::Way => &self.ways,
            Kind::Relation => &self.relations,
        }
    }
}

ghost use Rattle.std.specs.Prelude.{not};
ghost use Rattle.placeholder_map.specs.Bindings.{with_binding, is_bound_in};

/// One search serves the test and the insert.
fn bind_in(bindings: &mut IndexMap<i64, u32>, placeholder: i64, place: u32) -> Result<bool, Memory>
    ensures answer { IfOk result (λ new. new ≡ not (is_bound_in bindings.old.entries placeholder)) }
    ensures ok { OnOk result (bindings.new.entries ≡ with_binding bindings.old.entries placeholder place) }
    ensures err { OnErr result (bindings.new.entries ≡ bindings.old.entries) }
{
    match bindings.insert(placeholder, place)? {
        None => Ok(true),
        Some(earlier) => {
            bindings.insert(placeholder, earlier)?;
            Ok(false)
        }
    }
}
