//! What elements hold: a position, nodes, members.
ghost use Rattle.std.specs.Prelude.{◌≡◌};
ghost use Rattle.osm_element.specs.Elements.{position_in};
ghost use Rattle.osm_element.specs.Held.{held_content};

use crate::boxed_items::BoxedItems;
use osm_base::{Coord, Items, Kind, Memory, Text, TryCopy};
use std::alloc::Global;

/// What a relation lists: an element and the part that it plays.
#[derive(Drop)]
pub struct Member<N> {
    pub kind: Kind,
    pub name: N,
    pub role: Text,
}

impl<N: TryCopy + Drop> TryCopy for Member<N> {
    fn copy(&self, alloc: Global) -> Result<Member<N>, Memory> {
        let name = self.name.copy(alloc)?;
        let role = self.role.copy(alloc)?;
        Ok(Member {
            kind: self.kind,
            name,
            role,
        })
    }
}

/// The nodes of a way, in order.
pub type Refs<N> = Items<N>;

/// The members of a relation, in order.
pub type Members<N> = Items<Member<N>>;

/// What a visible version of an element holds. Lists stand behind a pointer, so that a version of a
/// node takes no room for one.
#[derive(Drop)]
pub enum Content<N> {
    Node(Coord),
    Way(BoxedItems<N>),
    Relation(BoxedItems<Member<N>>),
}

impl<N: TryCopy + Drop> TryCopy for Content<N> {
    fn copy(&self, alloc: Global) -> Result<Content<N>, Memory> {
        match self {
            Content::Node(at) => Ok(Content::Node(*at)),
            Content::Way(nodes) => Ok(Content::Way(nodes.copy(alloc)?)),
            Content::Relation(members) => Ok(Content::Relation(members.copy(alloc)?)),
        }
    }
}

/// What a version holds, borrowed from it.
#[derive(Clone, Copy)]
pub enum Held<'a> {
    Node(Coord),
    Way(&'a [u64]),
    Relation(&'a [Member<u64>]),
}

impl Held<'_> {
    /// Where it lies, if it is a node.
    pub fn position(&self) -> Option<Coord>
        ensures { result ≡ position_in (held_content self.now) }
    {
        match self {
            Held::Node(at) => Some(*at),
            Held::Way(_) | Held::Relation(_) => None,
        }
    }
}

impl Content<u64> {
    /// The same, borrowed.
    pub fn held(&self) -> Held<'_>
        ensures { held_content result ≡ self.now }
    {
        match self {
            Content::Node(at) => Held::Node(*at),
            Content::Way(nodes) => Held::Way(nodes.items()),
            Content::Relation(members) => Held::Relation(members.items()),
        }
    }
}

/// A content as a body gives it: the position in units of 1e-7 degrees, not tested yet, and
/// references by id or, where negative, by placeholder.
#[derive(Drop)]
pub enum RawContent {
    Node { lat7: i64, lon7: i64 },
    Way(Refs<i64>),
    Relation(Members<i64>),
}
