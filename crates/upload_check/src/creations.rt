//! How many elements an upload creates.
use osm_base::Kind;
use osm_change::{Op, kind_of};

/// How many elements of each kind an upload creates. Lists take their room by it, and nothing else
/// rests on it.
#[derive(Clone, Copy)]
pub struct Creations {
    pub nodes: usize,
    pub ways: usize,
    pub relations: usize,
}

impl Creations {
    /// Those of some operations.
    pub fn of(operations: &[Op]) -> Creations {
        let mut creations = Creations {
            nodes: 0,
            ways: 0,
            relations: 0,
        };
        for operation in operations {
            if let Op::Create { content, .. } = operation {
                creations.add(kind_of(content));
            }
        }
        creations
    }

    fn add(&mut self, kind: Kind) {
        match kind {
            Kind::Node => self.nodes = self.nodes.saturating_add(1),
            Kind::Way => self.ways = self.ways.saturating_add(1),
            Kind::Relation => self.relations = self.relations.saturating_add(1),
        }
    }
}
