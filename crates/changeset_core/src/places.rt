//! Elements as the box of a change needs them.
ghost use Rattle.std.specs.Prelude.{◌≡◌, option_map};
ghost use Rattle.osm_element.specs.Elements.{content_of, position};
ghost use Rattle.osm_element.specs.Held.{held_content};
ghost use Rattle.osm_element.specs.declared.elements.Elements.{Elements};

use osm_base::{Coord, Key};
use osm_element::{Elements, Held};

/// What tells where elements lie and what they hold, however it keeps them.
pub trait Places {
    // The elements that it stands for.
    ghost elements: { Self → Elements };

    /// Where an element lies, if it is a visible node.
    fn place_of(&self, key: Key) -> Option<Coord>
        ensures { result ≡ position (elements self.now) key };

    /// What an element holds, where it is visible.
    fn content_of(&self, key: Key) -> Option<Held<'_>>
        ensures { option_map held_content result ≡ content_of (elements self.now) key };
}

impl Places for Elements {
    ghost elements = { λ elements. elements };

    fn place_of(&self, key: Key) -> Option<Coord> {
        self.position(key)
    }

    fn content_of(&self, key: Key) -> Option<Held<'_>> {
        self.content(key)
    }
}
