//! Versions that are looked up.
ghost use Rattle.std.specs.Prelude.{◌≡◌, ◌<◌, ◌^◌, option_copied, option_map};
ghost use Rattle.osm_element.specs.Elements.{histories, next_id, history_in, history, count, version, current, content_of, is_visible, position};
ghost use Rattle.osm_element.specs.Held.{held_content};

use crate::contents::Held;
use crate::elements::{Elements, History};
use crate::versions::Version;
use osm_base::{Coord, Key, Kind};

impl Elements {
    /// The histories of one kind, that of id 1 first.
    pub fn histories(&self, kind: Kind) -> &[History]
        ensures { result.now ≡ histories self.now kind }
    {
        match kind {
            Kind::Node => self.nodes.items(),
            Kind::Way => self.ways.items(),
            Kind::Relation => self.relations.items(),
        }
    }

    /// The id that the next element of the kind gets.
    pub fn next_id(&self, kind: Kind) -> u64
        ensures { result ≡ next_id self.now kind }
    {
        self.histories(kind).len() as u64 + 1
    }

    /// The versions of an element, the oldest first: none where it never existed.
    pub fn history(&self, key: Key) -> &[Version]
        ensures { result.now ≡ history self.now key }
    {
        history_in(self.histories(key.kind), key.id)
    }

    /// How many versions an element has: 0 where it never existed.
    pub fn count(&self, key: Key) -> u64
        ensures counted { result ≡ count self.now key }
        ensures few { result < 2 ^ 63 }
    {
        self.history(key).len() as u64
    }

    /// A version of an element. Version 1 is the first.
    pub fn version(&self, key: Key, number: u64) -> Option<&Version>
        ensures { option_copied result ≡ version self.now key number }
    {
        if number == 0 {
            return None;
        }
        self.history(key).get(number as usize - 1)
    }

    /// The last version of an element, visible or not.
    pub fn current(&self, key: Key) -> Option<&Version>
        ensures { option_copied result ≡ current self.now key }
    {
        self.history(key).last()
    }

    /// What the element holds, where it is visible.
    pub fn content(&self, key: Key) -> Option<Held<'_>>
        ensures { option_map held_content result ≡ content_of self.now key }
    {
        match self.current(key) {
            Some(version) => version.content(),
            None => None,
        }
    }

    /// Whether the element's current version isn't a deletion. One that never existed isn't visible.
    pub fn is_visible(&self, key: Key) -> bool
        ensures { result ≡ is_visible self.now key }
    {
        self.content(key).is_some()
    }

    /// Where a visible node lies. Ways and relations have no position of their own.
    pub fn position(&self, key: Key) -> Option<Coord>
        ensures { result ≡ position self.now key }
    {
        match self.current(key) {
            Some(version) => version.position(),
            None => None,
        }
    }
}

fn history_in(histories: &[History], id: u64) -> &[Version]
    ensures { result.now ≡ history_in histories.now id }
{
    if id == 0 {
        return &[];
    }
    match histories.get(id as usize - 1) {
        Some(history) => history.items(),
        None => &[],
    }
}
