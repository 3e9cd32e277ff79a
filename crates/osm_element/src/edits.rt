//! Versions that are added and marked.
ghost use Rattle.std.specs.Prelude.{◌≡◌, ◌-◌, ◌<◌, ◌≤◌, ◌^◌, length, slice_set, OnOk, OnErr};
ghost use Rattle.std.specs.Option.{ForSome};
ghost use Rattle.osm_element.specs.Elements.{history_in, count, add_version, push_version, mark_in, mark};

use crate::elements::{Elements, History};
use crate::versions::Version;
use osm_base::{Items, Key, Kind, Memory};
use std::alloc::Global;

impl Elements {
    /// Adds a version of an element, which may be the next of its kind. An id past the next one
    /// adds nothing.
    pub fn push_version(&mut self, alloc: Global, key: Key, version: Version) -> Result<(), Memory>
        ensures ok { OnOk result (self.new ≡ push_version self.old key version) }
        ensures err { OnErr result (self.new ≡ self.old) }
    {
        let place = key.id.saturating_sub(1) as usize;
        match key.kind {
            Kind::Node => add_version(alloc, &mut self.nodes, place, version),
            Kind::Way => add_version(alloc, &mut self.ways, place, version),
            Kind::Relation => add_version(alloc, &mut self.relations, place, version),
        }
    }

    /// Puts a redaction's mark on a version, or takes it off. It takes no memory.
    #[tactic(auto, using(crate::proofs::Later::given_some))]
    pub fn mark(&mut self, key: Key, number: u64, redaction: Option<u64>)
        requires first { 0 < number }
        requires made { number ≤ count self.old key }
        requires small { ForSome redaction (λ number. number < 2 ^ 32) }
        ensures { self.new ≡ mark self.old key number redaction }
    {
        match key.kind {
            Kind::Node => mark_of(&mut self.nodes, key.id, number, redaction),
            Kind::Way => mark_of(&mut self.ways, key.id, number, redaction),
            Kind::Relation => mark_of(&mut self.relations, key.id, number, redaction),
        }
    }
}

#[tactic(auto, using(crate::proofs::Replaced::set_same, crate::proofs::Replaced::add_version_within))]
fn add_version(
    alloc: Global,
    histories: &mut Items<History>,
    place: usize,
    version: Version,
) -> Result<(), Memory>
    ensures ok { OnOk result (histories.new ≡ add_version histories.old place version) }
    ensures err { OnErr result (histories.new ≡ histories.old) }
{
    let known = histories.len();
    if place < known {
        histories.item_mut(place).push(version)
    } else if place == known {
        let mut history = Items::none(alloc);
        history.push(version)?;
        histories.push(history)
    } else {
        Ok(())
    }
}

#[tactic(auto, using(crate::proofs::Later::mark_of_is))]
fn mark_of(histories: &mut Items<History>, id: u64, number: u64, redaction: Option<u64>)
    requires counted { 0 < id }
    requires given { id ≤ length histories.old }
    requires first { 0 < number }
    requires made { number ≤ length (history_in histories.old id) }
    requires small { ForSome redaction (λ number. number < 2 ^ 32) }
    ensures { histories.new ≡ slice_set histories.old (id - 1) (mark_in (history_in histories.old id) number redaction) }
{
    mark_version(histories.item_mut(id as usize - 1), number, redaction);
}

#[tactic(auto, using(crate::proofs::Later::mark_in_there))]
fn mark_version(history: &mut History, number: u64, redaction: Option<u64>)
    requires counted { 0 < number }
    requires made { number ≤ length history.old }
    requires small { ForSome redaction (λ number. number < 2 ^ 32) }
    ensures { history.new ≡ mark_in history.old number redaction }
{
    history.item_mut(number as usize - 1).mark(redaction);
}
