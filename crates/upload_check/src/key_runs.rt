//! Keys that come mostly in order, each once.
//!
//! An upload mostly names the elements of a kind in the order of their ids, and its ways list what it
//! names as well. So keys are kept in a list for each kind, where one that comes after the last is
//! added behind it, and one that stands there already isn't added. Only what comes out of that order
//! makes it necessary to sort.
ghost use Rattle.std.specs.Prelude.{◌≡◌, ◌++◌, ◌||◌, true, [], IfOk, OnOk};
ghost use Rattle.osm_base.specs.Key.{key_eq, lists_key, IsRising};
ghost use Rattle.osm_base.specs.declared.keys.Key.{Key};

use crate::shifts::is_at;
use osm_base::{Key, Kind, Memory};
use rising_lists::keys_sorted_once;
use std::alloc::Global;
use std::marker::Model;

/// Whether a key comes after the last of a list. It only keeps lists in order: nothing rests on it.
fn is_behind(rising: &[Key], key: Key) -> bool {
    match rising.last() {
        Some(last) => last.is_before(key),
        None => true,
    }
}

/// Where a key stands in a list in order, if it is there: at the place that is near, or else it is
/// found by halving. It only makes lists short: nothing rests on it.
fn place_of(rising: &[Key], near: usize, key: Key) -> usize {
    if is_at(rising, near, key) {
        return near;
    }
    rising.partition_point(|listed| listed.is_before(key))
}

/// Adds a key behind a list where it comes after the last, and to the others where it isn't found in
/// the list. It gives the place where the next may stand.
fn add(rising: &mut Vec<Key>, others: &mut Vec<Key>, near: usize, key: Key) -> Result<usize, Memory>
    ensures { OnOk result ((k : Key) → lists_key (rising.new.items ++ others.new.items) k ≡ lists_key (rising.old.items ++ others.old.items) k || key_eq key k) }
{
    if is_behind(rising.as_slice(), key) {
        rising.push(key)?;
        return Ok(near);
    }
    let place = place_of(rising.as_slice(), near, key);
    if !is_at(rising.as_slice(), place, key) {
        others.push(key)?;
    }
    Ok(place.saturating_add(1))
}

/// Keys by their kinds, and those that came out of order.
#[derive(Drop)]
struct KeyRuns {
    nodes: Vec<Key>,
    ways: Vec<Key>,
    relations: Vec<Key>,
    others: Vec<Key>,
    near: usize,
}

impl Model for KeyRuns {
    ghost use Rattle.std.specs.Prelude.{◌++◌, List};
    ghost use Rattle.osm_base.specs.declared.keys.Key.{Key};

    ghost Value = { List Key };

    ghost view = { λ r. ((r.nodes.items ++ r.ways.items) ++ r.relations.items) ++ r.others.items };
}

impl KeyRuns {
    /// None. It takes no memory.
    fn new(alloc: Global) -> KeyRuns
        ensures { result ≡ [] }
    {
        KeyRuns {
            nodes: Vec::new(alloc),
            ways: Vec::new(alloc),
            relations: Vec::new(alloc),
            others: Vec::new(alloc),
            near: 0,
        }
    }

    #[tactic(auto, using(crate::proofs::Runs::in_nodes, crate::proofs::Runs::in_ways, crate::proofs::Runs::in_relations))]
    fn add(&mut self, key: Key) -> Result<(), Memory>
        ensures { OnOk result ((k : Key) → lists_key self.new k ≡ lists_key self.old k || key_eq key k) }
    {
        self.near = match key.kind {
            Kind::Node => add(&mut self.nodes, &mut self.others, self.near, key)?,
            Kind::Way => add(&mut self.ways, &mut self.others, self.near, key)?,
            Kind::Relation => add(&mut self.relations, &mut self.others, self.near, key)?,
        };
        Ok(())
    }

    /// All of them in order.
    fn sorted(self) -> Result<Vec<Key>, Memory>
        ensures rising { IfOk result (λ keys. IsRising keys.items) }
        ensures same { IfOk result (λ keys. (k : Key) → lists_key keys.items k ≡ lists_key self k) }
    {
        let KeyRuns {
            nodes: mut keys,
            ways,
            relations,
            others,
            near: _,
        } = self;
        keys.extend_from_slice(ways.as_slice())?;
        keys.extend_from_slice(relations.as_slice())?;
        keys.extend_from_slice(others.as_slice())?;
        Ok(keys_sorted_once(keys))
    }
}

/// The keys of a list in order, each once.
pub fn in_order(alloc: Global, keys: &[Key]) -> Result<Vec<Key>, Memory>
    ensures rising { IfOk result (λ sorted. IsRising sorted.items) }
    ensures same { IfOk result (λ sorted. (k : Key) → lists_key sorted.items k ≡ lists_key keys.now k) }
{
    let mut runs = KeyRuns::new(alloc);
    for key in keys {
        runs.add(*key)?;
    }
    runs.sorted()
}
