//! Elements as they were at a stamp: a copy of them with the versions made by then.
ghost use Rattle.std.specs.Prelude.{◌≡◌, ◌++◌, ◌&&◌, map, filter, IfOk};
ghost use Rattle.osm_base.specs.Key.{lists_key};
ghost use Rattle.osm_base.specs.declared.keys.Key.{Key};
ghost use Rattle.osm_element.specs.Elements.{keys};
ghost use Rattle.osm_model.specs.Past.{made_by, before_others, histories_by, elements_by, is_last_shown, shown_way_refs, in_full_unmarked, one_unmarked, full_unmarked, full_at};
ghost use Rattle.osm_model.specs.Reads.{current_shown};
ghost use Rattle.plain_reads.specs.Read.{IsRead};

use crate::elements::{is_shown, numbered, one};
use crate::full::add_way_refs;
use crate::lists::{given_keys_once, shown_keys};
use osm_base::{Items, Key, Memory, TryCopy};
use osm_change::{ReadFault, VersionId};
use osm_element::{Elements, History};
use osm_model::State;
use std::alloc::Global;

/// The elements as they were: the versions with a stamp of `at` at most.
pub fn elements_by(alloc: Global, elements: &Elements, at: u64) -> Result<Elements, Memory>
    ensures { IfOk result (λ past. past ≡ elements_by at elements.now) }
{
    let nodes = histories_by(alloc, elements.nodes.items(), at)?;
    let ways = histories_by(alloc, elements.ways.items(), at)?;
    let relations = histories_by(alloc, elements.relations.items(), at)?;
    Ok(Elements {
        nodes,
        ways,
        relations,
    })
}

fn histories_by(alloc: Global, histories: &[History], at: u64) -> Result<Items<History>, Memory>
    ensures { IfOk result (λ past. past ≡ histories_by at histories.now) }
{
    let mut past = Vec::new(alloc);
    let mut place = histories.len();
    while place > 0 {
        place -= 1;
        let made = made_by(alloc, &histories[place], at)?;
        put_before(made, &mut past)?;
    }
    Ok(Items::of(past))
}

fn made_by(alloc: Global, history: &History, at: u64) -> Result<History, Memory>
    ensures { IfOk result (λ made. made ≡ made_by at history.now) }
{
    let mut versions = history.copy(alloc)?.into_vec();
    versions.retain(|version| version.stamp().seconds() <= at);
    Ok(Items::of(versions))
}

/// Puts a history before the later ones, unless it has no version and none follows.
fn put_before(history: History, others: &mut Vec<History>) -> Result<(), Memory>
    ensures { IfOk result (λ _. others.new.items ≡ before_others history others.old.items) }
{
    if history.len() > 0 || others.len() > 0 {
        others.insert(0, history)?;
    }
    Ok(())
}

/// Whether the last version of an element is visible and not marked.
pub fn is_last_shown(elements: &Elements, key: Key) -> bool
    ensures { result ≡ is_last_shown elements.now key }
{
    elements.is_visible(key) && is_shown(elements, key, false, elements.count(key))
}

/// The last version of an element. A mark hides it from everybody.
pub fn one_unmarked(elements: &Elements, key: Key) -> Result<VersionId, ReadFault>
    ensures { result ≡ one_unmarked elements.now key }
{
    one(elements, key)?;
    numbered(elements, key, elements.count(key), false)
}

/// An element with what it listed at a stamp, and with the nodes of the ways that it listed: those
/// that were visible and aren't marked, and of the nodes those of such ways alone.
pub fn full_at(
    alloc: Global,
    state: &State,
    key: Key,
    at: u64,
) -> Result<Items<VersionId>, ReadFault>
    ensures { IsRead (full_at state.now key at) result }
{
    let past = elements_by(alloc, &state.elements, at)?;
    full_unmarked(alloc, &past, key)
}

fn full_unmarked(
    alloc: Global,
    elements: &Elements,
    key: Key,
) -> Result<Items<VersionId>, ReadFault>
    ensures { IsRead (full_unmarked elements.now key) result }
{
    one_unmarked(elements, key)?;
    let shown = with_listed(alloc, elements, key)?;
    Ok(shown)
}

fn with_listed(alloc: Global, elements: &Elements, key: Key) -> Result<Items<VersionId>, Memory>
    ensures { IfOk result (λ found. found ≡ map (current_shown elements.now)
        (filter (λ x. in_full_unmarked elements.now key x && is_last_shown elements.now x) (keys elements.now))) }
{
    let listed = gathered(alloc, elements, key)?;
    let mut rising = given_keys_once(elements, listed);
    rising.retain(|key| is_last_shown(elements, *key));
    let shown = shown_keys(alloc, elements, rising.as_slice())?;
    Ok(shown)
}

/// The element, what it lists, and what those ways that it lists list that are shown, in no order.
fn gathered(alloc: Global, elements: &Elements, key: Key) -> Result<Vec<Key>, Memory>
    ensures { IfOk result (λ found. (x : Key) → lists_key found.items x ≡ in_full_unmarked elements.now key x) }
{
    let mut found = elements.refs(alloc, key)?;
    let listed = found.len();
    found.push(key)?;
    for place in 0..listed {
        let member = found[place];
        add_shown_way_refs(elements, member, &mut found)?;
    }
    Ok(found)
}

fn add_shown_way_refs(elements: &Elements, key: Key, found: &mut Vec<Key>) -> Result<(), Memory>
    ensures { IfOk result (λ _. found.new.items ≡ found.old.items ++ shown_way_refs elements.now key) }
{
    if is_last_shown(elements, key) {
        add_way_refs(elements, key, found)?;
    }
    Ok(())
}
