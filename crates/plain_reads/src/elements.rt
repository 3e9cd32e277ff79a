//! One element: as it is, at a version, its history.
ghost use Rattle.std.specs.Prelude.{◌≡◌, ◌++◌, ◌∷◌, [], filter, map, IfOk};
ghost use Rattle.osm_model.specs.Reads.{one, numbered, hidden, is_shown, history_of, shown, current_shown};
ghost use Rattle.rising_lists.specs.Ids.{ids_to};
ghost use Rattle.plain_reads.specs.Read.{IsRead};

use osm_base::{Items, Key, Memory};
use osm_change::{ReadFault, VersionId};
use osm_element::{Elements, Version};
use std::alloc::Global;

/// An element as it is now, also where it is deleted or never existed.
pub fn current(elements: &Elements, key: Key) -> VersionId
    ensures { result ≡ current_shown elements.now key }
{
    VersionId {
        key,
        number: elements.count(key),
    }
}

/// The current version of an element.
pub fn one(elements: &Elements, key: Key) -> Result<VersionId, ReadFault>
    ensures { result ≡ one elements.now key }
{
    let version = elements.count(key);
    if version == 0 {
        return Err(ReadFault::NotFound { key, version });
    }
    if !elements.is_visible(key) {
        return Err(ReadFault::Gone { key, version });
    }
    Ok(VersionId {
        key,
        number: version,
    })
}

/// The mark that hides a version from who doesn't ask to see everything.
fn hidden(version: &Version, show: bool) -> Option<u64>
    ensures { result ≡ hidden show version.now }
{
    if show { None } else { version.redaction() }
}

/// One version of an element, that of a deletion too.
pub fn numbered(
    elements: &Elements,
    key: Key,
    number: u64,
    show: bool,
) -> Result<VersionId, ReadFault>
    ensures { result ≡ numbered elements.now key number show }
{
    if elements.count(key) == 0 {
        return Err(ReadFault::NotFound { key, version: 0 });
    }
    let Some(version) = elements.version(key, number) else {
        return Err(ReadFault::NotFound {
            key,
            version: number,
        });
    };
    match hidden(version, show) {
        None => Ok(VersionId { key, number }),
        Some(redaction) => Err(ReadFault::Redacted {
            key,
            version: number,
            redaction,
        }),
    }
}

/// Whether a version is there and not hidden.
pub fn is_shown(elements: &Elements, key: Key, show: bool, number: u64) -> bool
    ensures { result ≡ is_shown elements.now key show number }
{
    match elements.version(key, number) {
        Some(version) => hidden(version, show).is_none(),
        None => false,
    }
}

/// Adds a version, if it isn't hidden.
fn add_version(
    elements: &Elements,
    key: Key,
    show: bool,
    number: u64,
    found: &mut Vec<VersionId>,
) -> Result<(), Memory>
    ensures { IfOk result (λ _. found.new.items ≡ found.old.items ++ map (shown key) (filter (is_shown elements.now key show) (number ∷ []))) }
{
    if is_shown(elements, key, show, number) {
        found.push(VersionId { key, number })?;
    }
    Ok(())
}

/// All versions of an element, the oldest first.
pub fn history(
    alloc: Global,
    elements: &Elements,
    key: Key,
    show: bool,
) -> Result<Items<VersionId>, ReadFault>
    ensures { IsRead (history_of elements.now key show) result }
{
    let count = elements.count(key);
    if count == 0 {
        return Err(ReadFault::NotFound { key, version: 0 });
    }
    let shown = versions(alloc, elements, key, show, count)?;
    Ok(shown)
}

/// The versions of an element up to a number that aren't hidden.
fn versions(
    alloc: Global,
    elements: &Elements,
    key: Key,
    show: bool,
    count: u64,
) -> Result<Items<VersionId>, Memory>
    ensures { IfOk result (λ found. found ≡ map (shown key) (filter (is_shown elements.now key show) (ids_to count))) }
{
    let mut found = Vec::with_capacity(alloc, count as usize)?;
    for place in 0..count {
        add_version(elements, key, show, place + 1, &mut found)?;
    }
    Ok(Items::of(found))
}
