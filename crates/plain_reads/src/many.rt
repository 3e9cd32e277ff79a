//! Several elements in one call.
ghost use Rattle.std.specs.Prelude.{◌≡◌, IfOk};
ghost use Rattle.osm_model.specs.Reads.{first_unknown, listed_of, many};
ghost use Rattle.plain_reads.specs.Read.{IsRead};

use crate::lists::{given_once, shown_ids};
use osm_base::{Items, Key, Kind, Memory};
use osm_change::{ReadFault, VersionId};
use osm_element::Elements;
use std::alloc::Global;

/// Some elements of a kind, each once and by id, deleted ones too. The first that never existed is
/// told in the order of the list.
pub fn many(
    alloc: Global,
    elements: &Elements,
    kind: Kind,
    ids: &[u64],
) -> Result<Items<VersionId>, ReadFault>
    ensures { IsRead (many elements.now kind ids.now) result }
{
    if let Some(id) = first_unknown(elements, kind, ids) {
        let key = Key { kind, id };
        return Err(ReadFault::NotFound { key, version: 0 });
    }
    let found = listed(alloc, elements, kind, ids)?;
    Ok(found)
}

/// The first of the list that never existed.
#[tactic(auto, using(crate::proofs::Firsts::none_more))]
fn first_unknown(elements: &Elements, kind: Kind, ids: &[u64]) -> Option<u64>
    ensures { result ≡ first_unknown elements.now kind ids.now }
{
    for id in ids {
        if elements.count(Key { kind, id: *id }) == 0 {
            return Some(*id);
        }
    }
    None
}

/// Those of the list that exist.
fn listed(
    alloc: Global,
    elements: &Elements,
    kind: Kind,
    ids: &[u64],
) -> Result<Items<VersionId>, Memory>
    ensures { IfOk result (λ found. found ≡ listed_of elements.now kind ids.now) }
{
    let copied = ids.to_vec(alloc)?;
    let rising = given_once(elements, kind, copied);
    shown_ids(alloc, elements, kind, rising.as_slice())
}
