//! A changeset as a client is told of it.
ghost use Rattle.std.specs.Prelude.{◌≡◌, IfOk};
ghost use Rattle.changeset_core.specs.Changeset.{closed_at};
ghost use Rattle.osm_model.specs.Changeset.{changeset_row};
ghost use Rattle.osm_model.specs.ChangesetReads.{read_changeset};
ghost use Rattle.osm_world.specs.World.{state_of};
ghost use Rattle.changeset_calls.specs.Found.{IsFound};

use crate::faults::ChangesetFault;
use changeset_core::Changeset;
use osm_base::{Memory, Stamp, TryCopy};
use osm_change::ChangesetRow;
use osm_world::World;
use std::alloc::Global;

/// When a changeset closed, `None` where it is open at the stamp.
fn closed_at(kept: &Changeset, at: Stamp) -> Option<Stamp>
    ensures { result ≡ closed_at kept.now.kept at }
{
    if kept.open_at(at) {
        None
    } else {
        Some(kept.closes())
    }
}

/// A changeset as the client is told at a stamp.
pub fn changeset_row(
    alloc: Global,
    id: u64,
    kept: &Changeset,
    at: Stamp,
) -> Result<ChangesetRow, Memory>
    ensures { IfOk result (λ row. row ≡ changeset_row id kept.now.kept at) }
{
    let owner = kept.owner().copy(alloc)?;
    let tags = kept.tags().copy(alloc)?;
    Ok(ChangesetRow {
        id,
        owner,
        tags,
        created: kept.created(),
        closes: closed_at(kept, at),
        count: kept.count(),
        touched: kept.touched(),
    })
}

/// A changeset as it is at a stamp.
pub fn read(
    alloc: Global,
    world: &World,
    id: u64,
    at: Stamp,
) -> Result<ChangesetRow, ChangesetFault>
    ensures { IsFound (read_changeset (state_of world.now) at id) result }
{
    match world.changeset(id) {
        Some(kept) => Ok(changeset_row(alloc, id, kept, at)?),
        None => Err(ChangesetFault::NoChangeset { id }),
    }
}
