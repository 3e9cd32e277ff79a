//! A changeset, under promised room.
use changeset_core::Changeset;
use osm_base::{CHANGE_LIMIT, Coord, Key, Kind, Memory, Owner, Stamp, Text};
use osm_element::Tags;
use std::alloc::Global;

const NODE: Key = Key {
    kind: Kind::Node,
    id: 1,
};

fn of_alice(alloc: Global) -> Result<Changeset, Memory> {
    let owner = Owner {
        id: 1,
        name: Text::of(alloc, "alice")?,
    };
    let tags = Tags::none(alloc);
    Ok(Changeset::new(alloc, 1, owner, tags, Stamp(1_700_000_000), CHANGE_LIMIT))
}

/// Whether a changeset that is widened to a position touches it alone.
fn touches(changeset: &mut Changeset, lat7: i32, lon7: i32) -> bool {
    let Some(at) = Coord::new(lat7, lon7) else {
        return false;
    };
    changeset.widen(at);
    match changeset.touched() {
        Some(area) => area.edges() == (lon7, lat7, lon7, lat7),
        None => false,
    }
}

fn counts(changeset: &mut Changeset) -> Result<bool, Memory> {
    changeset.room(1)?;
    changeset.worked(NODE, 1);
    Ok(
        changeset.count() == 1
            && changeset.limit() == 10_000
            && changeset.open_at(Stamp(1_700_003_599))
            && !changeset.open_at(Stamp(1_700_003_600))
            && touches(changeset, 5, 6),
    )
}

pub fn a_changeset_counts_what_it_did(alloc: Global) -> Result<bool, Memory> {
    let mut changeset = of_alice(alloc)?;
    counts(&mut changeset)
}
