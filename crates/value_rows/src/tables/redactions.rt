//! Redactions, under promised room.
use changeset_core::Redactions;
use osm_base::{Memory, Text};
use std::alloc::Global;

pub fn a_redaction_that_was_made_is_known(alloc: Global) -> Result<bool, Memory> {
    let mut redactions = Redactions::new(alloc);
    redactions.room()?;
    let id = redactions.make(Text::of(alloc, "private")?);
    Ok(id == 1 && redactions.known(1) && !redactions.known(0) && !redactions.known(2))
}
