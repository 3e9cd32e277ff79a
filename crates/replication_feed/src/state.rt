//! The state of the feed: how far it goes.
ghost use Rattle.std.specs.Prelude.{◌≡◌, IfOk};
ghost use Rattle.osm_change.specs.Moments.{IsShownMoment};
ghost use Rattle.replication_feed.specs.Text.{state_text};

use itoa::Buffer;
use osm_base::{Bytes, Memory, Stamp};
use osm_json::stamp_text;
use std::alloc::Global;

/// What stands before the number, between it and the moment, and behind the moment.
const BEGINNING: &[u8] = b"{\"sequenceNumber\":";

const MIDDLE: &[u8] = b",\"timestamp\":\"";

const ENDING: &[u8] = b"\"}";

/// The text of the state of a feed with that many pieces, the last of them stamped so; 0 is the stamp
/// where there is none. It is compact JSON, with the names that OpenStreetMap's replication has.
pub fn state_text(alloc: Global, length: u64, last: Stamp) -> Result<Bytes, Memory>
    requires { IsShownMoment last }
    ensures { IfOk result (λ bytes. bytes ≡ state_text length last) }
{
    let moment = stamp_text(alloc, last)?;
    let moment = moment.as_str().as_bytes();
    let mut digits = Buffer::new();
    let number = digits.format(length).as_bytes();
    let around = BEGINNING.len() + MIDDLE.len() + ENDING.len();
    let mut text = Vec::with_capacity(alloc, around + number.len() + moment.len())?;
    text.extend_from_slice(BEGINNING)?;
    text.extend_from_slice(number)?;
    text.extend_from_slice(MIDDLE)?;
    text.extend_from_slice(moment)?;
    text.extend_from_slice(ENDING)?;
    Ok(Bytes::from_vec(text))
}
