//! A piece of the feed.
use osm_model::Entry;

/// An entry of a journal with its number, which counts from 1.
#[derive(Drop)]
pub struct Piece {
    pub number: u64,
    pub entry: Entry,
}

// What stands in a piece's text before the entry's line, between the line and the number, and behind
// the number.
pub(crate) const BEGINNING: &[u8] = b"{\"entry\":";

pub(crate) const MIDDLE: &[u8] = b",\"number\":";

pub(crate) const ENDING: &[u8] = b",\"version\":2}";
