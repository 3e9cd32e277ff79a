//! An upload under way.
//!
//! An upload folds over the elements, and its changeset's record is written once at its end: the
//! versions that it made, the box of what it touched, its activity. The fold's own box is then
//! there for a limit on boxes, and nothing but the elements is copied. An upload that applied
//! nothing isn't activity, and that is read off its list of versions.
use osm_base::{Box7, Items, Key};
use osm_change::OpDone;
use osm_element::Elements;

/// What the operations so far have come to: the elements, for each operation the key of its element
/// and what it did, and the least box of what the versions that they made touched.
#[derive(Drop)]
pub struct Progress {
    pub elements: Elements,
    pub keys: Items<Key>,
    pub done: Items<OpDone>,
    pub touched: Option<Box7>,
}
