//! Every read of the API on the plain map: elements by id, the map of a box, both of now and as they
//! were at a stamp; changesets.
//!
//! Reads are defined over the elements and the list of changesets, and give keys and numbers of
//! versions; a second step makes rows of them. So a map with indexes has the same words in its
//! contracts.
//!
//! The plain reads walk the map, and serve tests alone. The program's reads stand on the indexed
//! world: users come from their index and the nodes of a box from the cells that it touches, so a
//! read costs what it shows.
#![tactic(auto)]

mod asks;
mod changesets;
mod elements;
mod full;
mod lists;
mod many;
mod met;
mod past;
mod past_map;
mod rows;
mod selection;
mod users;

pub use asks::plain_ask;
