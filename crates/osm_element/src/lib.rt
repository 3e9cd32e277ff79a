//! The elements of the map: what they hold, their versions and their use.
#![tactic(auto)]

mod boxed_items;
mod checks;
mod contents;
mod edits;
mod elements;
mod faults;
mod forms;
mod labels;
mod lookups;
mod noted;
mod references;
mod tag_lists;
mod usage;
mod versions;

pub use boxed_items::BoxedItems;
pub use checks::check_local;
pub use contents::{Content, Held, Member, Members, RawContent, Refs};
pub use elements::{Elements, History};
pub use faults::LocalFault;
pub use labels::{Table, TagList, Tags};
pub use tag_lists::TagLists;
pub use versions::{Version, check_number, check_stamp};
