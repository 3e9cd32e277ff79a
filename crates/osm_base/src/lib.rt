//! The words that every layer of the server speaks: keys, positions, stamps, people, text, lists
//! and the limits.
#![tactic(auto)]

mod box_faults;
mod copies;
mod decimals;
mod items;
mod key_lists;
mod keys;
mod limits;
mod memory;
mod moments;
mod numbers;
mod parts;
mod people;
mod places;
mod roomy;
mod steps;
mod texts;

pub use box_faults::BoxFault;
pub use copies::{TryCopy, copy_all};
pub use items::{Ids, Items};
pub use key_lists::is_listed;
pub use keys::{Key, Kind};
pub use limits::{
    AREA_LIMIT, BODY_LIMIT, CHANGE_LIMIT, CHARACTER_LIMIT, COMMENT_LIMIT, FIELD_LIMIT, HEAD_LIMIT,
    LARGE_CHANGE_LIMIT, MAP_NODE_LIMIT, MOMENT_LIMIT, PIECE_LIMIT, QUERY_LIMIT, RELATION_LIMIT,
    REQUEST_LIMIT, SESSION_LIMIT, USERS_LIMIT, WAY_LIMIT,
};
pub use memory::Memory;
pub use moments::Stamp;
pub use numbers::{limit_number, path_number, whole_number};
pub use parts::split_once;
pub use people::{Owner, User};
pub use places::{Box7, Coord, is_on_globe};
pub use roomy::Roomy;
pub use steps::Steps;
pub use texts::{Bytes, Text};
