//! Uploads that were judged on an earlier map: what their plans look at, and what they settle to on
//! a later one. Rules, and laws on them; the plans themselves are made above.
//!
//! That a plan was made on a sound map for a well-formed change is part of being planned: on
//! elements that refer to what was never given, an upload's new element could be in use before it
//! is made, and the law is false there. Every map that entries make is sound.
#![tactic(auto)]

mod law;
mod looks;

pub use law::{
    changes_can_be_planned, commits_answer_as_settled, folds_agree, folds_settle,
    maps_follow_themselves, plans_are_judged, plans_settle, reached_plans_stand, replays_are_sound,
    stills_say_where_they_differ, unlike_looks_fall,
};
pub use looks::{CountLook, Look, UsersLook, first_apart};
