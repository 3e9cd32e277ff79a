//! The bodies of requests and answers, as JSON (RFC 8259).
//!
//! Only the body of 0 bytes is the empty one.
#![tactic(auto)]

mod again;
mod answers;
mod blocks;
mod body;
mod change;
mod changesets;
mod contents;
mod diffs;
mod elements;
mod entries;
mod escapes;
mod fault;
mod figure;
mod law;
mod lists;
mod moment;
mod names;
mod operation;
mod origin;
mod pass;
mod refusals;
mod rows;
mod scalar;
mod send;
mod single;
mod status;
mod tags;
mod title;
mod uploads;

pub use again::{next_change, next_flag, next_kind, next_natural, next_tags, next_text};
pub use answers::{answer_behind, answer_body};
pub use change::read_change;
pub use fault::BodyFault;
pub use law::{parts_are_read_again, texts_are_read_again, values_are_read_again};
pub use moment::stamp_text;
pub use send::{FieldValue, kind_name, members as write_members, record as write_record};
pub use single::{read_single, read_tags};
pub use status::answer_status;
pub use title::read_title;
pub use uploads::{write_change, write_tags};
