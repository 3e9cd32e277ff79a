//! What an upload asks, and what the server answers.
#![tactic(auto)]

mod answers;
mod build;
mod causes;
mod changes;
mod law;
mod listed;
mod names;
mod operations;
mod raw;
mod reads;
mod refusals;
mod rows;
mod single;

pub use answers::{
    Answer, ChangesetRow, ChangesetRows, DiffRow, DiffRows, ElementRow, ElementRows,
};
pub use causes::{Cause, ShapeFault};
pub use changes::Change;
pub use law::{changes_are_read_again, names_are_said};
pub use listed::kind_of;
pub use names::said_made;
pub use operations::{FirstIds, Name, Named, Op, OpDone, OpDones, Referent};
pub use raw::{Action, RawOp};
pub use reads::{MapFault, ReadFault, Selection, VersionId};
pub use refusals::{Refusal, Said};
pub use single::OneOp;
