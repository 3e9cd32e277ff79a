//! Changes: the rows of an upload, and single operations.
ghost use Rattle.std.specs.Prelude.{IfOk, IfSome};
ghost use Rattle.osm_change.specs.Build.{IsRawOp};

use crate::labels::labels;
use crate::nodes::{NodeOp, built, change, content, raw_of};
use diff_result::rows;
use osm_base::{Items, Kind, Memory, TryCopy};
use osm_change::{Action, Change, DiffRow, FirstIds, OneOp, Op, OpDone, OpDones, RawOp};
use osm_element::Content;
use row_lines::Tally;
use std::alloc::Global;

/// Two creates, changes of what was made and of node 9, an applied delete and a skipped one.
const OPERATIONS: [NodeOp; 6] = [
    (Action::Create, -7, 1, (5, 6)),
    (Action::Create, -1, 1, (5, 6)),
    (Action::Modify, -1, 1, (5, 6)),
    (Action::Modify, 9, 3, (5, 6)),
    (Action::Delete { if_unused: false }, -7, 1, (0, 0)),
    (Action::Delete { if_unused: true }, 9, 4, (0, 0)),
];

/// What the operations came to.
const DONE: [OpDone; 6] = [
    OpDone::Applied { version: 1 },
    OpDone::Applied { version: 1 },
    OpDone::Applied { version: 2 },
    OpDone::Applied { version: 4 },
    OpDone::Applied { version: 2 },
    OpDone::Skipped { version: 4 },
];

const FIRST_IDS: FirstIds = FirstIds {
    node: 50,
    way: 1,
    relation: 1,
};

/// The old id, new id and new version of each operation.
const TOLD: [(i64, Option<u64>, Option<u64>); 6] = [
    (-7, Some(50), Some(1)),
    (-1, Some(51), Some(1)),
    (-1, Some(51), Some(2)),
    (9, Some(9), Some(4)),
    (-7, None, None),
    (9, Some(9), Some(4)),
];

fn are_told(rows: &[DiffRow]) -> bool {
    let mut is_right = rows.len() == TOLD.len();
    for (row, told) in rows.iter().zip(TOLD.iter()) {
        is_right &= (row.old_id, row.new_id, row.new_version) == *told;
    }
    is_right
}

/// Whether what a change came to is told by those rows.
fn comes_to(alloc: Global, change: &Change, done: &OpDones) -> Result<bool, Memory> {
    if change.len() as usize != done.items().len() {
        return Ok(false);
    }
    let rows = rows(alloc, change, done, FIRST_IDS)?;
    Ok(are_told(rows.items()))
}

fn has_its_rows(alloc: Global, change: &Change) -> Result<bool, Memory> {
    let done: OpDones = Items::of(DONE.to_vec(alloc)?);
    comes_to(alloc, change, &done)
}

fn a_row_for_each_operation(alloc: Global) -> Result<bool, Memory> {
    match change(alloc, &OPERATIONS)? {
        Some(change) => has_its_rows(alloc, &change),
        None => Ok(false),
    }
}

/// The only operation of a change with one.
fn only(alloc: Global, raw: RawOp) -> Result<Option<OneOp>, Memory>
    requires { IsRawOp raw }
{
    match built(alloc, vec![in alloc; raw]?)? {
        Some(change) => Ok(OneOp::of(change).ok()),
        None => Ok(None),
    }
}

fn has_six(change: Change) -> bool {
    let count = change.len();
    let operations = change.into_operations();
    count == 6 && operations.len() == 6
}

/// Whether a change is given back whole, since it isn't one operation.
fn is_given_back(change: Change) -> bool {
    match OneOp::of(change) {
        Ok(_) => false,
        Err(six) => has_six(six),
    }
}

fn six_are_not_one(alloc: Global) -> Result<bool, Memory> {
    match change(alloc, &OPERATIONS)? {
        Some(six) => Ok(is_given_back(six)),
        None => Ok(false),
    }
}

fn one_is_one(alloc: Global) -> Result<bool, Memory> {
    let Some(raw) = raw_of(alloc, OPERATIONS[0]) else {
        return Ok(false);
    };
    match only(alloc, raw)? {
        Some(one) => Ok(one.into_change().len() == 1),
        None => Ok(false),
    }
}

/// A node that is created with one tag.
fn tagged(alloc: Global) -> Result<Option<RawOp>, Memory>
    ensures { IfOk result (λ made. IfSome made IsRawOp) }
{
    let Some(tags) = labels(alloc, &[("a", "b")])? else {
        return Ok(None);
    };
    Ok(Some(RawOp {
        action: Action::Create,
        kind: Kind::Node,
        id: -1,
        version: None,
        changeset: None,
        content: content(Action::Create, (5, 6)),
        tags,
    }))
}

/// Whether the change is the creation of that node, tag and all.
fn is_tagged(change: &Change) -> bool {
    match change.operations() {
        [
            Op::Create {
                placeholder: -1,
                content: Content::Node(at),
                tags,
            },
        ] => at.lat7() == 5 && at.lon7() == 6 && tags.len() == 1 && tags.pair(0) == ("a", "b"),
        _ => false,
    }
}

fn is_copied(alloc: Global, one: &OneOp) -> Result<bool, Memory> {
    let copy = one.copy(alloc)?;
    Ok(is_tagged(one.change()) && is_tagged(copy.change()))
}

fn a_copy_says_what_the_change_says(alloc: Global) -> Result<bool, Memory> {
    let Some(raw) = tagged(alloc)? else {
        return Ok(false);
    };
    match only(alloc, raw)? {
        Some(one) => is_copied(alloc, &one),
        None => Ok(false),
    }
}

pub fn play<R: Print>(rt: &R, alloc: Global, tally: &mut Tally) {
    tally.note(
        rt,
        "a row for each operation",
        a_row_for_each_operation(alloc),
    );
    tally.note(rt, "six are not one", six_are_not_one(alloc));
    tally.note(rt, "one is one", one_is_one(alloc));
    tally.note(
        rt,
        "a copy says what the change says",
        a_copy_says_what_the_change_says(alloc),
    );
}
