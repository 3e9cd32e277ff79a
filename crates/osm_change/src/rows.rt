//! The rows of an upload.
//!
//! The rows of an upload are stated once, in osm_change, from each operation's element and what it
//! did. diff_result computes the elements from the first ids, for a plan whose ids are given
//! later, and a law says that these are the ids counted by creates.
ghost use Rattle.std.specs.Prelude.{◌≡◌, length, slice_get, Some, IfOk};
ghost use Rattle.osm_change.specs.Change.{IsWellFormed};
ghost use Rattle.osm_change.specs.Rows.{whole_row, deletion_row, row, rows};

use crate::answers::{DiffRow, DiffRows};
use crate::changes::Change;
use crate::listed::kind_of;
use crate::operations::{Op, OpDone};
use osm_base::{Items, Key, Kind, Memory};
use std::alloc::Global;

impl Change {
    /// What an accepted upload is told: a row for each operation, in order, from the element that
    /// each was on and what each did.
    pub fn rows(&self, alloc: Global, keys: &[Key], done: &[OpDone]) -> Result<DiffRows, Memory>
        requires keys { length keys.now ≡ length self.now }
        requires done { length done.now ≡ length self.now }
        ensures { IfOk result (λ made. made ≡ rows self.now keys.now done.now) }
    {
        let operations = self.operations();
        let mut rows = Vec::with_capacity(alloc, operations.len())?;
        for place in 0..operations.len() {
            let row = row(self, place, &operations[place], keys[place], done[place]);
            rows.push(row)?;
        }
        Ok(Items::of(rows))
    }
}

/// The operation stands at a place of the change.
fn row(change: &Change, place: usize, operation: &Op, key: Key, done: OpDone) -> DiffRow
    requires well_formed { IsWellFormed change.now }
    requires operation { slice_get change.now place ≡ Some operation.now }
    ensures { result ≡ row change.now operation.now key done }
{
    match operation {
        Op::Create {
            placeholder,
            content,
            ..
        } => whole_row(kind_of(content), *placeholder, key, done),
        Op::Modify { name, content, .. } => {
            whole_row(kind_of(content), change.said(*name), key, done)
        }
        Op::Delete { kind, name, .. } => deletion_row(*kind, change.said(*name), key, done),
    }
}

fn whole_row(kind: Kind, old_id: i64, key: Key, done: OpDone) -> DiffRow
    ensures { result ≡ whole_row kind old_id key done }
{
    DiffRow {
        kind,
        old_id,
        new_id: Some(key.id),
        new_version: Some(done.version()),
    }
}

fn deletion_row(kind: Kind, old_id: i64, key: Key, done: OpDone) -> DiffRow
    ensures { result ≡ deletion_row kind old_id key done }
{
    if done.is_applied() {
        DiffRow {
            kind,
            old_id,
            new_id: None,
            new_version: None,
        }
    } else {
        whole_row(kind, old_id, key, done)
    }
}
