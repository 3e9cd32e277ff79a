//! An upload under way.
ghost use Rattle.std.specs.Prelude.{◌≡◌, ◌<◌, ◌^◌, ◌++◌, count_by, IfOk};
ghost use Rattle.osm_change.specs.Done.{is_applied};
ghost use Rattle.osm_model.specs.Fold.{start, applied_count, work_of, works};

use changeset_core::Work;
use osm_base::{Items, Key, Memory, Stamp, TryCopy};
use osm_change::{Op, OpDone};
use osm_element::Elements;
use osm_model::Progress;
use std::alloc::Global;
use std::marker::Model;

/// What stays the same while the operations of an upload are judged.
#[derive(Drop)]
pub struct UploadTask<'a> {
    pub before: &'a Elements,
    pub changeset: u64,
    pub stamp: Stamp,
    pub operations: &'a [Op],
}

impl<'a> Model for UploadTask<'a> {
    ghost use Rattle.osm_model.specs.Upload.{Upload};

    ghost Value = { Upload };

    ghost view = { λ t. record { before = t.before.now; changeset = t.changeset; stamp = t.stamp; operations = t.operations.now } };
}

/// The start of an upload, on a copy of the elements.
pub fn start(alloc: Global, elements: &Elements) -> Result<Progress, Memory>
    ensures { IfOk result (λ made. made ≡ start elements.now) }
{
    let elements = elements.copy(alloc)?;
    Ok(Progress {
        elements,
        keys: Items::none(alloc),
        done: Items::none(alloc),
        touched: None,
    })
}

fn applied_among(done: &[OpDone]) -> usize
    ensures { result ≡ count_by is_applied done.now }
{
    done.iter()
        .copied()
        .filter(|done| done.is_applied())
        .count()
}

/// How many operations made a version.
pub fn applied_count(progress: &Progress) -> u64
    ensures counted { result ≡ applied_count progress.now }
    ensures few { result < 2 ^ 63 }
{
    applied_among(progress.done.items()) as u64
}

/// Adds the version that an operation made, if it made one.
fn add_work(made: &mut Vec<Work>, key: Key, done: OpDone) -> Result<(), Memory>
    ensures { IfOk result (λ _. made.new.items ≡ made.old.items ++ work_of key done) }
{
    if let OpDone::Applied { version } = done {
        made.push(Work { key, version })?;
    }
    Ok(())
}

/// The versions that the operations made, in order.
pub fn works(alloc: Global, keys: &[Key], done: &[OpDone]) -> Result<Vec<Work>, Memory>
    ensures { IfOk result (λ made. made.items ≡ works keys.now done.now) }
{
    let mut made = Vec::new(alloc);
    for place in 0..keys.len().min(done.len()) {
        let key = keys[place];
        let outcome = done[place];
        add_work(&mut made, key, outcome)?;
    }
    Ok(made)
}
