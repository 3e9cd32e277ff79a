//! What an operation that is passed does.
ghost use Rattle.std.specs.Prelude.{◌≡◌, IfOk};
ghost use Rattle.plain_model.specs.Outcome.{Leaves};
ghost use Rattle.osm_model.specs.Operation.{applied, skipped, next_key, created, modified, or_skipped};

use crate::names::with_ids;
use crate::uploads::UploadTask;
use changeset_core::{join_boxes, touched_area};
use osm_base::{Key, Kind, Memory, TryCopy};
use osm_change::{Name, OpDone, Refusal, kind_of};
use osm_element::{Content, Elements, Tags, Version, check_number, check_stamp};
use osm_model::{Fault, Progress};
use std::alloc::Global;

/// Makes a version of an element, and takes what it touches into the upload's box.
pub fn apply(
    alloc: Global,
    upload: &UploadTask,
    progress: &mut Progress,
    key: Key,
    content: Option<Content<u64>>,
    tags: Tags,
) -> Result<(), Memory>
    ensures { IfOk result (λ _. progress.new ≡ applied upload.now progress.old key content tags) }
{
    check_number(upload.changeset)?;
    check_stamp(upload.stamp)?;
    let version = progress.elements.count(key) + 1;
    let touched = touched_area(&progress.elements, key, &content);
    let made = Version::new(content, tags, upload.changeset, upload.stamp);
    progress.elements.push_version(alloc, key, made)?;
    progress.keys.push(key)?;
    progress.done.push(OpDone::Applied { version })?;
    progress.touched = join_boxes(progress.touched, touched);
    Ok(())
}

/// Leaves the element as it is.
fn skip(progress: &mut Progress, key: Key) -> Result<(), Memory>
    ensures { IfOk result (λ _. progress.new ≡ skipped progress.old key) }
{
    let version = progress.elements.count(key);
    progress.keys.push(key)?;
    progress.done.push(OpDone::Skipped { version })
}

/// Skips the operation where the client asked for that, and else refuses it.
pub fn or_skip(
    progress: &mut Progress,
    key: Key,
    if_unused: bool,
    refusal: Refusal,
) -> Result<(), Fault>
    ensures { Leaves (or_skipped progress.old key if_unused refusal) progress.new result }
{
    if if_unused {
        Ok(skip(progress, key)?)
    } else {
        Err(Fault::Refused(refusal))
    }
}

fn next_key(elements: &Elements, kind: Kind) -> Key
    ensures { result ≡ next_key elements.now kind }
{
    Key {
        kind,
        id: elements.next_id(kind),
    }
}

/// Makes the first version of the next element.
pub fn make(
    alloc: Global,
    upload: &UploadTask,
    progress: &mut Progress,
    content: &Content<Name>,
    tags: &Tags,
) -> Result<(), Memory>
    ensures { IfOk result (λ _. progress.new ≡ created upload.now progress.old content.now tags.now) }
{
    let key = next_key(&progress.elements, kind_of(content));
    let new = with_ids(alloc, progress.keys.items(), content)?;
    let tags = tags.copy(alloc)?;
    apply(alloc, upload, progress, key, Some(new), tags)
}

/// Makes the next version of an element.
pub fn change(
    alloc: Global,
    upload: &UploadTask,
    progress: &mut Progress,
    key: Key,
    content: &Content<Name>,
    tags: &Tags,
) -> Result<(), Memory>
    ensures { IfOk result (λ _. progress.new ≡ modified upload.now progress.old key content.now tags.now) }
{
    let new = with_ids(alloc, progress.keys.items(), content)?;
    let tags = tags.copy(alloc)?;
    apply(alloc, upload, progress, key, Some(new), tags)
}
