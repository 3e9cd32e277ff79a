//! One operation, judged and done.
ghost use Rattle.std.specs.Prelude.{◌+◌, ◌<◌, ◌^◌, length};
ghost use Rattle.osm_element.specs.Elements.{first_user};
ghost use Rattle.plain_model.specs.Outcome.{Leaves};
ghost use Rattle.osm_model.specs.Operation.{create, modify, delete_unless_used, delete, operate};

use crate::effects::{apply, change, make, or_skip};
use crate::preconditions::{gone, named_key, named_version, references_visible, used};
use crate::uploads::UploadTask;
use osm_base::{Key, Kind};
use osm_change::{Name, Op, kind_of};
use osm_element::{Content, Tags};
use osm_model::{Fault, Progress};
use std::alloc::Global;

fn create(
    alloc: Global,
    upload: &UploadTask,
    progress: &mut Progress,
    content: &Content<Name>,
    tags: &Tags,
) -> Result<(), Fault>
    requires { length progress.old.keys + 1 < 2 ^ 32 }
    ensures { Leaves (create upload.now progress.old content.now tags.now) progress.new result }
{
    references_visible(upload, progress, content)?;
    Ok(make(alloc, upload, progress, content, tags)?)
}

fn modify(
    alloc: Global,
    upload: &UploadTask,
    progress: &mut Progress,
    name: Name,
    version: u64,
    content: &Content<Name>,
    tags: &Tags,
) -> Result<(), Fault>
    requires { length progress.old.keys + 1 < 2 ^ 32 }
    ensures { Leaves (modify upload.now progress.old name version content.now tags.now) progress.new result }
{
    let kind = kind_of(content);
    let key = named_key(upload, progress, kind, name)?;
    named_version(upload, progress, kind, name, key, version)?;
    references_visible(upload, progress, content)?;
    Ok(change(alloc, upload, progress, key, content, tags)?)
}

/// Deletes a visible element, unless it is used.
fn delete_unless_used(
    alloc: Global,
    upload: &UploadTask,
    progress: &mut Progress,
    kind: Kind,
    name: Name,
    key: Key,
    if_unused: bool,
) -> Result<(), Fault>
    requires { length progress.old.keys + 1 < 2 ^ 32 }
    ensures { Leaves (delete_unless_used upload.now progress.old kind name key if_unused (first_user progress.old.elements key)) progress.new result }
{
    match progress.elements.first_user(key) {
        None => Ok(apply(alloc, upload, progress, key, None, Tags::none(alloc))?),
        Some(user) => {
            let refusal = used(upload, progress, kind, name, user);
            or_skip(progress, key, if_unused, refusal)
        }
    }
}

fn delete(
    alloc: Global,
    upload: &UploadTask,
    progress: &mut Progress,
    kind: Kind,
    name: Name,
    version: u64,
    if_unused: bool,
) -> Result<(), Fault>
    requires { length progress.old.keys + 1 < 2 ^ 32 }
    ensures { Leaves (delete upload.now progress.old kind name version if_unused) progress.new result }
{
    let key = named_key(upload, progress, kind, name)?;
    if !progress.elements.is_visible(key) {
        let refusal = gone(upload, progress, kind, name, key);
        return or_skip(progress, key, if_unused, refusal);
    }
    named_version(upload, progress, kind, name, key, version)?;
    delete_unless_used(alloc, upload, progress, kind, name, key, if_unused)
}

/// Judges one operation on what the earlier ones left.
pub fn operate(
    alloc: Global,
    upload: &UploadTask,
    progress: &mut Progress,
    operation: &Op,
) -> Result<(), Fault>
    requires { length progress.old.keys + 1 < 2 ^ 32 }
    ensures { Leaves (operate upload.now progress.old operation.now) progress.new result }
{
    match operation {
        Op::Create { content, tags, .. } => create(alloc, upload, progress, content, tags),
        Op::Modify {
            name,
            version,
            content,
            tags,
        } => modify(alloc, upload, progress, *name, *version, content, tags),
        Op::Delete {
            kind,
            name,
            version,
            if_unused,
        } => delete(alloc, upload, progress, *kind, *name, *version, *if_unused),
    }
}
