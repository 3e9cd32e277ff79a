//! What must hold before an operation is passed.
ghost use Rattle.std.specs.Prelude.{◌≡◌, ◌+◌, ◌<◌, ◌^◌, length, map, find};
ghost use Rattle.osm_change.specs.Change.{named, named_member, names_listed};
ghost use Rattle.osm_model.specs.Operation.{number, named_key, named_version, is_missing, missing, references_visible, gone, used};

use crate::names::{known_key, said_key};
use crate::uploads::UploadTask;
use osm_base::{Key, Kind};
use osm_change::{Name, Named, Refusal};
use osm_element::{Content, Member};
use osm_model::Progress;

/// The place of the operation that is judged, counted from 1.
fn number(progress: &Progress) -> Option<u32>
    requires { length progress.now.keys + 1 < 2 ^ 32 }
    ensures { result ≡ number progress.now }
{
    Some(progress.keys.len() as u32 + 1)
}

/// The element that is named, if it has a history.
pub fn named_key(
    upload: &UploadTask,
    progress: &Progress,
    kind: Kind,
    name: Name,
) -> Result<Key, Refusal>
    requires { length progress.now.keys + 1 < 2 ^ 32 }
    ensures { result ≡ named_key upload.now progress.now kind name }
{
    match known_key(upload, progress, kind, name) {
        Some(key) => Ok(key),
        None => Err(Refusal::NoElement {
            id: name.said(upload.operations),
            op: number(progress),
            kind,
        }),
    }
}

/// The element that is named has this current version.
pub fn named_version(
    upload: &UploadTask,
    progress: &Progress,
    kind: Kind,
    name: Name,
    key: Key,
    version: u64,
) -> Result<(), Refusal>
    requires { length progress.now.keys + 1 < 2 ^ 32 }
    ensures { result ≡ named_version upload.now progress.now kind name key version }
{
    let found = progress.elements.count(key);
    if found == version {
        Ok(())
    } else {
        Err(Refusal::WrongVersion {
            found,
            id: name.said(upload.operations),
            op: number(progress),
            provided: version,
            kind,
        })
    }
}

fn is_missing(upload: &UploadTask, progress: &Progress, named: Named) -> bool
    ensures { result ≡ is_missing upload.now progress.now named }
{
    match known_key(upload, progress, named.kind, named.name) {
        Some(key) => !progress.elements.is_visible(key),
        None => true,
    }
}

fn missing(upload: &UploadTask, progress: &Progress, named: Named) -> Refusal
    requires { length progress.now.keys + 1 < 2 ^ 32 }
    ensures { result ≡ missing upload.now progress.now named }
{
    let version = match known_key(upload, progress, named.kind, named.name) {
        Some(key) => progress.elements.count(key),
        None => 0,
    };
    Refusal::Missing {
        id: named.name.said(upload.operations),
        op: number(progress),
        kind: named.kind,
        version,
    }
}

fn first_missing_node(upload: &UploadTask, progress: &Progress, nodes: &[Name]) -> Option<Named>
    ensures { result ≡ find (is_missing upload.now progress.now) (map (named Kind.Node) nodes.now) }
{
    nodes
        .iter()
        .map(|name| Named {
            kind: Kind::Node,
            name: *name,
        })
        .find(|named| is_missing(upload, progress, *named))
}

fn first_missing_member(
    upload: &UploadTask,
    progress: &Progress,
    members: &[Member<Name>],
) -> Option<Named>
    ensures { result ≡ find (is_missing upload.now progress.now) (map named_member members.now) }
{
    members
        .iter()
        .map(|member| Named {
            kind: member.kind,
            name: member.name,
        })
        .find(|named| is_missing(upload, progress, *named))
}

/// The first reference that isn't visible.
fn first_missing(upload: &UploadTask, progress: &Progress, content: &Content<Name>) -> Option<Named>
    ensures { result ≡ find (is_missing upload.now progress.now) (names_listed content.now) }
{
    match content {
        Content::Node(_) => None,
        Content::Way(nodes) => first_missing_node(upload, progress, nodes.items()),
        Content::Relation(members) => first_missing_member(upload, progress, members.items()),
    }
}

/// What a new content lists is visible. The first reference that isn't counts.
pub fn references_visible(
    upload: &UploadTask,
    progress: &Progress,
    content: &Content<Name>,
) -> Result<(), Refusal>
    requires { length progress.now.keys + 1 < 2 ^ 32 }
    ensures { result ≡ references_visible upload.now progress.now content.now }
{
    match first_missing(upload, progress, content) {
        Some(named) => Err(missing(upload, progress, named)),
        None => Ok(()),
    }
}

/// The refusal of a delete of what isn't visible.
pub fn gone(upload: &UploadTask, progress: &Progress, kind: Kind, name: Name, key: Key) -> Refusal
    requires { length progress.now.keys + 1 < 2 ^ 32 }
    ensures { result ≡ gone upload.now progress.now kind name key }
{
    Refusal::Gone {
        id: name.said(upload.operations),
        op: number(progress),
        kind,
        version: progress.elements.count(key),
    }
}

/// The refusal of a delete of what is used.
pub fn used(upload: &UploadTask, progress: &Progress, kind: Kind, name: Name, user: Key) -> Refusal
    requires { length progress.now.keys + 1 < 2 ^ 32 }
    ensures { result ≡ used upload.now progress.now kind name user }
{
    Refusal::Used {
        id: name.said(upload.operations),
        op: number(progress),
        kind,
        user_id: said_key(upload, progress, user),
        user_kind: user.kind,
        user_version: progress.elements.count(user),
    }
}
