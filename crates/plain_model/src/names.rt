//! Names of an upload's operations, and the elements that they stand for.
ghost use Rattle.std.specs.Prelude.{◌≡◌, map, IfOk};
ghost use Rattle.osm_change.specs.Keys.{id_of};
ghost use Rattle.osm_model.specs.Names.{of_kind, known_key, said_key, with_ids, member_with_id};

use crate::uploads::UploadTask;
use osm_base::{Key, Kind, Memory, TryCopy};
use osm_change::{Name, Referent, Said, said_made};
use osm_element::{BoxedItems, Content, Member};
use osm_model::Progress;
use std::alloc::{AllocError, Global};

fn of_kind(kind: Kind, key: Key) -> Option<Key>
    ensures { result ≡ of_kind kind key }
{
    if key.kind.is(kind) { Some(key) } else { None }
}

/// The element that is named: one with a history before the upload, or one of an earlier
/// operation.
pub fn known_key(upload: &UploadTask, progress: &Progress, kind: Kind, name: Name) -> Option<Key>
    ensures { result ≡ known_key upload.now progress.now kind name }
{
    match name.referent() {
        Referent::Old(id) => {
            let key = Key { kind, id };
            if upload.before.count(key) == 0 {
                None
            } else {
                Some(key)
            }
        }
        Referent::New(place) => match progress.keys.items().get(place as usize) {
            Some(key) => of_kind(kind, *key),
            None => None,
        },
    }
}

/// An element as the client would name it: by its id where it was there before the upload, and else
/// by the placeholder of its creation.
pub fn said_key(upload: &UploadTask, progress: &Progress, key: Key) -> Said
    ensures { result ≡ said_key upload.now progress.now key }
{
    if upload.before.count(key) == 0 {
        said_made(upload.operations, progress.keys.items(), key)
    } else {
        Said::Id(key.id)
    }
}

fn ids_of(alloc: Global, keys: &[Key], names: &[Name]) -> Result<Vec<u64>, AllocError>
    ensures { IfOk result (λ ids. ids.items ≡ map (id_of keys.now) names.now) }
{
    names.iter().map(|name| name.id(keys)).collect(alloc)
}

fn member_with_id(alloc: Global, keys: &[Key], member: &Member<Name>) -> Result<Member<u64>, Memory>
    ensures { IfOk result (λ made. made ≡ member_with_id keys.now member.now) }
{
    let role = member.role.copy(alloc)?;
    Ok(Member {
        kind: member.kind,
        name: member.name.id(keys),
        role,
    })
}

fn members_with_ids(
    alloc: Global,
    keys: &[Key],
    members: &[Member<Name>],
) -> Result<Vec<Member<u64>>, Memory>
    ensures { IfOk result (λ made. made.items ≡ map (member_with_id keys.now) members.now) }
{
    let mut made = Vec::with_capacity(alloc, members.len())?;
    for member in members {
        made.push(member_with_id(alloc, keys, member)?)?;
    }
    Ok(made)
}

/// A content with the ids that its names stand for.
pub fn with_ids(
    alloc: Global,
    keys: &[Key],
    content: &Content<Name>,
) -> Result<Content<u64>, Memory>
    ensures { IfOk result (λ made. made ≡ with_ids keys.now content.now) }
{
    match content {
        Content::Node(at) => Ok(Content::Node(*at)),
        Content::Way(nodes) => {
            let ids = ids_of(alloc, keys, nodes.items())?;
            Ok(Content::Way(BoxedItems::of(alloc, ids)?))
        }
        Content::Relation(members) => {
            let made = members_with_ids(alloc, keys, members.items())?;
            Ok(Content::Relation(BoxedItems::of(alloc, made)?))
        }
    }
}
