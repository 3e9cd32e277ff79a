//! The elements of an upload's operations.
ghost use Rattle.std.specs.Prelude.{◌≡◌, length, IfOk};
ghost use Rattle.osm_change.specs.Keys.{next_of, one_more, ids_after, key_of, keys_of};
ghost use Rattle.diff_result.specs.Counted.{HasNumbers};

use osm_base::{Key, Kind, Memory};
use osm_change::{FirstIds, Op, kind_of};
use std::alloc::Global;

/// The element of each operation.
pub fn keys_of(alloc: Global, operations: &[Op], first: FirstIds) -> Result<Vec<Key>, Memory>
    requires { HasNumbers first (length operations.now) }
    ensures keys { IfOk result (λ keys. keys.items ≡ keys_of first operations.now) }
    ensures each { IfOk result (λ keys. length keys.items ≡ length operations.now) }
{
    let mut next = first;
    let mut keys = Vec::with_capacity(alloc, operations.len())?;
    for operation in operations {
        let key = take_key(keys.as_slice(), &mut next, operation);
        keys.push(key)?;
    }
    Ok(keys)
}

/// The element of an operation. The id of one that it creates is then taken.
fn take_key(keys: &[Key], next: &mut FirstIds, operation: &Op) -> Key
    requires { HasNumbers next.old 1 }
    ensures key { result ≡ key_of keys.now next.old operation.now }
    ensures next { next.new ≡ ids_after next.old operation.now }
{
    match operation {
        Op::Create { content, .. } => {
            let kind = kind_of(content);
            Key {
                kind,
                id: take_id(next, kind),
            }
        }
        Op::Modify { name, content, .. } => name.key(kind_of(content), keys),
        Op::Delete { kind, name, .. } => name.key(*kind, keys),
    }
}

fn take_id(next: &mut FirstIds, kind: Kind) -> u64
    requires { HasNumbers next.old 1 }
    ensures id { result ≡ next_of next.old kind }
    ensures next { next.new ≡ one_more next.old kind }
{
    match kind {
        Kind::Node => {
            next.node += 1;
            next.node - 1
        }
        Kind::Way => {
            next.way += 1;
            next.way - 1
        }
        Kind::Relation => {
            next.relation += 1;
            next.relation - 1
        }
    }
}
