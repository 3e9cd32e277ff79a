//! Changes of nodes alone.
ghost use Rattle.std.specs.Prelude.{◌<◌, ◌^◌, length, IfOk, IfSome};
ghost use Rattle.osm_change.specs.Build.{HasContent, IsRawOp, IsRaw};

use osm_base::{Kind, Memory};
use osm_change::{Action, Cause, Change, RawOp};
use osm_element::{RawContent, Tags};
use std::alloc::Global;

/// An operation on a node: its id or placeholder, the version that it replaces, and the latitude and the
/// longitude that it gives in units of 1e-7 degrees. A delete gives none.
pub type NodeOp = (Action, i64, u32, (i32, i32));

/// No row has more operations.
const MOST: usize = 1_000;

/// The content of an operation on a node: a delete has none.
pub fn content(action: Action, at: (i32, i32)) -> Option<RawContent>
    ensures { HasContent action Kind.Node result }
{
    let lat7 = i64::from(at.0);
    let lon7 = i64::from(at.1);
    match action {
        Action::Create => Some(RawContent::Node { lat7, lon7 }),
        Action::Modify => Some(RawContent::Node { lat7, lon7 }),
        Action::Delete { .. } => None,
    }
}

/// The operation, unless its id or its version is none.
pub fn raw_of(alloc: Global, operation: NodeOp) -> Option<RawOp>
    ensures { IfSome result IsRawOp }
{
    let (action, id, version, at) = operation;
    if id == 0 || id == i64::MIN || version == 0 {
        return None;
    }
    Some(RawOp {
        action,
        kind: Kind::Node,
        id,
        version: Some(u64::from(version)),
        changeset: None,
        content: content(action, at),
        tags: Tags::none(alloc),
    })
}

fn raws(alloc: Global, operations: &[NodeOp]) -> Result<Vec<RawOp>, Memory>
    requires { length operations.now < 2 ^ 32 }
    ensures { IfOk result (λ made. IsRaw made.items) }
{
    let mut made = Vec::new(alloc);
    for operation in operations {
        let Some(raw) = raw_of(alloc, *operation) else {
            break;
        };
        made.push(raw)?;
    }
    Ok(made)
}

/// The change that they make, unless that is refused. None of them names a changeset, so it may be sent to
/// any.
pub fn built(alloc: Global, raws: Vec<RawOp>) -> Result<Option<Change>, Memory>
    requires { IsRaw raws.items }
{
    match Change::build(alloc, 1, raws) {
        Ok(change) => Ok(Some(change)),
        Err(fault) if fault.cause == Cause::Memory => Err(Memory),
        Err(_) => Ok(None),
    }
}

/// The change with these operations, unless that is refused or they are more than any row has.
pub fn change(alloc: Global, operations: &[NodeOp]) -> Result<Option<Change>, Memory> {
    if operations.len() > MOST {
        return Ok(None);
    }
    built(alloc, raws(alloc, operations)?)
}
