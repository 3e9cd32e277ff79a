//! Operations: an action and a kind in one byte, and then what the operation holds.
ghost use Rattle.std.specs.Prelude.{◌≡◌, ◌++◌, OnOk, All};
ghost use Rattle.std.specs.List.{flat_map};
ghost use Rattle.osm_change.specs.Change.{IsPlaceholder, HasPlaceholder};
ghost use Rattle.packed_entry.specs.Packed.{packed_op, packed_parts, op_code, packed_list, depth_of};
ghost use Rattle.packed_entry.specs.Read.{Gives, create_at, modify_at, delete_at, op_by, op_at, each_at, list_at};
ghost use Rattle.packed_entry.specs.Typed.{IsOp, AreAll, IsChange};

use crate::contents::{content, put_content};
use crate::faults::Fault;
use crate::names::{kind_code, kind_of, name, put_name};
use crate::numbers::put_number;
use crate::reader::Reader;
use crate::tags::{put_tags, tags};
use osm_base::{Items, Kind, Memory};
use osm_change::{Change, Op, kind_of as kind_of_content};
use std::alloc::Global;

/// How far a placeholder lies below -1.
fn depth(placeholder: i64) -> u64
    requires { IsPlaceholder placeholder }
    ensures { result ≡ depth_of placeholder }
{
    (-(placeholder + 1)) as u64
}

fn code_of(operation: &Op) -> u8
    ensures { result ≡ op_code operation.now }
{
    match operation {
        Op::Create { content, .. } => kind_code(kind_of_content(content)),
        Op::Modify { content, .. } => 3 + kind_code(kind_of_content(content)),
        Op::Delete {
            kind,
            if_unused,
            ..
        } => {
            if *if_unused {
                9 + kind_code(*kind)
            } else {
                6 + kind_code(*kind)
            }
        }
    }
}

fn put_parts(out: &mut Vec<u8>, operation: &Op) -> Result<(), Memory>
    requires { HasPlaceholder operation.now }
    ensures bytes { OnOk result (out.new.items ≡ out.old.items ++ packed_parts operation.now) }
    ensures typed { OnOk result (IsOp operation.now) }
{
    match operation {
        Op::Create {
            placeholder,
            content,
            tags,
        } => {
            put_number(out, depth(*placeholder))?;
            put_content(out, content)?;
            put_tags(out, tags)
        }
        Op::Modify {
            name,
            version,
            content,
            tags,
        } => {
            put_name(out, *name)?;
            put_number(out, *version)?;
            put_content(out, content)?;
            put_tags(out, tags)
        }
        Op::Delete { name, version, .. } => {
            put_name(out, *name)?;
            put_number(out, *version)
        }
    }
}

#[tactic(auto, unfolding(crate::specs::Packed::packed_op))]
fn put_op(out: &mut Vec<u8>, operation: &Op) -> Result<(), Memory>
    requires { HasPlaceholder operation.now }
    ensures bytes { OnOk result (out.new.items ≡ out.old.items ++ packed_op operation.now) }
    ensures typed { OnOk result (IsOp operation.now) }
{
    out.push(code_of(operation))?;
    put_parts(out, operation)
}

fn put_each_op(out: &mut Vec<u8>, operations: &[Op]) -> Result<(), Memory>
    requires { All HasPlaceholder operations.now }
    ensures bytes { OnOk result (out.new.items ≡ out.old.items ++ flat_map packed_op operations.now) }
    ensures typed { OnOk result (All IsOp operations.now) }
{
    for operation in operations {
        put_op(out, operation)?;
    }
    Ok(())
}

#[tactic(auto, unfolding(crate::specs::Packed::packed_list))]
pub(crate) fn put_change(out: &mut Vec<u8>, change: &Change) -> Result<(), Memory>
    ensures bytes { OnOk result (out.new.items ≡ out.old.items ++ packed_list packed_op change.now) }
    ensures typed { OnOk result (IsChange change.now) }
{
    let operations = change.operations();
    put_number(out, operations.len() as u64)?;
    put_each_op(out, operations)
}

#[tactic(auto, unfolding(crate::specs::Read::create_at))]
fn create(alloc: Global, kind: Kind, reader: &mut Reader<'_>) -> Result<Op, Fault>
    ensures { Gives (λ x. x) result (create_at kind reader.old) reader.new }
{
    let depth = reader.number()?;
    if depth >= 1 << 63 {
        return Err(Fault::Malformed);
    }
    let placeholder = -1 - depth as i64;
    let content = content(alloc, kind, reader)?;
    let tags = tags(alloc, reader)?;
    Ok(Op::Create {
        placeholder,
        content,
        tags,
    })
}

#[tactic(auto, unfolding(crate::specs::Read::modify_at))]
fn modify(alloc: Global, kind: Kind, reader: &mut Reader<'_>) -> Result<Op, Fault>
    ensures { Gives (λ x. x) result (modify_at kind reader.old) reader.new }
{
    let name = name(reader)?;
    let version = reader.number()?;
    let content = content(alloc, kind, reader)?;
    let tags = tags(alloc, reader)?;
    Ok(Op::Modify {
        name,
        version,
        content,
        tags,
    })
}

#[tactic(auto, unfolding(crate::specs::Read::delete_at))]
fn delete(kind: Kind, if_unused: bool, reader: &mut Reader<'_>) -> Result<Op, Fault>
    ensures { Gives (λ x. x) result (delete_at kind if_unused reader.old) reader.new }
{
    let name = name(reader)?;
    let version = reader.number()?;
    Ok(Op::Delete {
        kind,
        name,
        version,
        if_unused,
    })
}

/// The operation of an action's number and a kind.
fn op_by(alloc: Global, action: u8, kind: Kind, reader: &mut Reader<'_>) -> Result<Op, Fault>
    ensures { Gives (λ x. x) result (op_by action kind reader.old) reader.new }
{
    if action == 0 {
        create(alloc, kind, reader)
    } else if action == 1 {
        modify(alloc, kind, reader)
    } else if action == 2 {
        delete(kind, false, reader)
    } else if action == 3 {
        delete(kind, true, reader)
    } else {
        Err(Fault::Malformed)
    }
}

#[tactic(auto, unfolding(crate::specs::Read::op_at))]
fn op(alloc: Global, reader: &mut Reader<'_>) -> Result<Op, Fault>
    ensures { Gives (λ x. x) result (op_at reader.old) reader.new }
{
    let code = reader.byte()?;
    match kind_of(code % 3) {
        Some(kind) => op_by(alloc, code / 3, kind, reader),
        None => Err(Fault::Malformed),
    }
}

fn each_op(alloc: Global, count: u64, reader: &mut Reader<'_>) -> Result<Vec<Op>, Fault>
    ensures { Gives (λ x. x.items) result (each_at op_at count reader.old) reader.new }
{
    let mut operations = Vec::with_capacity(alloc, count as usize)?;
    for _ in 0..count {
        let operation = op(alloc, reader)?;
        operations.push(operation)?;
    }
    Ok(operations)
}

/// Operations of which nothing is known yet.
#[tactic(auto, unfolding(crate::specs::Read::list_at))]
pub(crate) fn operations(alloc: Global, reader: &mut Reader<'_>) -> Result<Items<Op>, Fault>
    ensures { Gives (λ x. x) result (list_at op_at reader.old) reader.new }
{
    let count = reader.number()?;
    Ok(Items::of(each_op(alloc, count, reader)?))
}
