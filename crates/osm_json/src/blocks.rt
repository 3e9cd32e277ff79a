//! The blocks of an upload.
ghost use Rattle.std.specs.Prelude.{◌≡◌, ◌<◌, ◌≤◌, true, map, take, length, option_map, vec_len, Ok, Err, MatchResult, OnOk};
ghost use Rattle.serde_json.specs.Data.{no_items};
ghost use Rattle.serde_json.specs.Find.{as_array};
ghost use Rattle.osm_json.specs.Pull.{next_data, next_items, next_members, Pulled, PulledMembers};
ghost use Rattle.osm_json.specs.Walked.{sight, walk_one, walk_all, walk_list, put_entry, SeesMembers, only_unused, mark_ops, finish_block, told, walk_block, walk_blocks, walk_value};

use crate::fault::{ReadFault, keep};
use crate::names::{Entry, entry_of};
use crate::operation::operation;
use crate::pass::{pass_items, pass_value};
use crate::scalar::{enter_array, enter_object, next_flag};
use json::Reader;
use osm_change::{Action, RawOp};
use std::alloc::Global;

/// The operations that were read, and the number of the first that is malformed.
#[derive(Drop)]
pub(crate) struct Progress {
    pub(crate) ops: Vec<RawOp>,
    pub(crate) fault: Option<u32>,
}

/// Reads the next element, unless one was malformed before.
fn element(
    alloc: Global,
    reader: &mut Reader<'_>,
    depth: usize,
    action: Action,
    progress: &mut Progress,
) -> Result<(), ReadFault>
    ensures value { Pulled (λ _. sight progress.new) (λ d. walk_one action d (sight progress.old)) result (next_data depth reader.old) reader.new }
    ensures shorter { OnOk result (length reader.new < length reader.old) }
{
    match progress.fault {
        Some(_) => pass_value(reader, depth),
        None => {
            let count = progress.ops.len();
            if count >= u32::MAX as usize {
                return Err(ReadFault::Memory);
            }
            match operation(alloc, reader, depth, action)? {
                Some(op) => progress.ops.push(op)?,
                None => progress.fault = Some(count as u32 + 1),
            }
            Ok(())
        }
    }
}

fn elements(
    alloc: Global,
    reader: &mut Reader<'_>,
    depth: usize,
    action: Action,
    progress: &mut Progress,
) -> Result<(), ReadFault>
    ensures value { Pulled (λ _. sight progress.new)
        (λ ds. walk_all action ds (sight progress.old)) result (next_items depth reader.old) reader.new }
    ensures shorter { OnOk result (length reader.new ≤ length reader.old) }
{
    while !reader.take_end_array() {
        element(alloc, reader, depth, action, progress)?;
    }
    Ok(())
}

/// Whether the next value is a list, whose elements are then read.
fn list(
    alloc: Global,
    reader: &mut Reader<'_>,
    depth: usize,
    action: Action,
    progress: &mut Progress,
) -> Result<bool, ReadFault>
    ensures value { Pulled (λ b. (b, sight progress.new))
        (λ d. walk_list action (sight progress.old) (as_array d)) result (next_data depth reader.old) reader.new }
    ensures shorter { OnOk result (length reader.new < length reader.old) }
{
    match enter_array(reader, depth)? {
        Some(within) => {
            elements(alloc, reader, within, action, progress)?;
            Ok(true)
        }
        None => Ok(false),
    }
}

/// What was found of a block.
#[derive(Clone, Copy, Drop)]
struct Lists {
    create: bool,
    modify: bool,
    delete: bool,
    /// Whether the last of these was a list.
    is_list: bool,
    if_unused: Option<Option<bool>>,
}

/// Where a block began: how many operations there were, and the fault before it.
#[derive(Clone, Copy, Drop)]
struct Base {
    start: usize,
    fault: Option<u32>,
}

/// Reads a list of elements in place of what was read of the block before.
fn listed(
    alloc: Global,
    reader: &mut Reader<'_>,
    depth: usize,
    action: Action,
    base: Base,
    progress: &mut Progress,
) -> Result<bool, ReadFault>
    ensures value { Pulled (λ b. (b, sight progress.new))
        (λ d. walk_list action (take base.start progress.old.ops.items, base.fault) (as_array d)) result (next_data depth reader.old) reader.new }
    ensures shorter { OnOk result (length reader.new < length reader.old) }
{
    progress.ops.truncate(base.start);
    progress.fault = base.fault;
    list(alloc, reader, depth, action, progress)
}

/// Keeps that a member was there, and whether it is a list.
#[inline(always)]
fn keep_list(
    there: &mut bool,
    is_list: &mut bool,
    read: Result<bool, ReadFault>,
) -> Result<(), ReadFault>
    ensures { MatchResult read
        (λ value. (result ≡ Ok tt) × (there.new ≡ true) × (is_list.new ≡ value))
        (λ fault. result ≡ Err fault) }
{
    *is_list = read?;
    *there = true;
    Ok(())
}

/// Reads a member of a block.
fn entry(
    alloc: Global,
    reader: &mut Reader<'_>,
    depth: usize,
    name: Entry,
    base: Base,
    found: &mut Lists,
    progress: &mut Progress,
) -> Result<(), ReadFault>
    ensures value { Pulled (λ _. (found.new, sight progress.new))
        (λ d. put_entry name d (take base.start progress.old.ops.items, base.fault) (found.old, sight progress.old)) result (next_data depth reader.old) reader.new }
    ensures shorter { OnOk result (length reader.new < length reader.old) }
{
    match name {
        Entry::Create => keep_list(
            &mut found.create,
            &mut found.is_list,
            listed(alloc, reader, depth, Action::Create, base, progress),
        ),
        Entry::Modify => keep_list(
            &mut found.modify,
            &mut found.is_list,
            listed(alloc, reader, depth, Action::Modify, base, progress),
        ),
        Entry::Delete => {
            let action = Action::Delete { if_unused: false };
            keep_list(
                &mut found.delete,
                &mut found.is_list,
                listed(alloc, reader, depth, action, base, progress),
            )
        }
        Entry::IfUnused => keep(&mut found.if_unused, next_flag(reader, depth)),
        Entry::Other => pass_value(reader, depth),
    }
}

/// The members of the block that was entered.
fn entries(
    alloc: Global,
    reader: &mut Reader<'_>,
    depth: usize,
    base: Base,
    progress: &mut Progress,
) -> Result<Lists, ReadFault>
    requires { base.start ≤ length progress.old.ops.items }
    ensures value { PulledMembers
        (λ f ms. SeesMembers ms (take base.start progress.old.ops.items, base.fault) (f, sight progress.new)) result (next_members depth reader.old) reader.new }
    ensures shorter { OnOk result (length reader.new ≤ length reader.old) }
{
    let mut found = Lists {
        create: false,
        modify: false,
        delete: false,
        is_list: false,
        if_unused: None,
    };
    while let Some(key) = reader.next_key()? {
        entry(
            alloc,
            reader,
            depth,
            entry_of(key),
            base,
            &mut found,
            progress,
        )?;
    }
    Ok(found)
}

fn mark_unused(ops: &mut [RawOp])
    ensures { ops.new ≡ map only_unused ops.old }
{
    for op in ops.iter_mut() {
        op.action = Action::Delete { if_unused: true };
    }
}

fn mark_from(ops: &mut Vec<RawOp>, start: usize)
    ensures { ops.new.items ≡ mark_ops start ops.old.items }
{
    if start <= ops.len() {
        mark_unused(&mut ops[start..]);
    }
}

/// Whether it is a block. Deletions are told their condition, which may stand behind them.
fn finish(found: Lists, start: usize, progress: &mut Progress) -> bool
    ensures { (result, sight progress.new)
        ≡ finish_block start found.create found.modify found.delete found (sight progress.old) }
{
    match (found.create, found.modify, found.delete) {
        (true, false, false) | (false, true, false) => found.is_list,
        (false, false, true) => match (found.is_list, found.if_unused) {
            (false, _) | (true, Some(None)) => false,
            (true, Some(Some(true))) => {
                mark_from(&mut progress.ops, start);
                true
            }
            (true, _) => true,
        },
        _ => false,
    }
}

/// Whether the next value is a block, whose operations are then read.
fn block(
    alloc: Global,
    reader: &mut Reader<'_>,
    depth: usize,
    progress: &mut Progress,
) -> Result<bool, ReadFault>
    ensures value { Pulled (λ b. told b (sight progress.new)) (walk_block (sight progress.old)) result (next_data depth reader.old) reader.new }
    ensures shorter { OnOk result (length reader.new < length reader.old) }
{
    match enter_object(reader, depth)? {
        Some(within) => {
            let base = Base {
                start: progress.ops.len(),
                fault: progress.fault,
            };
            let found = entries(alloc, reader, within, base, progress)?;
            Ok(finish(found, base.start, progress))
        }
        None => Ok(false),
    }
}

fn blocks_inside(
    alloc: Global,
    reader: &mut Reader<'_>,
    depth: usize,
) -> Result<Option<Progress>, ReadFault>
    ensures value { Pulled (λ o. option_map sight o) (λ ds. walk_value (Some ds)) result (next_items depth reader.old) reader.new }
    ensures shorter { OnOk result (length reader.new ≤ length reader.old) }
{
    let mut progress = Progress {
        ops: Vec::new(alloc),
        fault: None,
    };
    while !reader.take_end_array() {
        let is_block = block(alloc, reader, depth, &mut progress)?;
        if !is_block {
            pass_items(reader, depth)?;
            return Ok(None);
        }
    }
    Ok(Some(progress))
}

/// The operations of a list of blocks. None where the next value is no such list.
pub(crate) fn blocks(
    alloc: Global,
    reader: &mut Reader<'_>,
    depth: usize,
) -> Result<Option<Progress>, ReadFault>
    ensures value { Pulled (λ o. option_map sight o) (λ d. walk_value (as_array d)) result (next_data depth reader.old) reader.new }
    ensures shorter { OnOk result (length reader.new < length reader.old) }
{
    match enter_array(reader, depth)? {
        Some(within) => blocks_inside(alloc, reader, within),
        None => Ok(None),
    }
}
