//! The document of an upload.
ghost use Rattle.std.specs.Prelude.{◌≡◌, ◌^◌, ◌<◌, ◌≤◌, [], length, codes, option_map, if◌then◌else◌, IfOk, OnOk};
ghost use Rattle.std.specs.Str.{bytes_eq};
ghost use Rattle.serde_json.specs.Find.{get, get_member, as_array};
ghost use Rattle.serde_json.specs.Read.{read};
ghost use Rattle.osm_change.specs.Build.{IsRaw};
ghost use Rattle.osm_json.specs.Reading.{Gives, in_json, operations_in, blocks_of, change_of};
ghost use Rattle.osm_json.specs.Pull.{next_data, next_members, ended, Pulled};
ghost use Rattle.osm_json.specs.Walked.{sight, walk_value, walk_document, outcome};

use crate::blocks::{Progress, blocks};
use crate::fault::{BodyFault, ReadFault};
use crate::pass::pass_value;
use crate::scalar::{DEPTH_LIMIT, enter_object};
use json::{Reader, Scratch};
use osm_change::RawOp;
use std::alloc::Global;

/// Reads a member of the document.
fn member(
    alloc: Global,
    reader: &mut Reader<'_>,
    depth: usize,
    key: &str,
    found: &mut Option<Progress>,
) -> Result<(), ReadFault>
    ensures value { Pulled (λ _. option_map sight found.new)
        (λ d. if bytes_eq key.now (codes "osmChange") then walk_value (as_array d) else option_map sight found.old) result (next_data depth reader.old) reader.new }
    ensures shorter { OnOk result (length reader.new < length reader.old) }
{
    if key == "osmChange" {
        // Of two such members the first isn't kept while the second is read.
        *found = None;
        let read = blocks(alloc, reader, depth)?;
        *found = read;
        Ok(())
    } else {
        pass_value(reader, depth)
    }
}

/// The members of the document.
fn members(
    alloc: Global,
    reader: &mut Reader<'_>,
    depth: usize,
) -> Result<Option<Progress>, ReadFault>
    ensures value { Pulled (λ o. option_map sight o)
        (λ ms. walk_document (get_member (codes "osmChange") ms)) result (next_members depth reader.old) reader.new }
    ensures shorter { OnOk result (length reader.new ≤ length reader.old) }
{
    let mut found = None;
    while let Some(key) = reader.next_key()? {
        member(alloc, reader, depth, key, &mut found)?;
    }
    Ok(found)
}

/// The operations of the document. None where it isn't that of an upload.
fn document(alloc: Global, reader: &mut Reader<'_>) -> Result<Option<Progress>, ReadFault>
    ensures { Pulled (λ o. option_map sight o) (λ d. walk_document (get (codes "osmChange") d)) result (next_data 127 reader.old) reader.new }
{
    match enter_object(reader, DEPTH_LIMIT)? {
        Some(within) => members(alloc, reader, within),
        None => Ok(None),
    }
}

/// The same of a document that nothing follows.
fn whole(alloc: Global, reader: &mut Reader<'_>) -> Result<Option<Progress>, ReadFault>
    ensures { Pulled (λ o. option_map sight o) (λ d. walk_document (get (codes "osmChange") d)) result (ended (next_data 127 reader.old)) [] }
{
    let found = document(alloc, reader)?;
    match reader.next() {
        None => Ok(found),
        Some(_) => Err(ReadFault::NotJson),
    }
}

/// The operations, or the fault of the first that is malformed.
pub(crate) fn operations(found: Option<Progress>) -> Result<Vec<RawOp>, BodyFault>
    ensures value { Gives (λ v. v.items) result (outcome (option_map sight found)) }
    ensures few { IfOk result (λ v. length v.items < 2 ^ 32) }
{
    match found {
        None => Err(BodyFault::Shape { op: 0 }),
        Some(progress) => match progress.fault {
            Some(op) => Err(BodyFault::Shape { op }),
            None => if progress.ops.len() <= u32::MAX as usize {
                Ok(progress.ops)
            } else {
                Err(BodyFault::Memory)
            },
        },
    }
}

fn read_text(alloc: Global, text: &str) -> Result<Vec<RawOp>, BodyFault>
    ensures value { Gives (λ v. v.items) result (in_json (λ d. operations_in (blocks_of d)) (read text.now)) }
    ensures few { IfOk result (λ v. length v.items < 2 ^ 32) }
{
    let mut scratch = Scratch::new(alloc);
    let mut reader = Reader::new(text, &mut scratch)?;
    match whole(alloc, &mut reader) {
        Ok(found) => operations(found),
        Err(ReadFault::NotJson) => Err(BodyFault::NotJson),
        Err(ReadFault::Memory) => Err(BodyFault::Memory),
    }
}

/// The operations of an upload, in the order of the document (OpenStreetMap wiki, "OsmChange").
/// Memory counts as out, too, where the list would have 2^32 operations.
pub fn read_change(alloc: Global, body: &[u8]) -> Result<Vec<RawOp>, BodyFault>
    ensures value { Gives (λ v. v.items) result (change_of body.now) }
    ensures raw { IfOk result (λ v. IsRaw v.items) }
{
    match simdutf8::compat::from_utf8(body) {
        Ok(text) => read_text(alloc, text),
        Err(_) => Err(BodyFault::NotJson),
    }
}
