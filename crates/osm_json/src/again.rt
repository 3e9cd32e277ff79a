//! Values and parts of bodies that stand in another text, where its reader has come to them. Each
//! is refused with `NotJson` or, where another value is, with `Shape` and op 0.
ghost use Rattle.std.specs.Prelude.{◌≡◌, IfOk};
ghost use Rattle.serde_json.specs.Find.{as_bool, as_str};
ghost use Rattle.osm_change.specs.Build.{IsRaw};
ghost use Rattle.osm_json.specs.Again.{natural_of, next_as, ops_of, Draws};
ghost use Rattle.osm_json.specs.Drawn.{drawn_of};
ghost use Rattle.osm_json.specs.Reading.{kind_of, tags_of};

use crate::blocks::blocks;
use crate::change::operations;
use crate::fault::{BodyFault, ReadFault};
use crate::scalar;
use crate::scalar::DEPTH_LIMIT;
use crate::tags::tags;
use json::Reader;
use osm_base::Kind;
use osm_change::RawOp;
use osm_element::Tags;
use std::alloc::Global;

fn drawn<T: Drop>(read: Result<Option<T>, ReadFault>) -> Result<T, BodyFault>
    ensures { result ≡ drawn_of read }
{
    match read {
        Ok(Some(value)) => Ok(value),
        Ok(None) => Err(BodyFault::Shape { op: 0 }),
        Err(ReadFault::NotJson) => Err(BodyFault::NotJson),
        Err(ReadFault::Memory) => Err(BodyFault::Memory),
    }
}

/// A whole number of 64 bits.
#[tactic(auto, using(crate::proofs::Returned::draws))]
pub fn next_natural(reader: &mut Reader<'_>) -> Result<u64, BodyFault>
    ensures { Draws (λ n. n) result (next_as natural_of reader.old) reader.new }
{
    drawn(scalar::next_natural(reader, DEPTH_LIMIT))
}

#[tactic(auto, using(crate::proofs::Returned::draws))]
pub fn next_flag(reader: &mut Reader<'_>) -> Result<bool, BodyFault>
    ensures { Draws (λ b. b) result (next_as as_bool reader.old) reader.new }
{
    drawn(scalar::next_flag(reader, DEPTH_LIMIT))
}

/// A text, unescaped.
#[tactic(auto, using(crate::proofs::Returned::draws))]
pub fn next_text<'a>(reader: &mut Reader<'a>) -> Result<&'a str, BodyFault>
    ensures { Draws (λ t. t.now) result (next_as as_str reader.old) reader.new }
{
    drawn(scalar::next_text(reader, DEPTH_LIMIT))
}

/// The kind of an element, by its name.
#[tactic(auto, using(crate::proofs::Returned::draws))]
pub fn next_kind(reader: &mut Reader<'_>) -> Result<Kind, BodyFault>
    ensures { Draws (λ k. k) result (next_as kind_of reader.old) reader.new }
{
    drawn(scalar::next_kind(reader, DEPTH_LIMIT))
}

/// An object of tags.
#[tactic(auto, using(crate::proofs::Returned::draws))]
pub fn next_tags(alloc: Global, reader: &mut Reader<'_>) -> Result<Tags, BodyFault>
    ensures { Draws (λ t. t) result (next_as tags_of reader.old) reader.new }
{
    drawn(tags(alloc, reader, DEPTH_LIMIT))
}

/// A list of blocks, read as that of an upload's body.
pub fn next_change(alloc: Global, reader: &mut Reader<'_>) -> Result<Vec<RawOp>, BodyFault>
    ensures value { Draws (λ v. v.items) result (next_as ops_of reader.old) reader.new }
    ensures raw { IfOk result (λ v. IsRaw v.items) }
{
    match blocks(alloc, reader, DEPTH_LIMIT) {
        Ok(found) => operations(found),
        Err(ReadFault::NotJson) => Err(BodyFault::NotJson),
        Err(ReadFault::Memory) => Err(BodyFault::Memory),
    }
}
