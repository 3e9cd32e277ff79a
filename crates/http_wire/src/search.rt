//! Reading until a head block is whole.
ghost use Rattle.std.specs.Prelude.{◌≡◌, ◌≤◌, ℕ, length, Err, IfOk, OnOk, IfErr, IsErrOf};
ghost use Rattle.osm_base.specs.declared.limits.TheConstants.{HEAD_LIMIT};
ghost use Rattle.http_wire.specs.Block.{IsBlockAt};
ghost use Rattle.http_wire.specs.End.{input_ended};
ghost use Rattle.http_wire.specs.Wire.{Gathers, Reads};
ghost use Rattle.osm_outside.specs.Told.{Rose};

use crate::block::{HeadBlock, Search, find_block};
use crate::buffer::Buffer;
use crate::end::WireEnd;
use osm_base::HEAD_LIMIT;
use osm_outside::{Outside, Source};

/// Reads until a head block is whole, and says where it stands, whatever limit a body has.
pub fn read_block<S: Source>(buffer: &mut Buffer, source: &mut S) -> Result<HeadBlock, WireEnd>
    ensures gathered { OnOk result ((body_limit : ℕ) → Gathers body_limit (S.told source.old) (S.told source.new) buffer.old buffer.new) }
    ensures limit { length buffer.new ≤ HEAD_LIMIT }
    ensures found { IfOk result (λ block. IsBlockAt buffer.new block.begin block.end) }
    ensures ended { IfErr result (λ e. (body_limit : ℕ)
        → Reads body_limit (S.told source.old) (S.told source.new) buffer.old (Err e) buffer.new) }
    ensures fault { IsErrOf result WireEnd.ReadFault
        → Rose (S.told source.old).read_faults (S.told source.new).read_faults }
{
    let mut begin = None;
    let mut searched = 0;
    'reads: loop {
        let bytes = buffer.as_slice();
        match find_block(bytes, begin, searched) {
            Search::Whole(block) => return Ok(block),
            Search::Open(begun) => begin = begun,
        }
        searched = bytes.len();
        if searched >= HEAD_LIMIT {
            return Err(WireEnd::HeadLong);
        }
        match buffer.fill(source) {
            Ok(0) => return Err(input_ended(begin)),
            Ok(_) => {}
            Err(_) => return Err(WireEnd::ReadFault),
        }
    }
}

/// The end where the input ended, by where the head block begins, if it has begun.
fn input_ended(begin: Option<usize>) -> WireEnd
    ensures { result ≡ input_ended begin }
{
    match begin {
        Some(_) => WireEnd::Truncated,
        None => WireEnd::End,
    }
}
