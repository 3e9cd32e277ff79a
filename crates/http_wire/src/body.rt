//! The body of a message.
ghost use Rattle.std.specs.Prelude.{◌≡◌, ◌≤◌, ◌+◌, ◌++◌, length, vec_len, IfOk, IfErr, OnOk, IsErrOf};
ghost use Rattle.osm_base.specs.declared.limits.TheConstants.{HEAD_LIMIT};
ghost use Rattle.http_wire.specs.Body.{BodyStops, Delivers};
ghost use Rattle.osm_outside.specs.Told.{Rose};

use crate::buffer::Buffer;
use crate::end::WireEnd;
use osm_base::Bytes;
use osm_outside::{Outside, Source};
use std::alloc::Global;

/// Reads a body of that length. It looks at each byte once, whatever pieces it comes in.
pub fn read_body<S: Source>(
    buffer: &mut Buffer,
    alloc: Global,
    source: &mut S,
    size: usize,
) -> Result<Bytes, WireEnd>
    ensures body { IfOk result (λ body. Delivers (S.told source.old) (S.told source.new) buffer.old size body buffer.new) }
    ensures size { IfOk result (λ body. length body ≡ size) }
    ensures limit { OnOk result (length buffer.new ≤ HEAD_LIMIT) }
    ensures stops { IfErr result (BodyStops (S.told source.old) (S.told source.new) buffer.old size) }
    ensures fault { IsErrOf result WireEnd.ReadFault
        → Rose (S.told source.old).read_faults (S.told source.new).read_faults }
{
    let mut body = Vec::new(alloc);
    'pieces: loop {
        let ready = buffer.as_slice().len().min(size - body.len());
        append(&mut body, &buffer.as_slice()[..ready])?;
        buffer.drop_front(ready);
        if body.len() == size {
            return Ok(Bytes::from_vec(body));
        }
        match buffer.fill(source) {
            Ok(0) => return Err(WireEnd::Truncated),
            Ok(_) => {}
            Err(_) => return Err(WireEnd::ReadFault),
        }
    }
}

/// Appends a piece.
fn append(body: &mut Vec<u8>, piece: &[u8]) -> Result<(), WireEnd>
    ensures ok { OnOk result (body.new.items ≡ body.old.items ++ piece.now) }
    ensures len { OnOk result (vec_len body.new ≡ vec_len body.old + length piece.now) }
    ensures err { IfErr result (λ e. e ≡ WireEnd.Memory) }
{
    match body.extend_from_slice(piece) {
        Ok(()) => Ok(()),
        Err(_) => Err(WireEnd::Memory),
    }
}
