//! The first bytes of an input.
ghost use Rattle.std.specs.Prelude.{◌≡◌, ◌<◌, ◌≤◌, length, IfOk, IfErr};
ghost use Rattle.http_wire.specs.Received.{Fills};
ghost use Rattle.journal_text.specs.Text.{header};
ghost use Rattle.journal_text.specs.declared.versions.Version.{Version};
ghost use Rattle.journal_input.specs.Going.{IsFront, Stops};

use crate::faults::InputFault;
use crate::pieces::read_piece;
use journal_text::HEADER;
use osm_outside::{Outside, Source};
use std::alloc::Global;

/// As many bytes as a header has, or all of an input that has fewer.
pub(crate) fn read_front<S: Source>(
    alloc: Global,
    source: &mut S,
    room: &mut [u8],
) -> Result<Vec<u8>, InputFault>
    requires { length (header Version.Two) ≤ length room.old }
    ensures front { IfOk result (λ front. IsFront (S.told source.old) (S.told source.new) front.items) }
    ensures fault { IfErr result (λ why. Stops why (S.told source.old) (S.told source.new)) }
{
    let mut front = Vec::with_capacity(alloc, HEADER.len())?;
    'reads: while front.len() < HEADER.len() {
        let lacking = HEADER.len() - front.len();
        let count = read_behind(source, &mut room[..lacking], &mut front)?;
        if count == 0 {
            return Ok(front);
        }
    }
    Ok(front)
}

/// Reads a piece to the room and puts it behind what was read before.
fn read_behind<S: Source>(
    source: &mut S,
    room: &mut [u8],
    bytes: &mut Vec<u8>,
) -> Result<usize, InputFault>
    requires { 0 < length room.old }
    ensures count { IfOk result (λ n. n ≤ length room.old) }
    ensures filled { IfOk result (Fills (S.told source.old) (S.told source.new) bytes.old.items bytes.new.items) }
    ensures fault { IfErr result (λ why. Stops why (S.told source.old) (S.told source.new)) }
{
    let count = read_piece(source, room)?;
    bytes.extend_from_slice(&room[..count])?;
    Ok(count)
}
