//! The entries of an input.
//!
//! A text that is refused is read to its end all the same, so a pipe's writer isn't cut off, and a
//! read that fails behind the fault is status 3. So is what stands behind a gate.
ghost use Rattle.std.specs.Prelude.{◌≡◌, ◌<◌, [], length};
ghost use Rattle.osm_outside.specs.Told.{Told};
ghost use Rattle.journal_text.specs.Text.{header};
ghost use Rattle.journal_input.specs.Going.{SoFar};
ghost use Rattle.journal_input.specs.Input.{IsRead};

use crate::faults::InputFault;
use crate::front::read_front;
use crate::gate::Place;
use crate::lines::{Lines, end, judge_piece};
use crate::pieces::{PIECE_ROOM, read_piece};
use crate::refusal::refuse;
use crate::rest::read_rest;
use journal_text::{
    HEADER, JournalFault, Keeper, TEXT_LIMIT, Version, lines_are_plain, lines_are_read_in_turn,
    split_header,
};
use osm_outside::{Outside, Source};
use std::alloc::Global;

/// Reads a source to its end, or to one byte past `TEXT_LIMIT`, and has the entries of the journal's
/// text that it gives kept line by line by a keeper that keeps nothing yet. The text ends before a
/// gate, a byte `#` at a line's beginning; what stands behind it doesn't count. Beside what is kept,
/// one line and one piece of at most 65,536 bytes are in memory. After a fault the entries before the
/// faulty line are kept. The rest of the input is read then, as behind a gate, and thrown away; want of
/// memory stops reading.
pub fn read_entries<S: Source, K: Keeper>(
    alloc: Global,
    source: &mut S,
    keeper: &mut K,
) -> Result<(), InputFault>
    requires { K.kept keeper.old ≡ [] }
    ensures { IsRead (S.told source.old) (S.told source.new) (K.kept keeper.new) result }
{
    let mut room = Vec::from_elem(alloc, 0, PIECE_ROOM)?;
    let front = read_front(alloc, source, &mut room)?;
    if let Some((version, _)) = split_header(front.as_slice()) {
        read_lines(alloc, version, source, &mut room, keeper)
    } else if front.len() < HEADER.len() {
        Err(InputFault::Text(JournalFault::Header))
    } else {
        let place = Place::LineStart.behind(&front);
        Err(refuse(source, &mut room, JournalFault::Header, place, front.len()))
    }
}

/// Reads the lines behind the header of this version, and has their entries kept.
fn read_lines<S: Source, K: Keeper>(
    alloc: Global,
    version: Version,
    source: &mut S,
    room: &mut [u8],
    keeper: &mut K,
) -> Result<(), InputFault>
    requires none { K.kept keeper.old ≡ [] }
    requires some { 0 < length room.old }
    ensures { (before : Told) → SoFar before (S.told source.old) (header version) → IsRead before (S.told source.new) (K.kept keeper.new) result }
{
    lines_are_plain();
    lines_are_read_in_turn();
    let mut lines = Lines {
        begun: Vec::new(alloc),
        number: 2,
    };
    let mut count = HEADER.len();
    'pieces: while count <= TEXT_LIMIT {
        let most = (TEXT_LIMIT + 1 - count).min(room.len());
        let more = read_piece(source, &mut room[..most])?;
        if more == 0 {
            end(&lines)?;
            return Ok(());
        }
        count += more;
        let begun = lines.place();
        match judge_piece(alloc, version, &mut lines, &room[..more], keeper) {
            Ok(false) => {}
            Ok(true) => {
                let _is_long = read_rest(source, room, Place::BehindGate, count)?;
                return Ok(());
            }
            Err(fault) => {
                let place = begun.behind(&room[..more]);
                return Err(refuse(source, room, fault, place, count));
            }
        }
    }
    Err(InputFault::Text(JournalFault::Long))
}
