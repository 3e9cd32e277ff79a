//! The pieces of an input.
ghost use Rattle.std.specs.Prelude.{◌≡◌, ◌<◌, ◌≤◌, ◌+◌, [], length, take, IfOk, OnErr, IsErr};
ghost use Rattle.osm_outside.specs.Told.{Rose};
ghost use Rattle.http_wire.specs.Received.{Fills, Taken};

use osm_outside::{Failed, Outside, Source};

/// The most bytes that are read at once.
pub(crate) const PIECE_ROOM: usize = 65_536;

/// Reads a piece to the front of the room: none is the end of the input.
pub(crate) fn read_piece<S: Source>(source: &mut S, room: &mut [u8]) -> Result<usize, Failed>
    requires { 0 < length room.old }
    ensures count { IfOk result (λ n. n ≤ length room.new) }
    ensures piece { IfOk result (λ n. Fills (S.told source.old) (S.told source.new) [] (take n room.new) n) }
    ensures nothing_read { OnErr result (Taken (S.told source.old) (S.told source.new) []) }
    ensures failed { IsErr result → Rose (S.told source.old).read_faults (S.told source.new).read_faults }
{
    source.read(room)
}
