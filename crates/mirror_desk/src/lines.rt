//! What a request line calls.
ghost use Rattle.std.specs.Prelude.{◌≡◌, IfErr};
ghost use Rattle.desk_parts.specs.Faults.{HasShownFault};
ghost use Rattle.api_desk.specs.Gives.{Gives};
ghost use Rattle.mirror_desk.specs.Request.{posted, put, line_of};

use desk_parts::RequestFault;
use http_wire::Message;
use osm_change::Refusal;
use route_table::{Call, Routes, before_query};
use std::alloc::Global;

/// The path of the call that takes a piece.
const PIECE_PATH: &[u8] = b"/api/0.6/replication";

/// The path of the call that says that the mirror is level.
const LEVEL_PATH: &[u8] = b"/api/0.6/replication/level";

/// What a request line calls.
#[derive(Drop)]
pub enum Line {
    /// The mirror's own call, which takes a piece.
    Piece,
    /// The mirror's own call, which says that it is level.
    Level,
    /// A call that the server has.
    Served(Call),
}

/// The call that takes a piece has one method. Methods are compared exactly.
fn posted(method: &[u8]) -> Result<Line, RequestFault>
    ensures gives { Gives (posted method.now) result }
    ensures shown { IfErr result HasShownFault }
{
    if method == b"POST".as_slice() {
        Ok(Line::Piece)
    } else {
        Err(RequestFault::Refused(Refusal::WrongMethod))
    }
}

/// The call that says that the mirror is level has one method.
fn put(method: &[u8]) -> Result<Line, RequestFault>
    ensures gives { Gives (put method.now) result }
    ensures shown { IfErr result HasShownFault }
{
    if method == b"PUT".as_slice() {
        Ok(Line::Level)
    } else {
        Err(RequestFault::Refused(Refusal::WrongMethod))
    }
}

/// What the request line of a message calls, or the first cause for which it calls nothing.
pub fn line_of(alloc: Global, message: &Message, routes: &Routes) -> Result<Line, RequestFault>
    ensures gives { Gives (line_of message.now) result }
    ensures shown { IfErr result HasShownFault }
{
    let method = message.method.as_slice();
    let target = message.target.as_slice();
    let path = before_query(target);
    if path == PIECE_PATH {
        return posted(method);
    }
    if path == LEVEL_PATH {
        return put(method);
    }
    let call = routes.route(alloc, method, target)?;
    Ok(Line::Served(call))
}
