//! Writing one text on a link.
ghost use Rattle.osm_serve.specs.Tell.{Writes};

use http_wire::write_all;
use osm_outside::{Link, Outside};
use server_frame::Exit;

/// Writes the text, and answers how that ended.
pub fn tell<L: Link>(text: &[u8], link: &mut L) -> Exit
    ensures { Writes text.now (L.told link.old) (L.told link.new) result }
{
    match write_all(link, text) {
        Ok(()) => Exit::Done,
        Err(_) => Exit::NotWritten,
    }
}
