//! Where a text is cut into parts that have lines of their own.
ghost use Rattle.std.specs.Prelude.{◌≤◌, length, IfSome};
ghost use Rattle.line_text.specs.Cut.{IsCut};

use osm_base::split_once;

/// Cuts a text behind the first byte 10 that stands from this place on, where there is one. Nothing is
/// copied.
pub fn cut_behind(text: &[u8], from: usize) -> Option<(&[u8], &[u8])>
    requires { from ≤ length text.now }
    ensures { IfSome result (λ cut. IsCut text.now cut.0.now cut.1.now) }
{
    let (_before, rest) = text.split_at(from);
    let (_line, behind) = split_once(rest, b'\n')?;
    Some(text.split_at(text.len() - behind.len()))
}
