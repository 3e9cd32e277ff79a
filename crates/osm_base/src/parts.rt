//! A text cut at a byte.
ghost use Rattle.std.specs.Prelude.{◌≡◌, position};
ghost use Rattle.std.specs.Option.{option_map};
ghost use Rattle.osm_base.specs.Parts.{is_byte, parted};

/// What stands before the first such byte and what stands behind it, where there is one.
pub fn split_once(text: &[u8], separator: u8) -> Option<(&[u8], &[u8])>
    ensures { option_map (λ part. (part.0.now, part.1.now)) result ≡ parted separator text.now }
{
    let at = place_of(text, separator)?;
    Some((&text[..at], &text[at + 1..]))
}

fn place_of(text: &[u8], separator: u8) -> Option<usize>
    ensures { result ≡ position (is_byte separator) text.now }
{
    text.iter().position(|byte| *byte == separator)
}
