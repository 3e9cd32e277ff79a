//! Pieces of a message's bytes.
ghost use Rattle.std.specs.Prelude.{◌≡◌, ◌==◌, position, option_copied};

use osm_base::Bytes;

/// The value of a field, where there is one.
pub fn value_of(field: &Option<Bytes>) -> Option<&[u8]>
    ensures { option_copied result ≡ field.now }
{
    match field {
        Some(value) => Some(value.as_slice()),
        None => None,
    }
}

/// Where a byte first stands, counted from 0.
pub fn place_of(byte: u8, bytes: &[u8]) -> Option<usize>
    ensures { result ≡ position (λ other. other == byte) bytes.now }
{
    bytes.iter().position(|other| *other == byte)
}
