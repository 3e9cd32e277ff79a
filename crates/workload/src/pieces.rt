//! Pieces of a text, put behind one another.
ghost use Rattle.std.specs.Prelude.{◌≡◌, ◌++◌, OnOk, decimal};

use itoa::Buffer;
use osm_base::Memory;

pub fn put(bytes: &mut Vec<u8>, piece: &[u8]) -> Result<(), Memory>
    ensures { OnOk result (bytes.new.items ≡ bytes.old.items ++ piece.now) }
{
    bytes.extend_from_slice(piece)?;
    Ok(())
}

/// Puts the digits of a number.
pub fn put_number(bytes: &mut Vec<u8>, number: u32) -> Result<(), Memory>
    ensures { OnOk result (bytes.new.items ≡ bytes.old.items ++ decimal number) }
{
    let mut digits = Buffer::new();
    put(bytes, digits.format(number).as_bytes())
}

/// Puts a piece, and the digits of a number behind it.
pub fn put_with_number(bytes: &mut Vec<u8>, piece: &[u8], number: u32) -> Result<(), Memory>
    ensures { OnOk result (bytes.new.items ≡ bytes.old.items ++ (piece.now ++ decimal number)) }
{
    put(bytes, piece)?;
    put_number(bytes, number)
}
