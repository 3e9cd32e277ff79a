//! Bytes in a line of text.
use crate::faults::RowFault;

/// Where the reading of an escape stands.
#[derive(Clone, Copy)]
enum Escape {
    Outside,
    /// Behind a backslash.
    Begun,
    /// Behind `\x`.
    Hex,
    /// Behind `\x` and the first digit.
    Digit(u8),
}

fn hex(byte: u8) -> Result<u8, RowFault> {
    match byte {
        b'0'..=b'9' => Ok(byte - b'0'),
        b'a'..=b'f' => Ok(byte - b'a' + 10),
        _ => Err(RowFault::Unread),
    }
}

/// The byte behind a backslash and the one that it stands for.
const SHORT: [(u8, u8); 4] = [(b'r', b'\r'), (b'n', b'\n'), (b't', b'\t'), (b'\\', b'\\')];

fn short(byte: u8) -> Result<u8, RowFault> {
    for (letter, meant) in SHORT {
        if letter == byte {
            return Ok(meant);
        }
    }
    Err(RowFault::Unread)
}

/// Adds the byte that comes of the next one, where one does, and says where the reading stands behind
/// it.
fn add_escaped(made: &mut Vec<u8>, escape: Escape, byte: u8) -> Result<Escape, RowFault> {
    let came = match escape {
        Escape::Outside if byte == b'\\' => return Ok(Escape::Begun),
        Escape::Outside => byte,
        Escape::Begun if byte == b'x' => return Ok(Escape::Hex),
        Escape::Begun => short(byte)?,
        Escape::Hex => return Ok(Escape::Digit(hex(byte)?)),
        Escape::Digit(high) => high.wrapping_mul(16) | hex(byte)?,
    };
    made.push(came)?;
    Ok(Escape::Outside)
}

/// Adds the bytes of a text with the escapes `\r`, `\n`, `\t`, `\\` and `\xHH`.
pub fn add_unescaped(made: &mut Vec<u8>, text: &str) -> Result<(), RowFault> {
    let mut escape = Escape::Outside;
    for byte in text.as_bytes() {
        escape = add_escaped(made, escape, *byte)?;
    }
    match escape {
        Escape::Outside => Ok(()),
        _ => Err(RowFault::Unread),
    }
}
