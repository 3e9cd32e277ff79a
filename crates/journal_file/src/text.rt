//! How much of a file counts.
ghost use Rattle.std.specs.Prelude.{◌≡◌, ◌++◌, ◌+◌, ◌<◌, ◌≤◌, ◌↔◌, IsTrue, IfSome, None, List, ℕ, length, replicate, option_map};
ghost use Rattle.journal_file.specs.Settled.{AreZeros};
ghost use Rattle.journal_file.specs.Whole.{text_of, behind_lines, behind_line, rest_of, packed_line, BeginsWith};

/// Ends each line.
const END: u8 = b'\n';

/// The first byte of each line but the header.
const OPEN: u8 = b'{';

/// What stands behind the first byte 10, where no byte 0 stands before it.
fn line_behind(bytes: &[u8]) -> Option<&[u8]>
    ensures line { option_map (λ behind. behind_lines behind.now) result ≡ behind_line bytes.now }
    ensures shorter { IfSome result (λ behind. length behind.now < length bytes.now) }
{
    let mut at = 0;
    'bytes: while at < bytes.len() {
        let byte = bytes[at];
        if byte == 0 {
            return None;
        }
        at += 1;
        if byte == END {
            return Some(&bytes[at..]);
        }
    }
    None
}

/// What stands behind the whole line at the front, or behind the empty one.
fn next_line(bytes: &[u8]) -> Option<&[u8]>
    ensures same { IfSome result (λ behind. behind_lines behind.now ≡ behind_lines bytes.now) }
    ensures shorter { IfSome result (λ behind. length behind.now < length bytes.now) }
    ensures none { result ≡ None → behind_lines bytes.now ≡ bytes.now }
{
    if begins_with(bytes, &[END]) {
        return Some(&bytes[1..]);
    }
    if begins_with(bytes, &[OPEN]) {
        return line_behind(&bytes[1..]);
    }
    None
}

/// What stands behind the whole lines at the front and the empty ones among them.
fn behind_lines(bytes: &[u8]) -> &[u8]
    ensures { result.now ≡ behind_lines bytes.now }
{
    let mut rest = bytes;
    'lines: while let Some(behind) = next_line(rest) {
        rest = behind;
    }
    rest
}

/// What stands behind the text of a file: all of it where it has no first line.
pub(crate) fn rest_of(file: &[u8]) -> &[u8]
    ensures { result.now ≡ rest_of file.now }
{
    match line_behind(file) {
        Some(behind) => behind_lines(behind),
        None => file,
    }
}

/// How many bytes of a file stand for its text.
pub(crate) fn raw_len(file: &[u8]) -> usize
    ensures { result + length (rest_of file.now) ≡ length file.now }
{
    file.len() - rest_of(file).len()
}

/// The bytes of a file that stand for its text: its first line, the whole lines behind it, and the
/// empty ones among those, which don't count.
pub fn raw_text(file: &[u8]) -> &[u8]
    ensures text { packed_line result.now ≡ text_of file.now }
    ensures front { file.now ≡ result.now ++ rest_of file.now }
{
    &file[..raw_len(file)]
}

/// Whether a file begins with this header.
pub(crate) fn begins_with(file: &[u8], header: &[u8]) -> bool
    ensures { IsTrue result ↔ BeginsWith header.now file.now }
{
    file.starts_with(header)
}

/// Whether all of these are bytes 0.
pub(crate) fn are_zeros(bytes: &[u8]) -> bool
    ensures { IsTrue result ↔ AreZeros bytes.now }
{
    bytes.iter().all(|byte| *byte == 0)
}
