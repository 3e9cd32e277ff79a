//! Files of older versions.

use journal_file::raw_text;

/// Whether a file of an older version has lost lines: behind its text stands neither the `#` by which
/// those versions end it nor room alone. Such a file has no empty lines, so nothing else tells of a byte
/// that became 0 in the middle of its lines. No crash of this version leaves it, since a start adds two
/// empty lines before the first batch. One byte behind the text is no line, and one that no version
/// writes there is told by `is_damaged`.
pub(crate) fn has_lost_lines(file: &[u8], header: &[u8]) -> bool {
    if !file.starts_with(header) {
        return false;
    }
    let text = raw_text(file);
    let rest = file.get(text.len()..).unwrap_or(&[]);
    may_hold_lines(rest) && !has_empty_line(text)
}

/// Whether lines may stand in what is behind a text: more than a byte, which begins as a crash might
/// leave it, and not zeros alone.
fn may_hold_lines(rest: &[u8]) -> bool {
    match rest.first() {
        Some(first) if *first == 0 || *first == b'{' => {
            rest.len() > 1 && rest.iter().any(|byte| *byte != 0)
        }
        _ => false,
    }
}

/// Whether two bytes 10 stand side by side.
fn has_empty_line(text: &[u8]) -> bool {
    let mut before = 0;
    for byte in text {
        if *byte == b'\n' && before == b'\n' {
            return true;
        }
        before = *byte;
    }
    false
}
