//! The words of a line, and its repetitions.
use crate::faults::RowFault;
use itoa::Buffer;

/// The first word, and what stands behind it.
pub fn word_of(line: &str) -> (&str, &str) {
    line.split_once(' ').unwrap_or((line, ""))
}

/// A number of digits alone.
pub fn number(text: &str) -> Result<u64, RowFault> {
    match text.parse::<u64>() {
        Ok(number) => Ok(number),
        Err(_) => Err(RowFault::Unread),
    }
}

/// Adds the text with the number in the place of each `#`.
pub fn add_numbered(made: &mut String, text: &str, number: u64) -> Result<(), RowFault> {
    add_marked(made, text, '#', number)
}

/// Adds the text with the number in the place of each such mark.
pub fn add_marked(made: &mut String, text: &str, mark: char, number: u64) -> Result<(), RowFault> {
    let mut digits = Buffer::new();
    let digits = digits.format(number);
    let mut parts = text.split(mark);
    made.push_str(parts.next().unwrap_or(""))?;
    for part in parts {
        made.push_str(digits)?;
        made.push_str(part)?;
    }
    Ok(())
}

/// Adds the text once for each number from the first to the last, with the number in the place of
/// each `#`, and that text between.
fn add_counted(
    made: &mut String,
    text: &str,
    first: u64,
    last: u64,
    between: &str,
) -> Result<(), RowFault> {
    for number in first..=last {
        if number != first {
            made.push_str(between)?;
        }
        add_numbered(made, text, number)?;
    }
    Ok(())
}

/// Adds what stands behind a `$`, written out: a repetition `N(TEXT)`, `N,(TEXT)`, `M..N(TEXT)` or
/// `M..N,(TEXT)`, and more text.
fn add_repetition(made: &mut String, text: &str) -> Result<(), RowFault> {
    let (range, rest) = text.split_once('(').ok_or(RowFault::Unread)?;
    let (part, behind) = rest.split_once(')').ok_or(RowFault::Unread)?;
    let (range, between) = match range.strip_suffix(',') {
        Some(range) => (range, ","),
        None => (range, ""),
    };
    let (first, last) = range.split_once("..").unwrap_or(("1", range));
    add_counted(made, part, number(first)?, number(last)?, between)?;
    made.push_str(behind)?;
    Ok(())
}

/// Adds the text with its repetitions written out.
pub fn add_written_out(made: &mut String, text: &str) -> Result<(), RowFault> {
    let mut parts = text.split('$');
    made.push_str(parts.next().unwrap_or(""))?;
    for part in parts {
        add_repetition(made, part)?;
    }
    Ok(())
}
