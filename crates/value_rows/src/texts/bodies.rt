//! What a body is read as, as a text.
use super::told::{tell_operation, tell_tags};
use super::{TextFault, numbered, said};
use osm_base::Kind;
use osm_change::{Action, RawOp};
use osm_element::Tags;
use osm_json::{BodyFault, read_change, read_single, read_tags, read_title};
use std::alloc::{AllocError, Global};

/// A line of a row: a body, if it says something.
pub fn add(text: &mut String, line: &str) -> Result<(), AllocError> {
    if line.is_empty() || line.starts_with('#') {
        return Ok(());
    }
    text.clear();
    text.push_str(line)
}

/// What a body is of.
#[derive(Clone, Copy)]
enum BodyKind {
    Change,
    /// An operation behind a good one.
    Operation,
    Single,
    Tags { needed: bool },
    Title,
}

const BODY_KINDS: [(&str, BodyKind); 8] = [
    ("change", BodyKind::Change),
    ("create", BodyKind::Operation),
    ("modify", BodyKind::Operation),
    ("delete", BodyKind::Operation),
    ("single", BodyKind::Single),
    ("tags", BodyKind::Tags { needed: false }),
    ("needed_tags", BodyKind::Tags { needed: true }),
    ("title", BodyKind::Title),
];

const KINDS: [(&str, Kind); 3] = [
    ("node", Kind::Node),
    ("way", Kind::Way),
    ("relation", Kind::Relation),
];

const ACTIONS: [(&str, Action); 3] = [
    ("create", Action::Create),
    ("modify", Action::Modify),
    ("delete", Action::Delete { if_unused: false }),
];

/// What stands beside a word.
fn looked_up<T: Copy>(table: &[(&str, T)], word: &str) -> Result<T, TextFault> {
    for (name, meaning) in table {
        if *name == word {
            return Ok(*meaning);
        }
    }
    Err(TextFault::Unread)
}

/// Why a body isn't read.
fn fault(alloc: Global, why: BodyFault) -> Result<String, TextFault> {
    match why {
        BodyFault::Shape { op } => numbered(alloc, "shape", u64::from(op)),
        BodyFault::NotJson => said(alloc, "not_json"),
        BodyFault::Memory => Err(TextFault::Memory),
    }
}

/// `reads`, and behind it the operations.
fn operations_text(alloc: Global, operations: &[RawOp]) -> Result<String, TextFault> {
    let mut text = said(alloc, "reads")?;
    for operation in operations {
        tell_operation(operation, &mut text)?;
    }
    Ok(text)
}

fn change(alloc: Global, body: &str) -> Result<String, TextFault> {
    match read_change(alloc, body.as_bytes()) {
        Ok(operations) => operations_text(alloc, operations.as_slice()),
        Err(why) => fault(alloc, why),
    }
}

/// One operation behind a good one, in a block of that name: what a change of the two is read as.
fn operation(alloc: Global, action: &str, element: &str) -> Result<String, TextFault> {
    let good = r#"{"type":"node","id":1,"version":1,"lat7":1,"lon7":2}"#;
    let body = format!(in alloc; "{{\"osmChange\":[{{\"{action}\":[{good},{element}]}}]}}")?;
    change(alloc, body.as_str())
}

fn single_text(alloc: Global, changeset: u64, operation: &RawOp) -> Result<String, TextFault> {
    let mut text = numbered(alloc, "reads in", changeset)?;
    tell_operation(operation, &mut text)?;
    Ok(text)
}

/// The body of a single element, whose action, kind and id are said in words.
fn single_of(alloc: Global, words: [&str; 3], body: &str) -> Result<String, TextFault> {
    let [action, kind, id] = words;
    let action = looked_up(&ACTIONS, action)?;
    let kind = looked_up(&KINDS, kind)?;
    let Ok(id) = id.parse::<i64>() else {
        return Err(TextFault::Unread);
    };
    match read_single(alloc, body.as_bytes(), action, kind, id) {
        Ok((changeset, operation)) => single_text(alloc, changeset, &operation),
        Err(why) => fault(alloc, why),
    }
}

/// The body of a single element: `ACTION KIND ID BODY`.
fn single(alloc: Global, line: &str) -> Result<String, TextFault> {
    let mut parts = line.splitn(4, ' ');
    let action = parts.next().unwrap_or("");
    let kind = parts.next().unwrap_or("");
    let id = parts.next().unwrap_or("");
    single_of(alloc, [action, kind, id], parts.next().unwrap_or(""))
}

fn tags_text(alloc: Global, tags: &Tags) -> Result<String, TextFault> {
    let mut text = said(alloc, "reads")?;
    tell_tags(tags, &mut text)?;
    Ok(text)
}

fn tags(alloc: Global, body: &str, needed: bool) -> Result<String, TextFault> {
    match read_tags(alloc, body.as_bytes(), needed) {
        Ok(tags) => tags_text(alloc, &tags),
        Err(why) => fault(alloc, why),
    }
}

fn title(alloc: Global, body: &str) -> Result<String, TextFault> {
    match read_title(alloc, body.as_bytes()) {
        Ok(title) => Ok(["reads ", title.as_str()].concat(alloc)?),
        Err(why) => fault(alloc, why),
    }
}

/// What the body of a line is read as: `READING BODY`.
pub fn reading(alloc: Global, line: &str) -> Result<String, TextFault> {
    let (name, body) = line.split_once(' ').unwrap_or((line, ""));
    match looked_up(&BODY_KINDS, name)? {
        BodyKind::Change => change(alloc, body),
        BodyKind::Operation => operation(alloc, name, body),
        BodyKind::Single => single(alloc, body),
        BodyKind::Tags { needed } => tags(alloc, body, needed),
        BodyKind::Title => title(alloc, body),
    }
}
