//! What was read, as a text.
use osm_base::Kind;
use osm_change::{Action, RawOp};
use osm_element::{Member, RawContent, Tags};
use std::alloc::AllocError;

/// ` tags A=B C=D` in the order of the keys, or nothing where there are none.
pub fn tell_tags(tags: &Tags, text: &mut String) -> Result<(), AllocError> {
    if tags.len() > 0 {
        text.push_str(" tags")?;
    }
    for index in 0..tags.len() {
        let (key, value) = tags.pair(index);
        write!(text, " {key}={value}")?;
    }
    Ok(())
}

fn kind_word(kind: Kind) -> &'static str {
    match kind {
        Kind::Node => "node",
        Kind::Way => "way",
        Kind::Relation => "relation",
    }
}

fn action_word(action: Action) -> &'static str {
    match action {
        Action::Create => "create",
        Action::Modify => "modify",
        Action::Delete { if_unused: false } => "delete",
        Action::Delete { if_unused: true } => "delete_if_unused",
    }
}

fn tell_nodes(nodes: &[i64], text: &mut String) -> Result<(), AllocError> {
    text.push_str(" nodes")?;
    for node in nodes {
        write!(text, " {node}")?;
    }
    Ok(())
}

fn tell_members(members: &[Member<i64>], text: &mut String) -> Result<(), AllocError> {
    text.push_str(" members")?;
    for member in members {
        let (kind, name, role) = (kind_word(member.kind), member.name, member.role.as_str());
        write!(text, " {kind} {name} ({role})")?;
    }
    Ok(())
}

fn tell_content(content: &RawContent, text: &mut String) -> Result<(), AllocError> {
    match content {
        RawContent::Node { lat7, lon7 } => write!(text, " lat7 {lat7} lon7 {lon7}"),
        RawContent::Way(nodes) => tell_nodes(nodes.items(), text),
        RawContent::Relation(members) => tell_members(members.items(), text),
    }
}

/// A word and its number, where there is one.
fn tell_number(word: &str, number: Option<u64>, text: &mut String) -> Result<(), AllocError> {
    match number {
        Some(number) => write!(text, " {word} {number}"),
        None => Ok(()),
    }
}

/// What there is of: `version N`, `changeset N`, the content, the tags.
fn tell_parts(operation: &RawOp, text: &mut String) -> Result<(), AllocError> {
    tell_number("version", operation.version, text)?;
    tell_number("changeset", operation.changeset, text)?;
    if let Some(content) = &operation.content {
        tell_content(content, text)?;
    }
    tell_tags(&operation.tags, text)
}

/// ` ACTION KIND ID`, and then its parts.
pub fn tell_operation(operation: &RawOp, text: &mut String) -> Result<(), AllocError> {
    let action = action_word(operation.action);
    let kind = kind_word(operation.kind);
    let id = operation.id;
    write!(text, " {action} {kind} {id}")?;
    tell_parts(operation, text)
}
