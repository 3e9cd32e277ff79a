//! The limits on an element's own parts.
ghost use Rattle.std.specs.Prelude.{◌≡◌, length, chars};
ghost use Rattle.std.specs.List.{list_any};
ghost use Rattle.osm_element.specs.Limits.{is_long, is_bad_key, check_tags, check_position, check_nodes, check_members, check_content, check_parts};

use crate::contents::{Member, RawContent};
use crate::faults::LocalFault;
use crate::labels::Tags;
use osm_base::{CHARACTER_LIMIT, RELATION_LIMIT, WAY_LIMIT, is_on_globe};

/// The lowest limit that an element's own parts are beyond. It takes no memory.
pub fn check_local(tags: &Tags, content: &RawContent) -> Result<(), LocalFault>
    ensures { result ≡ check_parts tags.now content.now }
{
    tags.check()?;
    content.check()
}

impl Tags {
    /// The lowest limit that tags alone are beyond. It takes no memory.
    pub fn check(&self) -> Result<(), LocalFault>
        ensures { result ≡ check_tags self.now }
    {
        if has_bad_key(self) {
            return Err(LocalFault::TagKey);
        }
        if has_long_value(self) {
            return Err(LocalFault::TagValue);
        }
        Ok(())
    }
}

impl RawContent {
    fn check(&self) -> Result<(), LocalFault>
        ensures { result ≡ check_content self.now }
    {
        match self {
            RawContent::Node { lat7, lon7 } => check_position(*lat7, *lon7),
            RawContent::Way(nodes) => check_nodes(nodes.items()),
            RawContent::Relation(members) => check_members(members.items()),
        }
    }
}

fn check_position(lat7: i64, lon7: i64) -> Result<(), LocalFault>
    ensures { result ≡ check_position lat7 lon7 }
{
    if is_on_globe(lat7, lon7) {
        Ok(())
    } else {
        Err(LocalFault::Position)
    }
}

fn check_nodes(nodes: &[i64]) -> Result<(), LocalFault>
    ensures { result ≡ check_nodes nodes.now }
{
    if nodes.is_empty() {
        return Err(LocalFault::WayEmpty);
    }
    if nodes.len() > WAY_LIMIT {
        return Err(LocalFault::WayLong);
    }
    Ok(())
}

fn check_members(members: &[Member<i64>]) -> Result<(), LocalFault>
    ensures { result ≡ check_members members.now }
{
    if members.len() > RELATION_LIMIT {
        return Err(LocalFault::RelationLong);
    }
    if has_long_role(members) {
        return Err(LocalFault::Role);
    }
    Ok(())
}

fn has_long_role(members: &[Member<i64>]) -> bool
    ensures { result ≡ list_any (λ member. is_long member.role) members.now }
{
    members.iter().any(|member| is_long(member.role.as_str()))
}

fn has_bad_key(tags: &Tags) -> bool
    ensures { result ≡ list_any (λ tag. is_bad_key tag.0) tags.now }
{
    for index in 0..tags.len() {
        let (key, _) = tags.pair(index);
        if is_bad_key(key) {
            return true;
        }
    }
    false
}

fn has_long_value(tags: &Tags) -> bool
    ensures { result ≡ list_any (λ tag. is_long tag.1) tags.now }
{
    for index in 0..tags.len() {
        let (_, value) = tags.pair(index);
        if is_long(value) {
            return true;
        }
    }
    false
}

fn is_bad_key(key: &str) -> bool
    ensures { result ≡ is_bad_key key.now }
{
    key.is_empty() || is_long(key)
}

/// A text of few bytes has no more characters, so those are seldom counted.
fn is_long(text: &str) -> bool
    ensures { result ≡ is_long text.now }
{
    text.len() > CHARACTER_LIMIT && characters(text) > CHARACTER_LIMIT
}

fn characters(text: &str) -> usize
    ensures { result ≡ length (chars text.now) }
{
    text.chars().count()
}
