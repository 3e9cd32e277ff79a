//! The parts of an answer, written one after another.
//!
//! The ported writer escapes, and its contract is taken as it stands. The one call of it that
//! would leave escapes out writes a text as a number, which its own `requires` refuses.
#![tactic(auto, unfolding(crate::specs::Sent::tokens_of, crate::specs::Sent::field_tokens))]

ghost use Rattle.std.specs.Prelude.{◌≡◌, [], ◌∷◌};
ghost use Rattle.std.specs.Option.{ForSome};
ghost use Rattle.serde_json.specs.Data.{boolean, string};
ghost use Rattle.osm_json.specs.Shown.{field, field_if, natural, integer, kind_name, named, moment, version_field, record_of};
ghost use Rattle.osm_change.specs.Moments.{IsShownMoment};
ghost use Rattle.osm_json.specs.Sent.{Sends, SendsFields, tokens_of, field_tokens};
ghost use Rattle.osm_json.specs.Fields.{shown_field, shown_fields, IsMember};

use crate::moment::moment_text;
use json::Writer;
use osm_base::{Kind, Stamp};
use osm_change::Said;
use std::alloc::AllocError;

// A member of an object.

pub(crate) fn natural(out: &mut Writer, name: &str, n: u64) -> Result<(), AllocError>
    ensures { Sends result out.old out.new (field_tokens (field name.now (natural n))) }
{
    out.key(name)?;
    out.u64(n)
}

fn integer(out: &mut Writer, name: &str, n: i64) -> Result<(), AllocError>
    ensures { Sends result out.old out.new (field_tokens (field name.now (integer n))) }
{
    out.key(name)?;
    out.i64(n)
}

pub(crate) fn text(out: &mut Writer, name: &str, text: &str) -> Result<(), AllocError>
    ensures { Sends result out.old out.new (field_tokens (field name.now (string text.now))) }
{
    out.key(name)?;
    out.string(text)
}

/// The name of a kind in bodies and in the lines of journals.
pub fn kind_name(kind: Kind) -> &'static str
    ensures { result.now ≡ kind_name kind }
{
    match kind {
        Kind::Node => "node",
        Kind::Way => "way",
        Kind::Relation => "relation",
    }
}

/// The value of a member, or that the member is left out.
#[derive(Clone, Copy)]
pub enum FieldValue<'a> {
    Absent,
    Natural(u64),
    Integer(i64),
    Flag(bool),
    Text(&'a str),
}

fn flag(out: &mut Writer, name: &str, b: bool) -> Result<(), AllocError>
    ensures { Sends result out.old out.new (field_tokens (field name.now (boolean b))) }
{
    out.key(name)?;
    out.boolean(b)
}

fn member(out: &mut Writer, name: &str, value: FieldValue<'_>) -> Result<(), AllocError>
    ensures { Sends result out.old out.new (field_tokens (shown_field name.now value.entry)) }
{
    match value {
        FieldValue::Absent => Ok(()),
        FieldValue::Natural(n) => natural(out, name, n),
        FieldValue::Integer(n) => integer(out, name, n),
        FieldValue::Flag(b) => flag(out, name, b),
        FieldValue::Text(s) => text(out, name, s),
    }
}

pub fn members(out: &mut Writer, fields: &[(&str, FieldValue<'_>)]) -> Result<(), AllocError>
    ensures { SendsFields result out.old out.new (shown_fields fields.now) }
{
    for (name, value) in fields {
        member(out, name, *value)?;
    }
    Ok(())
}

/// An object of these members.
pub fn record(out: &mut Writer, fields: &[(&str, FieldValue<'_>)]) -> Result<(), AllocError>
    ensures { Sends result out.old out.new (tokens_of (record_of (shown_fields fields.now))) }
{
    out.begin_object()?;
    members(out, fields)?;
    out.end_object()
}

/// The version of the interface, which ends each document.
pub(crate) fn version(out: &mut Writer) -> Result<(), AllocError>
    ensures { SendsFields result out.old out.new (version_field ∷ []) }
{
    members(out, &[("version", FieldValue::Text("0.6"))])
}

pub(crate) fn optional(value: Option<u64>) -> FieldValue<'static>
    ensures { IsMember result (λ name. field_if name natural value) }
{
    match value {
        Some(n) => FieldValue::Natural(n),
        None => FieldValue::Absent,
    }
}

/// The number of an operation.
pub(crate) fn operation(op: Option<u32>) -> FieldValue<'static>
    ensures { IsMember result (λ name. field_if name natural op) }
{
    match op {
        Some(n) => FieldValue::Natural(n as u64),
        None => FieldValue::Absent,
    }
}

pub(crate) fn said(said: Said) -> FieldValue<'static>
    ensures { IsMember result (λ name. field name (named said)) }
{
    match said {
        Said::Id(id) => FieldValue::Natural(id),
        Said::Placeholder(placeholder) => FieldValue::Integer(placeholder),
    }
}

// Moments, whose text is made on the stack.

pub(crate) fn moment(out: &mut Writer, name: &str, stamp: Stamp) -> Result<(), AllocError>
    requires { IsShownMoment stamp }
    ensures { Sends result out.old out.new (field_tokens (field name.now (moment stamp))) }
{
    let shown = moment_text(stamp);
    text(out, name, shown.as_str())
}

pub(crate) fn optional_moment(
    out: &mut Writer,
    name: &str,
    stamp: Option<Stamp>,
) -> Result<(), AllocError>
    requires { ForSome stamp IsShownMoment }
    ensures { Sends result out.old out.new (field_tokens (field_if name.now moment stamp)) }
{
    match stamp {
        Some(at) => moment(out, name, at),
        None => Ok(()),
    }
}
