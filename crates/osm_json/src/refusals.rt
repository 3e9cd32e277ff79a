//! The body of a refusal.
//!
//! A refusal's members stand in three groups (of the request, of the changeset, of the element),
//! and at most one of them is there.
ghost use Rattle.std.specs.Prelude.{◌≡◌, [], ◌∷◌, codes};
ghost use Rattle.osm_json.specs.Shown.{field, natural, moment};
ghost use Rattle.osm_json.specs.Refused.{local_name as name_of_local, error_name as name_of_error, before_error as fields_before, of_request as fields_of_request, of_changeset as fields_of_changeset, of_element as fields_of_element, op_field, element_fields, current_fields, version_fields, conflict_fields, user_fields, redacted_fields, refusal as refusal_data};
ghost use Rattle.osm_change.specs.Moments.{IsShownMoment, RefusalHasShownEnd};
ghost use Rattle.osm_json.specs.Sent.{Sends, SendsFields, tokens_of};

use crate::send::{FieldValue, kind_name, members, moment, natural, operation, said, text};
use json::Writer;
use osm_base::{Kind, Stamp};
use osm_change::{Refusal, Said};
use osm_element::LocalFault;
use std::alloc::AllocError;

fn local_name(fault: LocalFault) -> &'static str
    ensures { result.now ≡ name_of_local fault }
{
    match fault {
        LocalFault::TagKey => "tag_key",
        LocalFault::TagValue => "tag_value",
        LocalFault::WayEmpty => "way_empty",
        LocalFault::WayLong => "way_long",
        LocalFault::RelationLong => "relation_long",
        LocalFault::Role => "role_long",
        LocalFault::Position => "position",
    }
}

#[tactic(auto, unfolding(crate::specs::Refused::error_name))]
fn error_name(fault: &Refusal) -> &'static str
    ensures { result.now ≡ name_of_error fault.now }
{
    match fault {
        Refusal::BadHead => "bad_head",
        Refusal::HeadLong => "head_long",
        Refusal::Coded => "coded",
        Refusal::BadLength => "bad_length",
        Refusal::BodyLong => "body_long",
        Refusal::NoPath => "no_path",
        Refusal::WrongMethod => "wrong_method",
        Refusal::Xml => "xml",
        Refusal::NoUser => "no_user",
        Refusal::BadNumber => "bad_number",
        Refusal::BadParameter { .. } => "bad_parameter",
        Refusal::Role => "role",
        Refusal::NotJson => "not_json",
        Refusal::Shape { .. } => "shape",
        Refusal::NotNegative { .. } => "not_negative",
        Refusal::DoublePlaceholder { .. } => "double_placeholder",
        Refusal::UnknownPlaceholder { .. } => "unknown_placeholder",
        Refusal::NoVersion { .. } => "no_version",
        Refusal::Local { fault, .. } => local_name(*fault),
        Refusal::OtherChangeset { .. } => "other_changeset",
        Refusal::NoChangeset { .. } => "no_changeset",
        Refusal::NotOwner { .. } => "owner",
        Refusal::Closed { .. } => "closed",
        Refusal::Full { .. } => "full",
        Refusal::BoxTooLarge { .. } => "box_too_large",
        Refusal::NoElement { .. } => "no_element",
        Refusal::NoSuchVersion { .. } => "no_such_version",
        Refusal::WrongVersion { .. } => "version",
        Refusal::Gone { .. } => "gone",
        Refusal::Missing { .. } => "missing",
        Refusal::Used { .. } => "used",
        Refusal::Redacted { .. } => "redacted",
        Refusal::NoRedaction { .. } => "no_redaction",
        Refusal::RedactCurrent { .. } => "redact_current",
        Refusal::MapArea { .. } => "map_area",
        Refusal::MapNodes { .. } => "map_nodes",
        Refusal::NoPiece { .. } => "no_piece",
    }
}

fn closed(out: &mut Writer, changeset: u64, at: Stamp) -> Result<(), AllocError>
    requires { IsShownMoment at }
    ensures { SendsFields result out.old out.new
        (field (codes "changeset") (natural changeset) ∷ field (codes "closed_at") (moment at) ∷ []) }
{
    natural(out, "changeset", changeset)?;
    moment(out, "closed_at", at)?;
    Ok(())
}

/// The members whose names stand before that of the error.
#[tactic(auto, unfolding(crate::specs::Refused::before_error))]
fn before_error(out: &mut Writer, fault: &Refusal) -> Result<(), AllocError>
    requires { RefusalHasShownEnd fault.now }
    ensures { SendsFields result out.old out.new (fields_before fault.now) }
{
    match fault {
        Refusal::NotOwner { changeset, .. } => {
            members(out, &[("changeset", FieldValue::Natural(*changeset))])
        }
        Refusal::Closed {
            changeset,
            closed_at,
        } => closed(out, *changeset, *closed_at),
        Refusal::Full {
            applied,
            changeset,
            count,
            ..
        } => members(
            out,
            &[
                ("applied", FieldValue::Natural(*applied)),
                ("changeset", FieldValue::Natural(*changeset)),
                ("count", FieldValue::Natural(*count)),
            ],
        ),
        Refusal::BoxTooLarge {
            area,
            changeset,
            ..
        } => members(
            out,
            &[
                ("area", FieldValue::Natural(*area)),
                ("changeset", FieldValue::Natural(*changeset)),
            ],
        ),
        Refusal::MapArea { area, .. } => members(out, &[("area", FieldValue::Natural(*area))]),
        _ => Ok(()),
    }
}

/// The number of an operation.
fn at_operation(out: &mut Writer, op: Option<u32>) -> Result<(), AllocError>
    ensures { SendsFields result out.old out.new (op_field op ∷ []) }
{
    members(out, &[("op", operation(op))])
}

/// What a refusal of the target, of the body or of an operation as it stands there says.
#[tactic(auto, unfolding(crate::specs::Refused::of_request))]
fn of_request(out: &mut Writer, fault: &Refusal) -> Result<(), AllocError>
    ensures { SendsFields result out.old out.new (fields_of_request fault.now) }
{
    match fault {
        Refusal::BadParameter { name } => members(
            out,
            &[("name", FieldValue::Text(name.as_str()))],
        ),
        Refusal::Shape { op } => at_operation(out, *op),
        Refusal::NotNegative { op } => at_operation(out, *op),
        Refusal::DoublePlaceholder { op } => at_operation(out, *op),
        Refusal::UnknownPlaceholder { op } => at_operation(out, *op),
        Refusal::NoVersion { op } => at_operation(out, *op),
        Refusal::Local { op, .. } => at_operation(out, *op),
        Refusal::OtherChangeset { named, op } => members(
            out,
            &[
                ("named", FieldValue::Natural(*named)),
                ("op", operation(*op)),
            ],
        ),
        _ => Ok(()),
    }
}

/// What a refusal of a changeset, a redaction, a map call or the feed says.
#[tactic(auto, unfolding(crate::specs::Refused::of_changeset))]
fn of_changeset(out: &mut Writer, fault: &Refusal) -> Result<(), AllocError>
    ensures { SendsFields result out.old out.new (fields_of_changeset fault.now) }
{
    match fault {
        Refusal::NoChangeset { id } => members(out, &[("id", FieldValue::Natural(*id))]),
        Refusal::NotOwner { owner, .. } => members(out, &[("owner", FieldValue::Natural(*owner))]),
        Refusal::Full { limit, .. } => members(out, &[("limit", FieldValue::Natural(*limit))]),
        Refusal::BoxTooLarge { limit, .. } => members(
            out,
            &[("limit", FieldValue::Natural(*limit))],
        ),
        Refusal::NoRedaction { id } => members(out, &[("id", FieldValue::Natural(*id))]),
        Refusal::MapArea { limit, .. } => members(out, &[("limit", FieldValue::Natural(*limit))]),
        Refusal::MapNodes { limit, nodes } => members(
            out,
            &[
                ("limit", FieldValue::Natural(*limit)),
                ("nodes", FieldValue::Natural(*nodes)),
            ],
        ),
        Refusal::NoPiece { last, number } => members(
            out,
            &[
                ("last", FieldValue::Natural(*last)),
                ("number", FieldValue::Natural(*number)),
            ],
        ),
        _ => Ok(()),
    }
}

fn element(out: &mut Writer, id: Said, op: Option<u32>, kind: Kind) -> Result<(), AllocError>
    ensures { SendsFields result out.old out.new (element_fields id op kind) }
{
    members(
        out,
        &[
            ("id", said(id)),
            ("op", operation(op)),
            ("type", FieldValue::Text(kind_name(kind))),
        ],
    )
}

fn current(
    out: &mut Writer,
    id: Said,
    op: Option<u32>,
    kind: Kind,
    version: u64,
) -> Result<(), AllocError>
    ensures { SendsFields result out.old out.new (current_fields id op kind version) }
{
    members(
        out,
        &[
            ("id", said(id)),
            ("op", operation(op)),
            ("type", FieldValue::Text(kind_name(kind))),
            ("version", FieldValue::Natural(version)),
        ],
    )
}

fn one_version(out: &mut Writer, id: Said, kind: Kind, version: u64) -> Result<(), AllocError>
    ensures { SendsFields result out.old out.new (version_fields id kind version) }
{
    members(
        out,
        &[
            ("id", said(id)),
            ("type", FieldValue::Text(kind_name(kind))),
            ("version", FieldValue::Natural(version)),
        ],
    )
}

fn conflict(
    out: &mut Writer,
    found: u64,
    id: Said,
    op: Option<u32>,
    provided: u64,
    kind: Kind,
) -> Result<(), AllocError>
    ensures { SendsFields result out.old out.new (conflict_fields found id op provided kind) }
{
    members(
        out,
        &[
            ("found", FieldValue::Natural(found)),
            ("id", said(id)),
            ("op", operation(op)),
            ("provided", FieldValue::Natural(provided)),
            ("type", FieldValue::Text(kind_name(kind))),
        ],
    )
}

fn user(out: &mut Writer, id: Said, kind: Kind, version: u64) -> Result<(), AllocError>
    ensures { SendsFields result out.old out.new (user_fields id kind version) }
{
    members(
        out,
        &[
            ("user_id", said(id)),
            ("user_type", FieldValue::Text(kind_name(kind))),
            ("user_version", FieldValue::Natural(version)),
        ],
    )
}

fn redacted(
    out: &mut Writer,
    id: Said,
    redaction: u64,
    kind: Kind,
    version: u64,
) -> Result<(), AllocError>
    ensures { SendsFields result out.old out.new (redacted_fields id redaction kind version) }
{
    members(
        out,
        &[
            ("id", said(id)),
            ("redaction", FieldValue::Natural(redaction)),
            ("type", FieldValue::Text(kind_name(kind))),
            ("version", FieldValue::Natural(version)),
        ],
    )
}

/// What a refusal of an element or of one of its versions says.
#[tactic(auto, unfolding(crate::specs::Refused::of_element))]
fn of_element(out: &mut Writer, fault: &Refusal) -> Result<(), AllocError>
    ensures { SendsFields result out.old out.new (fields_of_element fault.now) }
{
    match fault {
        Refusal::NoElement { id, op, kind } => element(out, *id, *op, *kind),
        Refusal::NoSuchVersion { id, kind, version } => one_version(out, *id, *kind, *version),
        Refusal::WrongVersion {
            found,
            id,
            op,
            provided,
            kind,
        } => conflict(out, *found, *id, *op, *provided, *kind),
        Refusal::Gone {
            id,
            op,
            kind,
            version,
        } => current(out, *id, *op, *kind, *version),
        Refusal::Missing {
            id,
            op,
            kind,
            version,
        } => current(out, *id, *op, *kind, *version),
        Refusal::Used {
            id,
            op,
            kind,
            user_id,
            user_kind,
            user_version,
        } => {
            element(out, *id, *op, *kind)?;
            user(out, *user_id, *user_kind, *user_version)?;
            Ok(())
        }
        Refusal::Redacted {
            id,
            redaction,
            kind,
            version,
        } => redacted(out, *id, *redaction, *kind, *version),
        Refusal::RedactCurrent { id, kind, version } => one_version(out, *id, *kind, *version),
        _ => Ok(()),
    }
}

/// The object of a refusal.
pub(crate) fn refusal(out: &mut Writer, fault: &Refusal) -> Result<(), AllocError>
    requires { RefusalHasShownEnd fault.now }
    ensures { Sends result out.old out.new (tokens_of (refusal_data fault.now)) }
{
    out.begin_object()?;
    before_error(out, fault)?;
    text(out, "error", error_name(fault))?;
    of_request(out, fault)?;
    of_changeset(out, fault)?;
    of_element(out, fault)?;
    out.end_object()
}
