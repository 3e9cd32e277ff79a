//! The status of an answer.
ghost use Rattle.std.specs.Prelude.{◌≡◌};
ghost use Rattle.osm_json.specs.Refused.{refusal_status as status_of_refusal};
ghost use Rattle.osm_json.specs.Answered.{status_of};
ghost use Rattle.osm_base.specs.Status.{IsStatus};

use osm_change::{Answer, Refusal};

#[tactic(auto, unfolding(crate::specs::Refused::refusal_status))]
fn refusal_status(fault: &Refusal) -> u16
    ensures value { result ≡ status_of_refusal fault.now }
    ensures listed { IsStatus result }
{
    match fault {
        Refusal::BadHead
        | Refusal::BadLength
        | Refusal::BadNumber
        | Refusal::BadParameter { .. }
        | Refusal::NotJson
        | Refusal::Shape { .. }
        | Refusal::NotNegative { .. }
        | Refusal::DoublePlaceholder { .. }
        | Refusal::UnknownPlaceholder { .. }
        | Refusal::NoVersion { .. }
        | Refusal::Local { .. }
        | Refusal::RedactCurrent { .. }
        | Refusal::MapArea { .. }
        | Refusal::MapNodes { .. } => 400,
        Refusal::NoUser => 401,
        Refusal::Role | Refusal::Redacted { .. } => 403,
        Refusal::NoPath
        | Refusal::NoChangeset { .. }
        | Refusal::NoElement { .. }
        | Refusal::NoSuchVersion { .. }
        | Refusal::NoRedaction { .. }
        | Refusal::NoPiece { .. } => 404,
        Refusal::WrongMethod => 405,
        Refusal::OtherChangeset { .. }
        | Refusal::NotOwner { .. }
        | Refusal::Closed { .. }
        | Refusal::Full { .. }
        | Refusal::WrongVersion { .. } => 409,
        Refusal::Gone { .. } => 410,
        Refusal::Missing { .. } | Refusal::Used { .. } => 412,
        Refusal::BodyLong | Refusal::BoxTooLarge { .. } => 413,
        Refusal::Xml => 415,
        Refusal::HeadLong => 431,
        Refusal::Coded => 501,
    }
}

/// The status of an answer (RFC 9110, section 15; OpenStreetMap wiki, "API v0.6"). It takes no
/// memory.
pub fn answer_status(answer: &Answer<'_>) -> u16
    ensures value { result ≡ status_of answer.now }
    ensures listed { IsStatus result }
{
    match answer {
        Answer::Refused(fault) => refusal_status(fault),
        Answer::Number(_)
        | Answer::Nothing
        | Answer::Diff(_)
        | Answer::Elements { .. }
        | Answer::Change(_)
        | Answer::Changeset(_)
        | Answer::Changesets(_) => 200,
    }
}
