//! The status and the body of each refusal.
ghost use Rattle.osm_change.specs.Moments.{RefusalHasShownEnd};

use super::tells;
use osm_base::{Kind, Memory, Stamp, Text};
use osm_change::{Answer, Refusal, Said};
use osm_element::LocalFault;
use row_lines::Tally;
use std::alloc::Global;

fn shows(alloc: Global, fault: Refusal, status: u16, text: &str) -> Result<bool, Memory>
    requires { RefusalHasShownEnd fault }
{
    tells(alloc, Answer::Refused(fault), status, text)
}

fn row<R: Print>(rt: &R, alloc: Global, tally: &mut Tally, fault: Refusal, status: u16, text: &str)
    requires { RefusalHasShownEnd fault }
{
    tally.note(rt, text, shows(alloc, fault, status, text));
}

fn of_the_wire<R: Print>(rt: &R, alloc: Global, tally: &mut Tally) {
    row(
        rt,
        alloc,
        tally,
        Refusal::BadHead,
        400,
        r#"{"error":"bad_head"}"#,
    );
    row(
        rt,
        alloc,
        tally,
        Refusal::HeadLong,
        431,
        r#"{"error":"head_long"}"#,
    );
    row(
        rt,
        alloc,
        tally,
        Refusal::Coded,
        501,
        r#"{"error":"coded"}"#,
    );
    row(
        rt,
        alloc,
        tally,
        Refusal::BadLength,
        400,
        r#"{"error":"bad_length"}"#,
    );
    row(
        rt,
        alloc,
        tally,
        Refusal::BodyLong,
        413,
        r#"{"error":"body_long"}"#,
    );
    row(rt, alloc, tally, Refusal::Xml, 415, r#"{"error":"xml"}"#);
}

fn of_the_target<R: Print>(rt: &R, alloc: Global, tally: &mut Tally) {
    row(
        rt,
        alloc,
        tally,
        Refusal::NoPath,
        404,
        r#"{"error":"no_path"}"#,
    );
    row(
        rt,
        alloc,
        tally,
        Refusal::WrongMethod,
        405,
        r#"{"error":"wrong_method"}"#,
    );
    row(
        rt,
        alloc,
        tally,
        Refusal::NoUser,
        401,
        r#"{"error":"no_user"}"#,
    );
    row(
        rt,
        alloc,
        tally,
        Refusal::BadNumber,
        400,
        r#"{"error":"bad_number"}"#,
    );
    row(rt, alloc, tally, Refusal::Role, 403, r#"{"error":"role"}"#);
    row(
        rt,
        alloc,
        tally,
        Refusal::NotJson,
        400,
        r#"{"error":"not_json"}"#,
    );
}

fn of_the_body<R: Print>(rt: &R, alloc: Global, tally: &mut Tally) {
    let op = Some(1);
    row(
        rt,
        alloc,
        tally,
        Refusal::Shape { op: Some(0) },
        400,
        r#"{"error":"shape","op":0}"#,
    );
    row(
        rt,
        alloc,
        tally,
        Refusal::NotNegative { op },
        400,
        r#"{"error":"not_negative","op":1}"#,
    );
    row(
        rt,
        alloc,
        tally,
        Refusal::DoublePlaceholder { op },
        400,
        r#"{"error":"double_placeholder","op":1}"#,
    );
    row(
        rt,
        alloc,
        tally,
        Refusal::UnknownPlaceholder { op },
        400,
        r#"{"error":"unknown_placeholder","op":1}"#,
    );
    row(
        rt,
        alloc,
        tally,
        Refusal::NoVersion { op },
        400,
        r#"{"error":"no_version","op":1}"#,
    );
    row(
        rt,
        alloc,
        tally,
        Refusal::OtherChangeset { named: 2, op },
        409,
        r#"{"error":"other_changeset","named":2,"op":1}"#,
    );
}

const OF_THE_PARTS: [(LocalFault, &str); 7] = [
    (LocalFault::TagKey, r#"{"error":"tag_key","op":1}"#),
    (LocalFault::TagValue, r#"{"error":"tag_value","op":1}"#),
    (LocalFault::WayEmpty, r#"{"error":"way_empty","op":1}"#),
    (LocalFault::WayLong, r#"{"error":"way_long","op":1}"#),
    (
        LocalFault::RelationLong,
        r#"{"error":"relation_long","op":1}"#,
    ),
    (LocalFault::Role, r#"{"error":"role_long","op":1}"#),
    (LocalFault::Position, r#"{"error":"position","op":1}"#),
];

fn of_the_parts<R: Print>(rt: &R, alloc: Global, tally: &mut Tally) {
    for (fault, text) in &OF_THE_PARTS {
        row(
            rt,
            alloc,
            tally,
            Refusal::Local {
                fault: *fault,
                op: Some(1),
            },
            400,
            text,
        );
    }
}

fn of_changesets<R: Print>(rt: &R, alloc: Global, tally: &mut Tally) {
    row(
        rt,
        alloc,
        tally,
        Refusal::NoChangeset { id: 5 },
        404,
        r#"{"error":"no_changeset","id":5}"#,
    );
    row(
        rt,
        alloc,
        tally,
        Refusal::NotOwner {
            changeset: 1,
            owner: 1,
        },
        409,
        r#"{"changeset":1,"error":"owner","owner":1}"#,
    );
    let full = Refusal::Full {
        applied: 1,
        changeset: 1,
        count: 10_000,
        limit: 10_000,
    };
    row(
        rt,
        alloc,
        tally,
        full,
        409,
        r#"{"applied":1,"changeset":1,"count":10000,"error":"full","limit":10000}"#,
    );
}

fn of_changeset_limits<R: Print>(rt: &R, alloc: Global, tally: &mut Tally) {
    let large = Refusal::BoxTooLarge {
        area: 1_001_000,
        changeset: 1,
        limit: 1_000_000,
    };
    row(
        rt,
        alloc,
        tally,
        large,
        413,
        r#"{"area":1001000,"changeset":1,"error":"box_too_large","limit":1000000}"#,
    );
    let closed = Refusal::Closed {
        changeset: 1,
        closed_at: Stamp(1_700_003_600),
    };
    row(
        rt,
        alloc,
        tally,
        closed,
        409,
        r#"{"changeset":1,"closed_at":"2023-11-14T23:13:20Z","error":"closed"}"#,
    );
}

fn of_maps<R: Print>(rt: &R, alloc: Global, tally: &mut Tally) {
    let area = Refusal::MapArea {
        area: 25_000_005_000_000,
        limit: 25_000_000_000_000,
    };
    row(
        rt,
        alloc,
        tally,
        area,
        400,
        r#"{"area":25000005000000,"error":"map_area","limit":25000000000000}"#,
    );
    row(
        rt,
        alloc,
        tally,
        Refusal::MapNodes {
            limit: 50_000,
            nodes: 50_001,
        },
        400,
        r#"{"error":"map_nodes","limit":50000,"nodes":50001}"#,
    );
    row(
        rt,
        alloc,
        tally,
        Refusal::NoPiece { last: 2, number: 3 },
        404,
        r#"{"error":"no_piece","last":2,"number":3}"#,
    );
}

fn of_redactions<R: Print>(rt: &R, alloc: Global, tally: &mut Tally) {
    row(
        rt,
        alloc,
        tally,
        Refusal::NoRedaction { id: 2 },
        404,
        r#"{"error":"no_redaction","id":2}"#,
    );
    let current = Refusal::RedactCurrent {
        id: Said::Id(1),
        kind: Kind::Node,
        version: 2,
    };
    row(
        rt,
        alloc,
        tally,
        current,
        400,
        r#"{"error":"redact_current","id":1,"type":"node","version":2}"#,
    );
    let redacted = Refusal::Redacted {
        id: Said::Id(1),
        redaction: 1,
        kind: Kind::Node,
        version: 1,
    };
    row(
        rt,
        alloc,
        tally,
        redacted,
        403,
        r#"{"error":"redacted","id":1,"redaction":1,"type":"node","version":1}"#,
    );
}

fn of_elements<R: Print>(rt: &R, alloc: Global, tally: &mut Tally) {
    let id = Said::Id(1);
    let kind = Kind::Node;
    let none = Refusal::NoElement {
        id: Said::Placeholder(-7),
        op: Some(2),
        kind,
    };
    row(
        rt,
        alloc,
        tally,
        none,
        404,
        r#"{"error":"no_element","id":-7,"op":2,"type":"node"}"#,
    );
    let version = Refusal::NoSuchVersion {
        id,
        kind,
        version: 3,
    };
    row(
        rt,
        alloc,
        tally,
        version,
        404,
        r#"{"error":"no_such_version","id":1,"type":"node","version":3}"#,
    );
    let gone = Refusal::Gone {
        id,
        op: None,
        kind,
        version: 2,
    };
    row(
        rt,
        alloc,
        tally,
        gone,
        410,
        r#"{"error":"gone","id":1,"type":"node","version":2}"#,
    );
}

fn of_conflicts<R: Print>(rt: &R, alloc: Global, tally: &mut Tally) {
    let id = Said::Id(1);
    let kind = Kind::Node;
    let op = Some(1);
    let wrong = Refusal::WrongVersion {
        found: 2,
        id,
        op,
        provided: 1,
        kind,
    };
    row(
        rt,
        alloc,
        tally,
        wrong,
        409,
        r#"{"error":"version","found":2,"id":1,"op":1,"provided":1,"type":"node"}"#,
    );
    let missing = Refusal::Missing {
        id: Said::Id(9),
        op,
        kind,
        version: 0,
    };
    row(
        rt,
        alloc,
        tally,
        missing,
        412,
        r#"{"error":"missing","id":9,"op":1,"type":"node","version":0}"#,
    );
    let used = Refusal::Used {
        id,
        op,
        kind,
        user_id: id,
        user_kind: Kind::Way,
        user_version: 1,
    };
    row(
        rt,
        alloc,
        tally,
        used,
        412,
        r#"{"error":"used","id":1,"op":1,"type":"node","user_id":1,"user_type":"way","user_version":1}"#,
    );
}

const BAD_BOX: &str = r#"{"error":"bad_parameter","name":"bbox"}"#;

const ESCAPED: &str =
    "{\"error\":\"bad_parameter\",\"name\":\"\\\"\\\\\\b\\f\\n\\r\\t\\u0001\\u001f\u{7f}/\u{e9}\"}";

/// Names of parameters, and what is told of each.
const OF_PARAMETERS: [(&str, &str); 2] = [
    ("bbox", BAD_BOX),
    ("\"\\\u{8}\u{c}\n\r\t\u{1}\u{1f}\u{7f}/\u{e9}", ESCAPED),
];

fn of_a_parameter(alloc: Global, name: &str, text: &str) -> Result<bool, Memory> {
    let name = Text::of(alloc, name)?;
    shows(alloc, Refusal::BadParameter { name }, 400, text)
}

pub fn play<R: Print>(rt: &R, alloc: Global, tally: &mut Tally) {
    of_the_wire(rt, alloc, tally);
    of_the_target(rt, alloc, tally);
    of_the_body(rt, alloc, tally);
    of_the_parts(rt, alloc, tally);
    of_changesets(rt, alloc, tally);
    of_changeset_limits(rt, alloc, tally);
    of_maps(rt, alloc, tally);
    of_redactions(rt, alloc, tally);
    of_elements(rt, alloc, tally);
    of_conflicts(rt, alloc, tally);
    for (name, text) in &OF_PARAMETERS {
        tally.note(rt, text, of_a_parameter(alloc, name, text));
    }
}
