//! The body of an answer.
ghost use Rattle.std.specs.Prelude.{◌≡◌, ◌++◌, All, IfOk};
ghost use Rattle.serde_json.specs.Written.{compact_text};
ghost use Rattle.osm_change.specs.Moments.{HasShownMoments, HasShownStamp};
ghost use Rattle.osm_json.specs.Added.{IsOfFewRows};
ghost use Rattle.osm_json.specs.Rows.{diff as diff_data, elements as elements_data, download as download_data};
ghost use Rattle.osm_json.specs.Answered.{answer as answer_data, body_of};
ghost use Rattle.osm_json.specs.Sent.{Sends, tokens_of};

use crate::body::{Body, STEP};
use crate::changesets::{changeset, changesets};
use crate::diffs::diff;
use crate::elements::{download, elements};
use crate::refusals::refusal;
use crate::send::record;
use json::Writer;
use osm_base::{Box7, Bytes, Memory};
use osm_change::{Answer, DiffRow, ElementRow};
use std::alloc::{AllocError, Global};

/// What stands round the rows of an answer, or is there without rows.
const LEAST_ROOM: usize = 256;

/// What an element without tags comes to, about.
const ELEMENT_ROOM: usize = 192;

/// What a row of a diff result comes to, about.
const DIFF_ROOM: usize = 80;

/// An answer of few rows, token by token.
#[tactic(auto, unfolding(crate::specs::Answered::answer, crate::specs::Sent::tokens_of))]
fn write_answer(out: &mut Writer, answer: &Answer<'_>) -> Result<(), AllocError>
    requires moments { HasShownMoments answer.now }
    requires kind { IsOfFewRows answer.now }
    ensures { Sends result out.old out.new (tokens_of (answer_data answer.now)) }
{
    match answer {
        Answer::Number(n) => out.u64(*n),
        Answer::Nothing => record(out, &[]),
        Answer::Diff(_) | Answer::Elements { .. } | Answer::Change(_) => unreachable!(),
        Answer::Changeset(row) => changeset(out, row),
        Answer::Changesets(rows) => changesets(out, rows.items()),
        Answer::Refused(fault) => refusal(out, fault),
    }
}

/// About how many bytes an answer comes to: a body that grows beyond its room is moved.
fn room_for(answer: &Answer<'_>) -> usize {
    match answer {
        Answer::Diff(rows) => room_for_rows(rows.len(), DIFF_ROOM),
        Answer::Elements { rows, .. } => room_for_rows(rows.len(), ELEMENT_ROOM),
        Answer::Change(rows) => room_for_rows(rows.len(), ELEMENT_ROOM),
        _ => LEAST_ROOM,
    }
}

/// A body of pieces is longer than it is written by up to a step.
fn room_for_rows(count: usize, each: usize) -> usize {
    count.saturating_mul(each).saturating_add(LEAST_ROOM + STEP)
}

fn written_behind(front: Vec<u8>, answer: &Answer<'_>) -> Result<Vec<u8>, AllocError>
    requires moments { HasShownMoments answer.now }
    requires kind { IsOfFewRows answer.now }
    ensures { IfOk result (λ bytes. bytes.items ≡ front.items ++ body_of answer.now) }
{
    let mut out = Writer::new(front);
    write_answer(&mut out, answer)?;
    Ok(out.into_inner())
}

fn diff_behind(front: Vec<u8>, rows: &[DiffRow]) -> Result<Vec<u8>, AllocError>
    ensures { IfOk result (λ bytes.
        bytes.items ≡ front.items ++ compact_text (diff_data rows.now)) }
{
    let mut out = Body::new(front);
    diff(&mut out, rows)?;
    Ok(out.into_bytes())
}

fn elements_behind(
    front: Vec<u8>,
    within: &Option<Box7>,
    rows: &[ElementRow<'_>],
) -> Result<Vec<u8>, AllocError>
    requires { All HasShownStamp rows.now }
    ensures { IfOk result (λ bytes.
        bytes.items ≡ front.items ++ compact_text (elements_data within.now rows.now)) }
{
    let mut out = Body::new(front);
    elements(&mut out, within, rows)?;
    Ok(out.into_bytes())
}

fn download_behind(front: Vec<u8>, rows: &[ElementRow<'_>]) -> Result<Vec<u8>, AllocError>
    requires { All HasShownStamp rows.now }
    ensures { IfOk result (λ bytes.
        bytes.items ≡ front.items ++ compact_text (download_data rows.now)) }
{
    let mut out = Body::new(front);
    download(&mut out, rows)?;
    Ok(out.into_bytes())
}

#[tactic(auto, unfolding(crate::specs::Answered::answer))]
fn body_behind(front: Vec<u8>, answer: &Answer<'_>) -> Result<Vec<u8>, AllocError>
    requires { HasShownMoments answer.now }
    ensures { IfOk result (λ bytes. bytes.items ≡ front.items ++ body_of answer.now) }
{
    match answer {
        Answer::Diff(rows) => diff_behind(front, rows.items()),
        Answer::Elements { bounds, rows } => elements_behind(front, bounds, rows.items()),
        Answer::Change(rows) => download_behind(front, rows.items()),
        _ => written_behind(front, answer),
    }
}

/// The body of an answer, behind the bytes that are there already and aren't moved.
pub fn answer_behind(front: Vec<u8>, answer: &Answer<'_>) -> Result<Bytes, Memory>
    requires { HasShownMoments answer.now }
    ensures { IfOk result (λ bytes. bytes ≡ front.items ++ body_of answer.now) }
{
    let mut front = front;
    front.reserve(room_for(answer))?;
    Ok(Bytes::from_vec(body_behind(front, answer)?))
}

/// The body of an answer: compact JSON, the members in the byte order of their names, positions
/// and boxes in units of 1e-7 degrees (OpenStreetMap wiki, "API v0.6").
pub fn answer_body(alloc: Global, answer: &Answer<'_>) -> Result<Bytes, Memory>
    requires { HasShownMoments answer.now }
    ensures { IfOk result (λ body. body ≡ body_of answer.now) }
{
    answer_behind(Vec::new(alloc), answer)
}
