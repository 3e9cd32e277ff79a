//! The answer of each query, read off the lists.
ghost use Rattle.std.specs.Prelude.{◌≡◌, ◌≢◌, List, Result, IfOk};
ghost use Rattle.osm_change.specs.Moments.{HasShownMoments};
ghost use Rattle.osm_change.specs.declared.reads.ReadFault.{ReadFault};
ghost use Rattle.osm_change.specs.declared.reads.VersionId.{VersionId};
ghost use Rattle.osm_change.specs.declared.answers.Answer.TheVariants as answers;
ghost use Rattle.osm_model.specs.Ask.{ask, ask_at, elements_answer, one_answer, read_answer, map_answer, map_refusal, past_map_answer, changeset_answer, download_answer};
ghost use Rattle.osm_model.specs.ChangesetReads.{read_changeset, download};
ghost use Rattle.osm_model.specs.PastMap.{map_at};
ghost use Rattle.osm_model.specs.Selection.{map_of};
ghost use Rattle.osm_model.specs.Timely.{IsTimely};
ghost use Rattle.plain_reads.specs.Read.{IsRead};

use crate::changesets::{Filters, download, query_changesets, read_changeset};
use crate::elements::{history, numbered, one};
use crate::full::full;
use crate::many::many;
use crate::past::{elements_by, full_at, one_unmarked};
use crate::past_map::map_shown;
use crate::rows::element_rows;
use crate::selection::{map_of, selected};
use crate::users::{relations_of, ways_of};
use osm_base::{AREA_LIMIT, Box7, Items, MAP_NODE_LIMIT, Memory, Stamp};
use osm_change::{Answer, MapFault, ReadFault, Refusal, VersionId};
use osm_model::{Fault, Query, State, answers_have_moments};
use std::alloc::Global;

/// What the query is answered at a moment. The elements of the answer are borrowed from the map.
pub fn plain_ask<'a>(
    alloc: Global,
    state: &'a State,
    moment: u64,
    query: &Query,
) -> Result<Answer<'a>, Memory>
    ensures answer { IfOk result (λ answer. answer ≡ ask state.now moment query.now) }
    ensures shown { IsTimely state.now → IfOk result HasShownMoments }
{
    answers_have_moments();
    let at = Stamp::after(state.last, moment);
    let answer = ask_at(alloc, state, at, query)?;
    Ok(answer)
}

fn ask_at<'a>(
    alloc: Global,
    state: &'a State,
    at: Stamp,
    query: &Query,
) -> Result<Answer<'a>, Memory>
    ensures { IfOk result (λ answer. answer ≡ ask_at state.now at query.now) }
{
    let elements = &state.elements;
    match query {
        Query::Changeset { id } => ask_changeset(alloc, state, at, *id),
        Query::Changesets {
            user,
            only_open,
            only_closed,
            within,
        } => {
            let filters = Filters {
                user: *user,
                only_open: *only_open,
                only_closed: *only_closed,
                within: *within,
            };
            let rows = query_changesets(alloc, state, at, &filters)?;
            Ok(Answer::Changesets(rows))
        }
        Query::Download { id } => ask_download(alloc, state, *id),
        Query::Map { within } => ask_map(alloc, state, within),
        Query::One { key } => one_answer(alloc, state, one(elements, *key)),
        Query::Numbered { key, version, show } => {
            one_answer(alloc, state, numbered(elements, *key, *version, *show))
        }
        Query::History { key, show } => {
            read_answer(alloc, state, history(alloc, elements, *key, *show))
        }
        Query::Many { kind, ids } => {
            read_answer(alloc, state, many(alloc, elements, *kind, ids.items()))
        }
        Query::Full { key } => read_answer(alloc, state, full(alloc, elements, *key)),
        Query::OneAt { key, at } => {
            let past = elements_by(alloc, elements, *at)?;
            one_answer(alloc, state, one_unmarked(&past, *key))
        }
        Query::FullAt { key, at } => read_answer(alloc, state, full_at(alloc, state, *key, *at)),
        Query::MapAt { within, at } => ask_map_at(alloc, state, within, *at),
        Query::WaysOf { id } => {
            let shown = ways_of(alloc, elements, *id)?;
            elements_answer(alloc, state, &shown)
        }
        Query::RelationsOf { key } => {
            let shown = relations_of(alloc, elements, *key)?;
            elements_answer(alloc, state, &shown)
        }
    }
}

// ---- elements

fn elements_answer<'a>(
    alloc: Global,
    state: &'a State,
    shown: &Items<VersionId>,
) -> Result<Answer<'a>, Memory>
    ensures { IfOk result (λ answer. answer ≡ elements_answer state.now shown.now) }
{
    let rows = element_rows(alloc, state, shown.items())?;
    Ok(Answer::Elements { bounds: None, rows })
}

fn one_answer<'a>(
    alloc: Global,
    state: &'a State,
    read: Result<VersionId, ReadFault>,
) -> Result<Answer<'a>, Memory>
    ensures { IfOk result (λ answer. answer ≡ one_answer state.now read) }
{
    match read {
        Ok(shown) => {
            let rows = element_rows(alloc, state, &[shown])?;
            Ok(Answer::Elements { bounds: None, rows })
        }
        Err(fault) => fault.answer(),
    }
}

fn read_answer<'a>(
    alloc: Global,
    state: &'a State,
    read: Result<Items<VersionId>, ReadFault>,
) -> Result<Answer<'a>, Memory>
    ensures { (expected : Result (List VersionId) ReadFault) → IsRead expected read → IfOk result
        (λ answer. answer ≡ read_answer state.now expected) }
{
    match read {
        Ok(shown) => elements_answer(alloc, state, &shown),
        Err(fault) => fault.answer(),
    }
}

// ---- the map

/// The elements of a box, with the box as their bounds.
fn ask_map<'a>(alloc: Global, state: &'a State, within: &Box7) -> Result<Answer<'a>, Memory>
    ensures { IfOk result (λ answer. answer ≡ map_answer state.now within.now (map_of state.now.elements within.now)) }
{
    match map_of(alloc, &state.elements, within) {
        Ok(selection) => {
            let shown = selected(alloc, &state.elements, &selection)?;
            let rows = element_rows(alloc, state, shown.items())?;
            Ok(Answer::Elements {
                bounds: Some(*within),
                rows,
            })
        }
        Err(fault) => no_map(fault),
    }
}

/// The same of the elements as they were at a stamp.
fn ask_map_at<'a>(
    alloc: Global,
    state: &'a State,
    within: &Box7,
    at: u64,
) -> Result<Answer<'a>, Memory>
    ensures { IfOk result (λ answer. answer ≡ past_map_answer state.now within.now (map_at state.now within.now at)) }
{
    let past = elements_by(alloc, &state.elements, at)?;
    match map_shown(alloc, &past, within) {
        Ok(shown) => {
            let rows = element_rows(alloc, state, shown.items())?;
            Ok(Answer::Elements {
                bounds: Some(*within),
                rows,
            })
        }
        Err(fault) => no_map(fault),
    }
}

/// Why there is no map, unless memory ran out.
fn no_map<'a>(fault: MapFault) -> Result<Answer<'a>, Memory>
    ensures { IfOk result (λ answer. (answer ≡ answers.Refused (map_refusal fault)) × (fault ≢ MapFault.Memory)) }
{
    match fault {
        MapFault::TooLarge { area } => Ok(Answer::Refused(Refusal::MapArea {
            area,
            limit: AREA_LIMIT,
        })),
        MapFault::TooMany { nodes } => Ok(Answer::Refused(Refusal::MapNodes {
            limit: MAP_NODE_LIMIT,
            nodes,
        })),
        MapFault::Memory => Err(Memory),
    }
}

// ---- changesets

fn ask_changeset<'a>(
    alloc: Global,
    state: &'a State,
    at: Stamp,
    id: u64,
) -> Result<Answer<'a>, Memory>
    ensures { IfOk result (λ answer. answer ≡ changeset_answer (read_changeset state.now at id)) }
{
    match read_changeset(alloc, state, at, id) {
        Ok(row) => Ok(Answer::Changeset(row)),
        Err(Fault::Refused(refusal)) => Ok(Answer::Refused(refusal)),
        Err(Fault::Memory) => Err(Memory),
    }
}

fn ask_download<'a>(alloc: Global, state: &'a State, id: u64) -> Result<Answer<'a>, Memory>
    ensures { IfOk result (λ answer. answer ≡ download_answer state.now (download state.now id)) }
{
    match download(alloc, state, id) {
        Ok(shown) => Ok(Answer::Change(element_rows(alloc, state, shown.items())?)),
        Err(Fault::Refused(refusal)) => Ok(Answer::Refused(refusal)),
        Err(Fault::Memory) => Err(Memory),
    }
}
