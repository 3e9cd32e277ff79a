//! The answer of each query, read off the map with its indexes.
ghost use Rattle.std.specs.Prelude.{◌≡◌, ◌≢◌, List, Ok, Result, IfOk};
ghost use Rattle.osm_change.specs.Moments.{HasShownMoments};
ghost use Rattle.osm_change.specs.declared.answers.Answer.TheVariants as answers;
ghost use Rattle.osm_change.specs.declared.reads.MapFault.{MapFault};
ghost use Rattle.osm_change.specs.declared.reads.ReadFault.{ReadFault};
ghost use Rattle.osm_change.specs.declared.reads.VersionId.{VersionId};
ghost use Rattle.osm_model.specs.Ask.{ask, ask_at, elements_answer, one_answer, read_answer, map_refusal, map_answer, past_map_answer, changeset_answer, download_answer};
ghost use Rattle.osm_model.specs.ChangesetReads.{read_changeset, download};
ghost use Rattle.osm_model.specs.PastMap.{map_at};
ghost use Rattle.osm_model.specs.Selection.{map_of};
ghost use Rattle.osm_world.specs.World.{state_of};
ghost use Rattle.read_calls.specs.Read.{IsRead};

use crate::world_rows::{element_rows, selected_rows};
use attic_reads::{full_at, map_at, one_at};
use changeset_calls::{ChangesetFault, download, query, read};
use map_call::map;
use osm_base::{AREA_LIMIT, Box7, Items, MAP_NODE_LIMIT, Memory, Stamp, Steps};
use osm_change::{Answer, MapFault, ReadFault, Refusal, Selection, VersionId};
use osm_model::{Query, answers_have_moments};
use osm_world::World;
use read_calls::{full, history, many, one, relations_of, version, ways_of};
use std::alloc::Global;
use std::sync::ledger::Ledger;

/// What the query is answered at a moment. The elements of the answer are borrowed from the world.
pub fn world_ask<'a, L: Ledger>(
    alloc: Global,
    world: &'a World,
    moment: u64,
    query: &Query,
    steps: &mut Steps<L>,
) -> Result<Answer<'a>, Memory>
    ensures answer { IfOk result (λ answer. answer ≡ ask (state_of world.now) moment query.now) }
    ensures shown { IfOk result HasShownMoments }
{
    world.laws();
    answers_have_moments();
    let at = Stamp::after(world.last_stamp(), moment);
    let answer = ask_at(alloc, world, at, query, steps)?;
    Ok(answer)
}

fn ask_at<'a, L: Ledger>(
    alloc: Global,
    world: &'a World,
    at: Stamp,
    asked: &Query,
    steps: &mut Steps<L>,
) -> Result<Answer<'a>, Memory>
    ensures { IfOk result (λ answer. answer ≡ ask_at (state_of world.now) at asked.now) }
{
    match asked {
        Query::Changeset { id } => ask_changeset(alloc, world, at, *id),
        Query::Changesets {
            user,
            only_open,
            only_closed,
            within,
        } => {
            let rows = query(alloc, world, *user, *only_open, *only_closed, *within, at)?;
            Ok(Answer::Changesets(rows))
        }
        Query::Download { id } => ask_download(alloc, world, *id),
        Query::Map { within } => ask_map(alloc, world, within, steps),
        Query::One { key } => one_answer(alloc, world, one(world, *key)),
        Query::Numbered {
            key,
            version: number,
            show,
        } => one_answer(alloc, world, version(world, *key, *number, *show)),
        Query::History { key, show } => {
            read_answer(alloc, world, history(alloc, world, *key, *show))
        }
        Query::Many { kind, ids } => {
            read_answer(alloc, world, many(alloc, world, *kind, ids.items()))
        }
        Query::Full { key } => read_answer(alloc, world, full(alloc, world, *key)),
        Query::OneAt { key, at: then } => one_answer(alloc, world, one_at(world, *key, *then)),
        Query::FullAt { key, at: then } => {
            read_answer(alloc, world, full_at(alloc, world, *key, *then))
        }
        Query::MapAt { within, at: then } => ask_map_at(alloc, world, within, *then),
        Query::WaysOf { id } => users_answer(alloc, world, ways_of(alloc, world, *id)),
        Query::RelationsOf { key } => {
            users_answer(alloc, world, relations_of(alloc, world, *key))
        }
    }
}

// ---- elements

fn elements_answer<'a>(
    alloc: Global,
    world: &'a World,
    shown: &Items<VersionId>,
) -> Result<Answer<'a>, Memory>
    ensures { IfOk result (λ answer. answer ≡ elements_answer (state_of world.now) shown.now) }
{
    let rows = element_rows(alloc, world, shown.items())?;
    Ok(Answer::Elements { bounds: None, rows })
}

fn one_answer<'a>(
    alloc: Global,
    world: &'a World,
    read: Result<VersionId, ReadFault>,
) -> Result<Answer<'a>, Memory>
    ensures { IfOk result (λ answer. answer ≡ one_answer (state_of world.now) read) }
{
    match read {
        Ok(shown) => {
            let rows = element_rows(alloc, world, &[shown])?;
            Ok(Answer::Elements { bounds: None, rows })
        }
        Err(fault) => fault.answer(),
    }
}

fn read_answer<'a>(
    alloc: Global,
    world: &'a World,
    read: Result<Items<VersionId>, ReadFault>,
) -> Result<Answer<'a>, Memory>
    ensures { (expected : Result (List VersionId) ReadFault) → IsRead expected read → IfOk result
        (λ answer. answer ≡ read_answer (state_of world.now) expected) }
{
    match read {
        Ok(shown) => elements_answer(alloc, world, &shown),
        Err(fault) => fault.answer(),
    }
}

/// The users of an element, unless memory ran out.
fn users_answer<'a>(
    alloc: Global,
    world: &'a World,
    users: Result<Items<VersionId>, Memory>,
) -> Result<Answer<'a>, Memory>
    ensures { (expected : List VersionId) → IfOk users (λ shown. shown ≡ expected) → IfOk result
        (λ answer. answer ≡ elements_answer (state_of world.now) expected) }
{
    match users {
        Ok(shown) => elements_answer(alloc, world, &shown),
        Err(Memory) => Err(Memory),
    }
}

// ---- the map

/// The elements of a box, with the box as their bounds.
fn ask_map<'a, L: Ledger>(
    alloc: Global,
    world: &'a World,
    within: &Box7,
    steps: &mut Steps<L>,
) -> Result<Answer<'a>, Memory>
    ensures { IfOk result (λ answer. answer ≡ map_answer (state_of world.now) within.now (map_of (state_of world.now).elements within.now)) }
{
    match map(alloc, world, *within, steps) {
        Ok(selection) => selected_answer(alloc, world, within, &selection),
        Err(fault) => refused_map(fault),
    }
}

fn selected_answer<'a>(
    alloc: Global,
    world: &'a World,
    within: &Box7,
    selection: &Selection,
) -> Result<Answer<'a>, Memory>
    ensures { IfOk result (λ answer. answer ≡ map_answer (state_of world.now) within.now (Ok selection.now)) }
{
    let rows = selected_rows(alloc, world, selection)?;
    Ok(Answer::Elements {
        bounds: Some(*within),
        rows,
    })
}

/// The elements of a box as they were at a stamp, with the box as their bounds.
fn ask_map_at<'a>(
    alloc: Global,
    world: &'a World,
    within: &Box7,
    then: u64,
) -> Result<Answer<'a>, Memory>
    ensures { IfOk result (λ answer. answer ≡ past_map_answer (state_of world.now) within.now (map_at (state_of world.now) within.now then)) }
{
    match map_at(alloc, world, *within, then) {
        Ok(shown) => {
            let rows = element_rows(alloc, world, shown.items())?;
            Ok(Answer::Elements {
                bounds: Some(*within),
                rows,
            })
        }
        Err(fault) => refused_map(fault),
    }
}

/// The refusal of a box, unless memory ran out.
fn refused_map<'a>(fault: MapFault) -> Result<Answer<'a>, Memory>
    ensures { IfOk result (λ answer. (answer ≡ answers.Refused (map_refusal fault)) × (fault ≢ MapFault.Memory)) }
{
    match fault {
        MapFault::TooLarge { area } => Ok(Answer::Refused(Refusal::MapArea {
            area,
            limit: AREA_LIMIT,
        })),
        MapFault::TooMany { nodes } => Ok(Answer::Refused(Refusal::MapNodes {
            limit: MAP_NODE_LIMIT,
            nodes,
        })),
        MapFault::Memory => Err(Memory),
    }
}

// ---- changesets

fn ask_changeset<'a>(
    alloc: Global,
    world: &'a World,
    at: Stamp,
    id: u64,
) -> Result<Answer<'a>, Memory>
    ensures { IfOk result (λ answer. answer ≡ changeset_answer (read_changeset (state_of world.now) at id)) }
{
    match read(alloc, world, id, at) {
        Ok(row) => Ok(Answer::Changeset(row)),
        Err(ChangesetFault::NoChangeset { id }) => {
            Ok(Answer::Refused(Refusal::NoChangeset { id }))
        }
        Err(ChangesetFault::Memory) => Err(Memory),
    }
}

fn ask_download<'a>(alloc: Global, world: &'a World, id: u64) -> Result<Answer<'a>, Memory>
    ensures { IfOk result (λ answer. answer ≡ download_answer (state_of world.now) (download (state_of world.now) id)) }
{
    match download(alloc, world, id) {
        Ok(shown) => Ok(Answer::Change(element_rows(alloc, world, shown.items())?)),
        Err(ChangesetFault::NoChangeset { id }) => {
            Ok(Answer::Refused(Refusal::NoChangeset { id }))
        }
        Err(ChangesetFault::Memory) => Err(Memory),
    }
}
