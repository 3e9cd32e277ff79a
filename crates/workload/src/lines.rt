//! The numbers as lines of a word and a number.
ghost use Rattle.std.specs.Prelude.{◌≡◌, IfOk, string_bytes};
ghost use Rattle.workload.specs.Summary.{first_line, count_lines, load_lines, reply_lines, summary, replay_summary};

use crate::figures::{Figures, Run};
use osm_base::{Coord, Memory, Text};
use std::alloc::Global;

#[tactic(auto, unfolding(crate::specs::Summary::first_line))]
fn position_line(alloc: Global, at: Coord) -> Result<String, Memory>
    ensures { IfOk result (λ text. string_bytes text ≡ first_line (Some at)) }
{
    let (lat7, lon7) = (at.lat7(), at.lon7());
    Ok(format!(in alloc; "first {lat7} {lon7}\n")?)
}

#[tactic(auto, unfolding(crate::specs::Summary::first_line))]
fn first_line(alloc: Global, first: Option<Coord>) -> Result<String, Memory>
    ensures { IfOk result (λ text. string_bytes text ≡ first_line first) }
{
    match first {
        Some(at) => position_line(alloc, at),
        None => Ok(String::from_str(alloc, "first none\n")?),
    }
}

#[tactic(auto, unfolding(crate::specs::Summary::count_lines))]
fn count_lines(alloc: Global, figures: &Figures) -> Result<String, Memory>
    ensures { IfOk result (λ text. string_bytes text ≡ count_lines figures.now) }
{
    let Figures {
        entries,
        nodes,
        ways,
        relations,
        ..
    } = *figures;
    Ok(format!(in alloc; "entries {entries}\nnodes {nodes}\nways {ways}\nrelations {relations}\n")?)
}

#[tactic(auto, unfolding(crate::specs::Summary::load_lines))]
fn load_lines(alloc: Global, run: &Run) -> Result<String, Memory>
    ensures { IfOk result (λ text. string_bytes text ≡ load_lines run.now) }
{
    let Run {
        seed,
        sessions,
        uploads,
        ..
    } = *run;
    Ok(format!(in alloc; "seed {seed}\nsessions {sessions}\nuploads {uploads}\n")?)
}

#[tactic(auto, unfolding(crate::specs::Summary::reply_lines))]
fn reply_lines(alloc: Global, run: &Run) -> Result<String, Memory>
    ensures { IfOk result (λ text. string_bytes text ≡ reply_lines run.now) }
{
    let Run {
        replies,
        refused,
        ..
    } = *run;
    Ok(format!(in alloc; "replies {replies}\nrefused {refused}\n")?)
}

/// The ten lines that tell of a run of a load.
#[tactic(auto, unfolding(crate::specs::Summary::summary))]
pub fn summary(alloc: Global, run: &Run, figures: &Figures) -> Result<Text, Memory>
    ensures { IfOk result (λ made. made ≡ summary run.now figures.now) }
{
    let mut text = load_lines(alloc, run)?;
    text.push_str(count_lines(alloc, figures)?.as_str())?;
    text.push_str(reply_lines(alloc, run)?.as_str())?;
    text.push_str(first_line(alloc, figures.first)?.as_str())?;
    Ok(Text::from_string(text))
}

/// The five lines that tell of a replay.
#[tactic(auto, unfolding(crate::specs::Summary::replay_summary))]
pub fn replay_summary(alloc: Global, figures: &Figures) -> Result<Text, Memory>
    ensures { IfOk result (λ made. made ≡ replay_summary figures.now) }
{
    let mut text = count_lines(alloc, figures)?;
    text.push_str(first_line(alloc, figures.first)?.as_str())?;
    Ok(Text::from_string(text))
}
