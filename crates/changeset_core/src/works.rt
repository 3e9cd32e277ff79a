//! The versions that a changeset made, in few bytes: who makes elements gets ids that follow each
//! other, and those of one kind and version are kept as one run.
ghost use Rattle.std.specs.Prelude.{◌≡◌, ◌+◌, ◌-◌, ◌<◌, ◌≤◌, ◌^◌, ◌∷◌, [], ◌++◌, length, is_ok, if◌then◌else◌, IfOk, IfSome, OnOk, vec_len, vec_capacity};
ghost use Rattle.changeset_core.specs.Works.{works_of};

use crate::records::Work;
use osm_base::{Key, Kind, Memory};
use std::alloc::Global;
use std::marker::Model;

/// The most versions that there can be. Runs of so many take no memory to speak of.
const LIMIT: usize = 0x7fff_ffff_ffff_ffff;

/// Free room for twice so many runs is left alone.
const FEW: usize = 4;

/// Versions of one number, of elements of one kind whose ids follow each other.
#[derive(Drop)]
struct Run {
    kind: Kind,
    count: u32,
    id: u64,
    version: u64,
}

impl Model for Run {
    ghost use Rattle.std.specs.Prelude.{◌+◌, ◌≤◌, ◌^◌, List};
    ghost use Rattle.changeset_core.specs.Works.{run_of};
    ghost use Rattle.changeset_core.specs.declared.records.Work.{Work};

    ghost Value = { List Work };

    ghost view = { λ r. run_of r.kind r.version r.id r.count };

    ghost invariant = { λ r. r.id + r.count ≤ 2 ^ 64 };
}

impl Run {
    /// The run of one version.
    fn of(work: Work) -> Run
        ensures { result ≡ work ∷ [] }
    {
        Run {
            kind: work.key.kind,
            count: 1,
            id: work.key.id,
            version: work.version,
        }
    }

    /// The run and one version more, where that continues it.
    #[tactic(auto, using(crate::proofs::Runs::run_grows))]
    fn with(&self, work: Work) -> Option<Run>
        ensures { IfSome result (λ run. run ≡ self.now ++ work ∷ []) }
    {
        if work.key.id < self.id || work.key.id - self.id != u64::from(self.count) {
            return None;
        }
        if !work.key.kind.is(self.kind) || work.version != self.version {
            return None;
        }
        let count = self.count.checked_add(1)?;
        Some(Run {
            kind: self.kind,
            count,
            id: self.id,
            version: self.version,
        })
    }

    /// Adds its versions to a list.
    #[tactic(auto, using(crate::proofs::Runs::run_steps))]
    fn add_to(&self, made: &mut Vec<Work>) -> Result<(), Memory>
        ensures { OnOk result (made.new.items ≡ made.old.items ++ self.now) }
    {
        for step in 0..self.count {
            made.push(Work {
                key: Key {
                    kind: self.kind,
                    id: self.id + u64::from(step),
                },
                version: self.version,
            })?;
        }
        Ok(())
    }
}

/// Versions in their order, with promised room for more.
#[derive(Drop)]
pub struct Works {
    runs: Vec<Run>,
    len: u64,
    free: usize,
}

impl Model for Works {
    ghost use Rattle.std.specs.Prelude.{◌≡◌, ◌+◌, ◌≤◌, ◌<◌, ◌^◌, length, vec_len, vec_capacity};
    ghost use Rattle.changeset_core.specs.Works.{works_of};
    ghost use Rattle.osm_base.specs.Row.{Row};
    ghost use Rattle.changeset_core.specs.declared.records.Work.{Work};

    ghost Value = { Row Work };

    ghost view = { λ w. record { items = works_of w.runs.items; free = w.free } };

    ghost invariant = { λ w. (vec_len w.runs + w.free ≤ vec_capacity w.runs) × (w.len ≡ length (works_of w.runs.items))
        × (w.len + w.free < 2 ^ 63) };
}

impl Works {
    /// No versions, and no room promised. It takes no memory.
    pub fn none(alloc: Global) -> Works
        ensures { result ≡ record { items = []; free = 0 } }
    {
        Works {
            runs: Vec::new(alloc),
            len: 0,
            free: 0,
        }
    }

    /// How many versions.
    pub fn len(&self) -> u64
        ensures counted { result ≡ length self.now.items }
        ensures few { result < 2 ^ 63 }
    {
        self.len
    }

    /// All of them, in their order.
    pub fn to_vec(&self, alloc: Global) -> Result<Vec<Work>, Memory>
        ensures { IfOk result (λ made. made.items ≡ self.now.items) }
    {
        let mut made = Vec::with_capacity(alloc, self.len as usize)?;
        for run in &self.runs {
            run.add_to(&mut made)?;
        }
        Ok(made)
    }

    /// Promises room for some more versions. Where it takes memory it takes it for as many again as
    /// there are.
    pub fn promise(&mut self, more: usize) -> Result<(), Memory>
        ensures { self.new ≡ record self.old { free = self.old.free + (if is_ok result then more else 0) } }
    {
        let Some(free) = self.free.checked_add(more) else {
            return Err(Memory);
        };
        if free > LIMIT || self.len > (LIMIT - free) as u64 {
            return Err(Memory);
        }
        self.runs.reserve(free)?;
        self.free = free;
        Ok(())
    }

    /// Takes every promise back, and with them the room that was taken for them where more than half of
    /// it is free. An upload is promised a run for each version, and one run often tells of them all.
    pub fn forget(&mut self)
        ensures { self.new ≡ record self.old { free = 0 } }
    {
        self.free = 0;
        if self.runs.capacity() / 2 > self.runs.len() + FEW {
            self.runs.shrink_to_fit();
        }
    }

    /// Adds a version at the end, on promised room.
    pub fn push(&mut self, work: Work)
        requires { 0 < self.old.free }
        ensures { self.new ≡ record { items = self.old.items ++ work ∷ []; free = self.old.free - 1 } }
    {
        add(&mut self.runs, work);
        self.len += 1;
        self.free -= 1;
    }
}

/// Adds a version to the last run, where it continues that, or else as a run of its own.
#[tactic(auto, using(crate::proofs::Runs::works_append))]
fn add(runs: &mut Vec<Run>, work: Work)
    requires room { vec_len runs.old + 1 ≤ vec_capacity runs.old }
    ensures works { works_of runs.new.items ≡ works_of runs.old.items ++ work ∷ [] }
    ensures more { vec_len runs.new ≤ vec_len runs.old + 1 }
    ensures room { vec_capacity runs.new ≡ vec_capacity runs.old }
{
    let Some(last) = runs.pop() else {
        runs.push_reserved(Run::of(work));
        return;
    };
    match last.with(work) {
        Some(longer) => runs.push_reserved(longer),
        None => {
            runs.push_reserved(last);
            runs.push_reserved(Run::of(work));
        }
    }
}
