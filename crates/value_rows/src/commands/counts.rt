//! Changesets with their limits of changes.
use super::MOMENT;
use super::uploads::{Outcome, Upload, comes_to, uploaded, with_changeset};
use crate::nodes::NodeOp;
use changeset_core::Work;
use osm_base::{Key, Kind, Memory, Stamp};
use osm_change::Action;
use osm_model::State;
use row_lines::Tally;
use std::alloc::Global;

/// When a changeset is created, from when on it may grow large, and how many changes it may make.
const CREATIONS: [(u64, Option<u64>, u64); 7] = [
    (1_700_000_000, None, 10_000),
    (1_700_000_000, Some(1_700_000_000), 50_000),
    (1_699_999_999, Some(1_700_000_000), 10_000),
    (1_700_000_001, Some(1_700_000_000), 50_000),
    (0, Some(0), 50_000),
    (0, Some(1), 10_000),
    (
        18_446_744_073_709_551_615,
        Some(18_446_744_073_709_551_615),
        10_000,
    ),
];

/// The limit of the only changeset, which was created so.
fn is_limited(
    alloc: Global,
    moment: u64,
    large_from: Option<u64>,
    limit: u64,
) -> Result<bool, Memory> {
    let state = with_changeset(alloc, State::empty(alloc), moment, large_from)?;
    match state.changeset(1) {
        Some(kept) => Ok(kept.limit() == limit),
        None => Ok(false),
    }
}

/// An upload to a changeset that was created at the moment and made so many changes before.
struct Case {
    name: &'static str,
    large_from: Option<u64>,
    made: usize,
    upload: Upload,
    outcome: Outcome,
}

const NODE: NodeOp = (Action::Create, -1, 1, (481_400_000, 115_400_000));

/// With the other a box of an area of 1,001,000.
const FAR: NodeOp = (Action::Create, -2, 1, (481_401_000, 115_401_001));

const ONE: Upload = Upload {
    changeset: 1,
    limit: None,
    operations: &[NODE],
};

const TWO: Upload = Upload {
    changeset: 1,
    limit: Some(1_000_000),
    operations: &[NODE, FAR],
};

const EMPTY: Upload = Upload {
    changeset: 1,
    limit: None,
    operations: &[],
};

const LARGE: Option<u64> = Some(MOMENT);

const CASES: [Case; 9] = [
    Case {
        name: "the 10,000th change",
        large_from: None,
        made: 9_999,
        upload: ONE,
        outcome: Outcome::Accepted(Some(1)),
    },
    Case {
        name: "the 10,001st change",
        large_from: None,
        made: 10_000,
        upload: ONE,
        outcome: Outcome::Full {
            applied: 1,
            count: 10_000,
            limit: 10_000,
        },
    },
    Case {
        name: "the 10,001st change of a changeset that was created too early",
        large_from: Some(1_700_000_001),
        made: 10_000,
        upload: ONE,
        outcome: Outcome::Full {
            applied: 1,
            count: 10_000,
            limit: 10_000,
        },
    },
    Case {
        name: "the 10,001st change of a large changeset",
        large_from: LARGE,
        made: 10_000,
        upload: ONE,
        outcome: Outcome::Accepted(Some(1)),
    },
    Case {
        name: "the 50,000th change of a large changeset",
        large_from: LARGE,
        made: 49_999,
        upload: ONE,
        outcome: Outcome::Accepted(Some(1)),
    },
    Case {
        name: "the 50,001st change of a large changeset",
        large_from: LARGE,
        made: 50_000,
        upload: ONE,
        outcome: Outcome::Full {
            applied: 1,
            count: 50_000,
            limit: 50_000,
        },
    },
    Case {
        name: "an empty upload to a full changeset",
        large_from: None,
        made: 10_000,
        upload: EMPTY,
        outcome: Outcome::Accepted(None),
    },
    Case {
        name: "the count is tested before the box",
        large_from: None,
        made: 9_999,
        upload: TWO,
        outcome: Outcome::Full {
            applied: 2,
            count: 9_999,
            limit: 10_000,
        },
    },
    Case {
        name: "the box is tested where the count is in its limit",
        large_from: None,
        made: 9_998,
        upload: TWO,
        outcome: Outcome::BoxTooLarge {
            area: 1_001_000,
            limit: 1_000_000,
        },
    },
];

const WORK: Work = Work {
    key: Key {
        kind: Kind::Node,
        id: 1,
    },
    version: 1,
};

/// Enters so many changes in changeset 1, without a map that has them: whether it is there.
fn is_worked(alloc: Global, state: &mut State, made: usize) -> Result<bool, Memory> {
    if state.changesets.len() == 0 {
        return Ok(false);
    }
    let works = vec![in alloc; WORK; made]?;
    let kept = state.changesets.item_mut(0);
    kept.work(works.as_slice(), None, Stamp(MOMENT))?;
    Ok(true)
}

fn is_right(alloc: Global, case: &Case) -> Result<bool, Memory> {
    let mut state = with_changeset(alloc, State::empty(alloc), MOMENT, case.large_from)?;
    if !is_worked(alloc, &mut state, case.made)? {
        return Ok(false);
    }
    let (_, answer) = uploaded(alloc, state, &case.upload)?;
    Ok(comes_to(&case.upload, &case.outcome, &answer))
}

pub fn play<R: Print>(rt: &R, alloc: Global, tally: &mut Tally) {
    for (moment, large_from, limit) in &CREATIONS {
        tally.note(
            rt,
            "the limit of changes is that of the creation",
            is_limited(alloc, *moment, *large_from, *limit),
        );
    }
    for case in &CASES {
        tally.note(rt, case.name, is_right(alloc, case));
    }
}
