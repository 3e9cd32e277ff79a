//! Uploads to the changesets of a user with a limit on their boxes.
use super::MOMENT;
use super::uploads::{Outcome, Upload, comes_to, uploaded, with_changeset};
use osm_base::Memory;
use osm_change::Action;
use osm_model::State;
use row_lines::Tally;
use std::alloc::Global;

/// An upload, what it must come to, and the area of its changeset's box after it, where there is a box.
struct Step {
    upload: Upload,
    outcome: Outcome,
    area: Option<u64>,
}

/// Uploads in order, to a map with two empty changesets.
struct Case {
    name: &'static str,
    steps: &'static [Step],
}

/// The limit of most uploads.
const LIMIT: Option<u64> = Some(1_000_000);

/// Latitudes and longitudes. A box from this corner to the near one has an area of 1,000,000, one to the
/// far one 1,001,000, and the middle is in both.
const CORNER: (i32, i32) = (481_400_000, 115_400_000);

const MIDDLE: (i32, i32) = (481_400_500, 115_400_500);

const NEAR: (i32, i32) = (481_401_000, 115_401_000);

const FAR: (i32, i32) = (481_401_000, 115_401_001);

/// North of the corner, and east of it.
const NORTH: (i32, i32) = (481_400_001, 115_400_000);

const EAST: (i32, i32) = (481_400_000, 115_400_001);

const SOUTHWEST: (i32, i32) = (-900_000_000, -1_800_000_000);

const NORTHEAST: (i32, i32) = (900_000_000, 1_800_000_000);

const NOWHERE: (i32, i32) = (0, 0);

const DELETE: Action = Action::Delete { if_unused: false };

const PAST: Outcome = Outcome::BoxTooLarge {
    area: 1_001_000,
    limit: 1_000_000,
};

const CASES: [Case; 9] = [
    Case {
        name: "a box at its limit",
        steps: &[Step {
            upload: Upload {
                changeset: 1,
                limit: LIMIT,
                operations: &[
                    (Action::Create, -1, 1, CORNER),
                    (Action::Create, -2, 1, NEAR),
                ],
            },
            outcome: Outcome::Accepted(Some(1)),
            area: Some(1_000_000),
        }],
    },
    Case {
        name: "a box past its limit, and nothing made",
        steps: &[
            Step {
                upload: Upload {
                    changeset: 1,
                    limit: LIMIT,
                    operations: &[
                        (Action::Create, -1, 1, CORNER),
                        (Action::Create, -2, 1, FAR),
                    ],
                },
                outcome: PAST,
                area: None,
            },
            Step {
                upload: Upload {
                    changeset: 1,
                    limit: LIMIT,
                    operations: &[(Action::Create, -1, 1, CORNER)],
                },
                outcome: Outcome::Accepted(Some(1)),
                area: Some(0),
            },
            Step {
                upload: Upload {
                    changeset: 1,
                    limit: LIMIT,
                    operations: &[(Action::Create, -1, 1, FAR)],
                },
                outcome: PAST,
                area: Some(0),
            },
        ],
    },
    Case {
        name: "a box that is past the limit already",
        steps: &[
            Step {
                upload: Upload {
                    changeset: 1,
                    limit: None,
                    operations: &[
                        (Action::Create, -1, 1, CORNER),
                        (Action::Create, -2, 1, FAR),
                    ],
                },
                outcome: Outcome::Accepted(Some(1)),
                area: Some(1_001_000),
            },
            Step {
                upload: Upload {
                    changeset: 1,
                    limit: LIMIT,
                    operations: &[(Action::Create, -1, 1, MIDDLE)],
                },
                outcome: Outcome::Accepted(Some(3)),
                area: Some(1_001_000),
            },
            Step {
                upload: Upload {
                    changeset: 1,
                    limit: LIMIT,
                    operations: &[],
                },
                outcome: Outcome::Accepted(None),
                area: Some(1_001_000),
            },
            Step {
                upload: Upload {
                    changeset: 1,
                    limit: LIMIT,
                    operations: &[(Action::Create, -1, 1, (481_401_000, 115_401_002))],
                },
                outcome: Outcome::BoxTooLarge {
                    area: 1_002_000,
                    limit: 1_000_000,
                },
                area: Some(1_001_000),
            },
        ],
    },
    Case {
        name: "a delete widens a box",
        steps: &[
            Step {
                upload: Upload {
                    changeset: 1,
                    limit: LIMIT,
                    operations: &[(Action::Create, -1, 1, FAR)],
                },
                outcome: Outcome::Accepted(Some(1)),
                area: Some(0),
            },
            Step {
                upload: Upload {
                    changeset: 2,
                    limit: LIMIT,
                    operations: &[(Action::Create, -1, 1, CORNER)],
                },
                outcome: Outcome::Accepted(Some(2)),
                area: Some(0),
            },
            Step {
                upload: Upload {
                    changeset: 2,
                    limit: LIMIT,
                    operations: &[(DELETE, 1, 1, NOWHERE)],
                },
                outcome: PAST,
                area: Some(0),
            },
            Step {
                upload: Upload {
                    changeset: 2,
                    limit: Some(1_001_000),
                    operations: &[(DELETE, 1, 1, NOWHERE)],
                },
                outcome: Outcome::Accepted(None),
                area: Some(1_001_000),
            },
        ],
    },
    Case {
        name: "a move widens a box by both places",
        steps: &[
            Step {
                upload: Upload {
                    changeset: 1,
                    limit: LIMIT,
                    operations: &[(Action::Create, -1, 1, FAR)],
                },
                outcome: Outcome::Accepted(Some(1)),
                area: Some(0),
            },
            Step {
                upload: Upload {
                    changeset: 2,
                    limit: LIMIT,
                    operations: &[(Action::Modify, 1, 1, CORNER)],
                },
                outcome: PAST,
                area: None,
            },
        ],
    },
    Case {
        name: "a limit of 0",
        steps: &[
            Step {
                upload: Upload {
                    changeset: 1,
                    limit: Some(0),
                    operations: &[
                        (Action::Create, -1, 1, CORNER),
                        (Action::Create, -2, 1, EAST),
                    ],
                },
                outcome: Outcome::Accepted(Some(1)),
                area: Some(0),
            },
            Step {
                upload: Upload {
                    changeset: 1,
                    limit: Some(0),
                    operations: &[(Action::Create, -1, 1, NORTH)],
                },
                outcome: Outcome::BoxTooLarge { area: 1, limit: 0 },
                area: Some(0),
            },
        ],
    },
    Case {
        name: "the whole world, past its limit",
        steps: &[Step {
            upload: Upload {
                changeset: 1,
                limit: Some(6_479_999_999_999_999_999),
                operations: &[
                    (Action::Create, -1, 1, SOUTHWEST),
                    (Action::Create, -2, 1, NORTHEAST),
                ],
            },
            outcome: Outcome::BoxTooLarge {
                area: 6_480_000_000_000_000_000,
                limit: 6_479_999_999_999_999_999,
            },
            area: None,
        }],
    },
    Case {
        name: "the whole world, at its limit",
        steps: &[Step {
            upload: Upload {
                changeset: 1,
                limit: Some(6_480_000_000_000_000_000),
                operations: &[
                    (Action::Create, -1, 1, SOUTHWEST),
                    (Action::Create, -2, 1, NORTHEAST),
                ],
            },
            outcome: Outcome::Accepted(Some(1)),
            area: Some(6_480_000_000_000_000_000),
        }],
    },
    Case {
        name: "the operations are judged before the box",
        steps: &[Step {
            upload: Upload {
                changeset: 1,
                limit: LIMIT,
                operations: &[
                    (Action::Create, -1, 1, CORNER),
                    (Action::Create, -2, 1, FAR),
                    (DELETE, 9, 1, NOWHERE),
                ],
            },
            outcome: Outcome::NoElement { op: 3 },
            area: None,
        }],
    },
];

/// The area of a changeset's box, where it has one.
fn area_of(state: &State, changeset: u64) -> Option<u64> {
    let touched = state.changeset(changeset)?.touched?;
    Some(touched.area())
}

/// A map with two changesets of alice.
fn begun(alloc: Global) -> Result<State, Memory> {
    let state = with_changeset(alloc, State::empty(alloc), MOMENT, None)?;
    with_changeset(alloc, state, MOMENT, None)
}

/// Whether each upload comes to what it must.
fn is_right(alloc: Global, case: &Case) -> Result<bool, Memory> {
    let mut state = begun(alloc)?;
    let mut is_right = true;
    for step in case.steps {
        let (next, answer) = uploaded(alloc, state, &step.upload)?;
        state = next;
        is_right &= comes_to(&step.upload, &step.outcome, &answer)
            && area_of(&state, step.upload.changeset) == step.area;
    }
    Ok(is_right)
}

pub fn play<R: Print>(rt: &R, alloc: Global, tally: &mut Tally) {
    for case in &CASES {
        tally.note(rt, case.name, is_right(alloc, case));
    }
}
