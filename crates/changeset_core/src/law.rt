//! Laws on changesets, which hold of all of them.
ghost use Rattle.std.specs.Prelude.{◌≡◌, ◌≤◌, ◌+◌, ℕ, List, Option, None};
ghost use Rattle.osm_base.specs.Place.{Area, Position};
ghost use Rattle.osm_base.specs.declared.limits.TheConstants.{MOMENT_LIMIT};
ghost use Rattle.osm_base.specs.declared.people.Owner.{Owner};
ghost use Rattle.osm_element.specs.Tags.{Tag};
ghost use Rattle.changeset_core.specs.declared.records.ChangesetRecord.{ChangesetRecord};
ghost use Rattle.changeset_core.specs.declared.records.Work.{Work};
ghost use Rattle.changeset_core.specs.Changeset.{closes, ended_at, first_record, join_areas, retagged, widen_all, worked_by};
ghost use Rattle.changeset_core.specs.Timely.{IsTimelyMoment, IsTimelyRecord};

/// A box is widened by positions as by the least box of these, and boxes may be joined in any
/// grouping.
pub fn boxes_are_joined()
    ensures positions { (area : Option Area) (ps : List Position) → widen_all area ps ≡ join_areas area (widen_all None ps) }
    ensures grouping { (a b c : Option Area) → join_areas (join_areas a b) c ≡ join_areas a (join_areas b c) }
{}

/// A changeset closes a day after the latest moment that is told apart, or before.
pub fn ends_are_bounded()
    ensures { (r : ChangesetRecord) → IsTimelyRecord r → closes r ≤ MOMENT_LIMIT + 86400 }
{}

/// What is done at a moment that is told apart leaves such moments.
pub fn records_stay_timely()
    ensures opened { (owner : Owner) (tags : List Tag) (t limit : ℕ) → IsTimelyMoment t → IsTimelyRecord (first_record owner tags t limit) }
    ensures retagged { (r : ChangesetRecord) (tags : List Tag) (t : ℕ) → IsTimelyRecord r → IsTimelyMoment t
        → IsTimelyRecord (retagged r tags t) }
    ensures ended { (r : ChangesetRecord) (t : ℕ) → IsTimelyRecord r → IsTimelyMoment t → IsTimelyRecord (ended_at r t) }
    ensures worked { (r : ChangesetRecord) (works : List Work) (area : Option Area) (t : ℕ) → IsTimelyRecord r
        → IsTimelyMoment t → IsTimelyRecord (worked_by r works area t) }
{}
