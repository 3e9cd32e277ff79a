//! What `still` tells of a plan, on whatever map.
ghost use Rattle.std.specs.Prelude.{◌≡◌, ◌≢◌, true, Ok, Err, Result, IsErr};
ghost use Rattle.osm_base.specs.Key.{lists_key};
ghost use Rattle.osm_base.specs.declared.keys.Key.{Key};
ghost use Rattle.osm_element.specs.Elements.{count, users};
ghost use Rattle.osm_element.specs.declared.elements.Elements.{Elements};
ghost use Rattle.osm_later.specs.Looked.{deleted_by, looked_counts, looked_users, reach};
ghost use Rattle.osm_later.specs.Plan.{IsPlannedOn, task_on};
ghost use Rattle.osm_later.specs.Still.{Names};
ghost use Rattle.osm_later.specs.declared.looks.Look.{Look};
ghost use Rattle.osm_model.specs.Fold.{start};
ghost use Rattle.upload_check.specs.Planned.{IsStill, Planned, plan_of};

use osm_later::{reached_plans_stand, stills_say_where_they_differ, unlike_looks_fall};

/// Of a plan that was made on one map, what `still` answers (`told`) on another: that it stands where
/// nothing is changed that its change reaches; a look where a count or a list of users is another
/// that its change has to look at. A look names a count of what the change reaches, or, of an element
/// that it deletes, the least that uses it on one of the two maps alone.
pub fn stills_tell_what_changed()
    ensures unchanged { (earlier now : Elements) (plan : Planned) (told : Result (Unit {0}) Look)
        → IsPlannedOn earlier (plan_of plan)
        → IsStill told plan now
        → ((k : Key) → lists_key (reach earlier plan.asked.change) k ≡ true → count now k ≡ count earlier k)
        → ((k : Key) → lists_key (deleted_by plan.asked.change) k ≡ true → users now k ≡ users earlier k)
        → told ≡ Ok tt }
    ensures counts { (earlier now : Elements) (plan : Planned) (told : Result (Unit {0}) Look) (k : Key)
        → IsPlannedOn earlier (plan_of plan)
        → IsStill told plan now
        → lists_key (looked_counts (task_on earlier (plan_of plan)) (start earlier) plan.asked.change) k ≡ true
        → count now k ≢ count earlier k
        → IsErr told }
    ensures users { (earlier now : Elements) (plan : Planned) (told : Result (Unit {0}) Look) (k : Key)
        → IsPlannedOn earlier (plan_of plan)
        → IsStill told plan now
        → lists_key (looked_users (task_on earlier (plan_of plan)) (start earlier) plan.asked.change) k ≡ true
        → users now k ≢ users earlier k
        → IsErr told }
    ensures names { (earlier now : Elements) (plan : Planned) (told : Result (Unit {0}) Look) (look : Look)
        → IsPlannedOn earlier (plan_of plan)
        → IsStill told plan now
        → told ≡ Err look
        → Names look (plan_of plan) earlier now }
{
    reached_plans_stand();
    unlike_looks_fall();
    stills_say_where_they_differ();
}
