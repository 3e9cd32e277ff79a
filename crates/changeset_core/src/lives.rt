//! When a changeset closes.
ghost use Rattle.std.specs.Prelude.{◌≡◌, ◌≤◌, ◌+◌, nat_lt, if◌then◌else◌, Some, None};
ghost use Rattle.std.specs.Option.{ForSome};
ghost use Rattle.osm_base.specs.declared.limits.TheConstants.{MOMENT_LIMIT};
ghost use Rattle.changeset_core.specs.Changeset.{closes_by};
ghost use Rattle.changeset_core.specs.Timely.{IsTimelyMoment};

use osm_base::Stamp;

/// The seconds after its last activity in which a changeset closes: an hour.
const IDLE: u64 = 3_600;

/// The seconds after its creation in which it closes at the latest: a day.
const LIFE: u64 = 86_400;

/// When a changeset with these moments was closed, or else closes.
pub(crate) fn closes(created: Stamp, activity: Stamp, ended: Option<Stamp>) -> Stamp
    requires created { IsTimelyMoment created }
    requires activity { IsTimelyMoment activity }
    requires ended { ForSome ended IsTimelyMoment }
    ensures value { result ≡ closes_by created activity ended }
    ensures bound { result ≤ MOMENT_LIMIT + 86400 }
{
    match ended {
        Some(ended) => ended,
        None => {
            let idle = activity.seconds() + IDLE;
            let old = created.seconds() + LIFE;
            Stamp(idle.min(old))
        }
    }
}

/// The same, or `None` while it is open. The moments may be any.
pub(crate) fn closed_at(
    created: Stamp,
    activity: Stamp,
    ended: Option<Stamp>,
    at: Stamp,
) -> Option<Stamp>
    ensures { result ≡ (if nat_lt at (closes_by created activity ended) then None else Some (closes_by created activity ended)) }
{
    let closes = match ended {
        Some(ended) => u128::from(ended.seconds()),
        None => {
            let idle = u128::from(activity.seconds()) + u128::from(IDLE);
            let old = u128::from(created.seconds()) + u128::from(LIFE);
            idle.min(old)
        }
    };
    if u128::from(at.seconds()) < closes {
        None
    } else {
        Some(Stamp(closes as u64))
    }
}
