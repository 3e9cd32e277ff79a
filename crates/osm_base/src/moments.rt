//! Moments, and how the map's go on.
ghost use Rattle.std.specs.Prelude.{◌≡◌, ℕ};
ghost use Rattle.osm_base.specs.Stamp.{stamp_after};

use crate::limits::MOMENT_LIMIT;
use std::marker::Model;

/// A moment in seconds since 1970. Those of the map are at most `MOMENT_LIMIT`.
#[derive(Clone, Copy, PartialEq, Eq, PartialOrd, Ord)]
pub struct Stamp(pub u64);

impl Model for Stamp {
    ghost Value = { ℕ };

    ghost view = { λ s. s.0 };

    ghost inverse = { λ n. record { 0 = n } };
}

impl Stamp {
    /// The seconds since 1970.
    pub fn seconds(self) -> u64
        ensures { result ≡ self }
    {
        self.0
    }

    /// The stamp of what happens at `moment`, after something stamped `last`.
    pub fn after(last: Stamp, moment: u64) -> Stamp
        ensures { result ≡ stamp_after last moment }
    {
        Stamp(moment.min(MOMENT_LIMIT).max(last.0))
    }
}
