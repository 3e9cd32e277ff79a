//! When a version was made, and whether it is marked.
ghost use Rattle.std.specs.Prelude.{◌≡◌, ◌<◌, ◌^◌, false};
ghost use Rattle.osm_element.specs.Noted.{stamp_in};

use osm_base::Stamp;
use std::mem::size_of;

/// The stamp of a version, which is below 2^40, and whether a redaction hides it. It is in parts of two
/// bytes at most, so that it lies beside the tag of an enum.
#[derive(Clone, Copy)]
pub(crate) struct Noted {
    pub(crate) marked: bool,
    high: u8,
    middle: u16,
    low: u16,
}

const _: () = prove!(size_of::<Noted>() == 6);

impl Noted {
    /// This stamp, and no mark.
    pub(crate) fn of(stamp: Stamp) -> Noted
        requires { stamp < 2 ^ 40 }
        ensures stamp { stamp_in result ≡ stamp }
        ensures unmarked { result.marked ≡ false }
    {
        let seconds = stamp.seconds();
        Noted {
            marked: false,
            high: (seconds / 0x1_0000_0000) as u8,
            middle: (seconds / 0x1_0000 % 0x1_0000) as u16,
            low: (seconds % 0x1_0000) as u16,
        }
    }

    pub(crate) fn stamp(&self) -> Stamp
        ensures { result ≡ stamp_in self.now }
    {
        let high = u64::from(self.high) * 0x1_0000_0000;
        let middle = u64::from(self.middle) * 0x1_0000;
        Stamp(high + middle + u64::from(self.low))
    }
}
