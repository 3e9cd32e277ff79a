//! The text of a moment.
ghost use Rattle.std.specs.Prelude.{◌≡◌, IfOk};
ghost use Rattle.osm_change.specs.Moments.{IsShownMoment};
ghost use Rattle.osm_json.specs.Moment.{stamp_text as text_of};

use arrayvec::ArrayString;
use jiff::Timestamp;
use jiff_fmt::temporal::DateTimePrinter;
use osm_base::{Memory, Stamp, Text};
use std::alloc::Global;

/// The text of a moment in UTC, as `2023-11-14T22:13:20Z`.
pub fn stamp_text(alloc: Global, stamp: Stamp) -> Result<Text, Memory>
    requires { IsShownMoment stamp }
    ensures { IfOk result (λ text. text ≡ text_of stamp) }
{
    Text::of(alloc, moment_text(stamp).as_str())
}

/// The same on the stack: an element has one.
pub(crate) fn moment_text(stamp: Stamp) -> ArrayString<33>
    requires { IsShownMoment stamp }
    ensures { result.bytes ≡ text_of stamp }
{
    let seconds = stamp.seconds();
    let instant = Timestamp::from_second(seconds as i64).unwrap();
    DateTimePrinter::new().timestamp_text(instant.to_plain())
}
