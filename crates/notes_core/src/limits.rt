//! The limits of a search for notes.

/// The most notes that a search shows: the newest.
pub const NOTES_LIMIT: usize = 100;

/// The largest area of a search's box, in square units of 1e-7 degrees: 25 square degrees.
pub const NOTES_AREA_LIMIT: u64 = 2_500_000_000_000_000;

// A limit that is changed by mistake is refused here.
const _: () = prove!(NOTES_LIMIT == 100);

const _: () = prove!(NOTES_AREA_LIMIT == 2_500_000_000_000_000);
