//! The values of options.
ghost use Rattle.std.specs.Prelude.{◌≡◌, ◌≤◌, IfSome};
ghost use Rattle.osm_words.specs.Values.{is_text, checked, fitting};

use crate::words::{LoadOptions, UPLOADS_A_SESSION};

/// A path or an address: any text that isn't empty and doesn't begin with `-`.
pub fn is_text(text: &str) -> bool
    ensures { result ≡ is_text text.now }
{
    match text.as_bytes() {
        [] => false,
        [first, ..] => *first != b'-',
    }
}

/// The number, where it lies from the least to the most.
pub fn checked(number: u64, least: u32, most: u32) -> Option<u32>
    ensures value { result ≡ checked least most number }
    ensures least { IfSome result (λ made. least ≤ made) }
    ensures most { IfSome result (λ made. made ≤ most) }
{
    if u64::from(least) <= number && number <= u64::from(most) {
        Some(number as u32)
    } else {
        None
    }
}

/// The load, where none of its changesets is filled.
pub fn fitting(seed: u64, sessions: u32, uploads: u32) -> Option<LoadOptions>
    ensures value { result ≡ fitting seed sessions uploads }
    ensures sessions { IfSome result (λ load. load.sessions ≡ sessions) }
{
    if u64::from(uploads) <= u64::from(UPLOADS_A_SESSION) * u64::from(sessions) {
        Some(LoadOptions {
            seed,
            sessions,
            uploads,
        })
    } else {
        None
    }
}
