//! The limit of a text.

/// The most characters of a comment on a note.
pub const NOTE_TEXT_LIMIT: usize = 2000;

// A limit that is changed by mistake is refused here.
const _: () = prove!(NOTE_TEXT_LIMIT == 2000);
