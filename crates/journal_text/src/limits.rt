//! How long a journal's text may be.
/// The most bytes of a journal's text.
pub const TEXT_LIMIT: usize = 268_435_456;

// A limit that is changed by mistake is refused here.
const _: () = prove!(TEXT_LIMIT == 268_435_456);
