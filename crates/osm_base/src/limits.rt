//! The limits of the server.

/// The most bytes of a message's head, the line ends that are skipped before it included.
pub const HEAD_LIMIT: usize = 16_384;

/// The most fields of a message's head.
pub const FIELD_LIMIT: usize = 64;

/// The most bytes of a message's body.
pub const BODY_LIMIT: usize = 33_554_432;

/// The most bytes of a body that a mirror reads: a piece of the feed is longer than the body of the
/// upload that it tells of by what tells the rest of its entry.
pub const PIECE_LIMIT: usize = 33_619_968;

/// The most requests that are answered on one link.
pub const REQUEST_LIMIT: usize = 1_000;

/// The most sessions of a server. It has one at least.
pub const SESSION_LIMIT: u32 = 64;

/// The most characters of a tag's key or value, a role, a title or a user's name. A character is
/// one Unicode scalar value.
pub const CHARACTER_LIMIT: usize = 255;

/// The most nodes of a way. It has one at least.
pub const WAY_LIMIT: usize = 2_000;

/// The most members of a relation.
pub const RELATION_LIMIT: usize = 32_000;

/// The most changes of a changeset.
pub const CHANGE_LIMIT: u64 = 10_000;

/// The most changes of a changeset that was created from the moment of the users text on.
pub const LARGE_CHANGE_LIMIT: u64 = 50_000;

/// The largest area of a map call's box, in square units of 1e-7 degrees: 0.25 square degrees.
pub const AREA_LIMIT: u64 = 25_000_000_000_000;

/// The most nodes in the box of a map call.
pub const MAP_NODE_LIMIT: u64 = 50_000;

/// The most changesets that a query lists: the newest.
pub const QUERY_LIMIT: usize = 100;

/// The most bytes of a users text.
pub const USERS_LIMIT: usize = 1_048_576;

/// The most comments of a note.
pub const COMMENT_LIMIT: usize = 10_000;

/// The latest moment that is told apart, in seconds since 1970. A later one counts as it.
pub const MOMENT_LIMIT: u64 = 253_000_000_000;

// A limit that is changed by mistake is refused here.
const _: () = prove!(HEAD_LIMIT == 16_384);

const _: () = prove!(FIELD_LIMIT == 64);

const _: () = prove!(BODY_LIMIT == 33_554_432);

const _: () = prove!(PIECE_LIMIT == BODY_LIMIT + 65_536);

const _: () = prove!(REQUEST_LIMIT == 1_000);

const _: () = prove!(SESSION_LIMIT == 64);

const _: () = prove!(CHARACTER_LIMIT == 255);

const _: () = prove!(WAY_LIMIT == 2_000);

const _: () = prove!(RELATION_LIMIT == 32_000);

const _: () = prove!(CHANGE_LIMIT == 10_000);

const _: () = prove!(LARGE_CHANGE_LIMIT == 50_000);

const _: () = prove!(AREA_LIMIT == 25_000_000_000_000);

const _: () = prove!(MAP_NODE_LIMIT == 50_000);

const _: () = prove!(QUERY_LIMIT == 100);

const _: () = prove!(USERS_LIMIT == 1_048_576);

const _: () = prove!(COMMENT_LIMIT == 10_000);

const _: () = prove!(MOMENT_LIMIT == 253_000_000_000);
