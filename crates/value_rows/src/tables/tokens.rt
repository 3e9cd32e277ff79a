//! Users texts and Authorization fields.
use osm_base::Memory;
use row_lines::Tally;
use std::alloc::Global;
use user_table::{UserTable, UsersFault, Who};

/// What a field says of who sends a request.
const HEADERS: [(&str, Option<&[u8]>, Who); 5] = [
    ("no header is anonymous", None, Who::Anonymous),
    (
        "the word may be in any case",
        Some(b"bearer  bobtoken"),
        Who::Known(1),
    ),
    ("another scheme is unknown", Some(b"Basic x"), Who::Unknown),
    (
        "a tab before the token is cut",
        Some(b"Bearer \talicetoken"),
        Who::Known(0),
    ),
    (
        "a tab is no space after the word",
        Some(b"Bearer\talicetoken"),
        Who::Unknown,
    ),
];

fn sends(alloc: Global, header: Option<&[u8]>, who: Who) -> Result<bool, Memory> {
    let text = b"1 alicetoken user alice\n2 bobtoken moderator bob\n";
    match UserTable::read(alloc, text) {
        Ok(table) => Ok(table.who(header) == who),
        Err(UsersFault::Memory) => Err(Memory),
        Err(_) => Ok(false),
    }
}

fn is_bob_second(table: &UserTable) -> bool {
    let who = table.who(Some(b"Bearer bobtoken"));
    match who {
        Who::Known(place) => {
            let bob = table.user(place);
            who == Who::Known(1) && bob.id == 2 && bob.name.as_str() == "bob" && bob.moderator
        }
        _ => false,
    }
}

fn the_second_user_is_bob(alloc: Global) -> Result<bool, Memory> {
    let text = b"# the team\r\n1 alicetoken user alice\r\n\n2 bobtoken moderator bob";
    match UserTable::read(alloc, text) {
        Ok(table) => Ok(is_bob_second(&table)),
        Err(UsersFault::Memory) => Err(Memory),
        Err(_) => Ok(false),
    }
}

fn a_line_twice_is_a_double_id(alloc: Global) -> bool {
    let fault = UserTable::read(alloc, b"1 a user x\n1 a user x\n").err();
    fault == Some(UsersFault::DoubleId { line: 2 })
}

/// Users texts of one user, and the user's limit on the box of a changeset.
const LIMITS: [(&str, &[u8], Option<u64>); 6] = [
    ("a user without a limit", b"1 a user x\n", None),
    ("a user's limit", b"1 a user/1000000 x\n", Some(1_000_000)),
    ("a moderator's limit", b"1 a moderator/5 x\n", Some(5)),
    ("a limit of 0", b"1 a moderator/0 x\n", Some(0)),
    (
        "a limit of nineteen digits",
        b"1 a user/0000000000000000007 x\n",
        Some(7),
    ),
    (
        "the largest limit",
        b"1 a user/9223372036854775807 x\n",
        Some(9_223_372_036_854_775_807),
    ),
];

fn first_has_limit(table: &UserTable, limit: Option<u64>) -> bool {
    match table.who(Some(b"Bearer a")) {
        Who::Known(place) => table.user(place).limit == limit,
        _ => false,
    }
}

fn has_limit(alloc: Global, text: &[u8], limit: Option<u64>) -> Result<bool, Memory> {
    match UserTable::read(alloc, text) {
        Ok(table) => Ok(first_has_limit(&table, limit)),
        Err(UsersFault::Memory) => Err(Memory),
        Err(_) => Ok(false),
    }
}

/// Users texts, and the moment from which new changesets may be large.
const MOMENTS: [(&str, &[u8], Option<u64>); 6] = [
    ("a text without a moment", b"1 a user x\n", None),
    (
        "a moment behind the users",
        b"1 a user x\n2 b user y\n@large-from 1700000000\n",
        Some(1_700_000_000),
    ),
    (
        "a moment before the users",
        b"@large-from 0\r\n1 a user x\r\n",
        Some(0),
    ),
    ("a moment in a comment", b"# @large-from 5\n", None),
    (
        "a moment between comments",
        b"# the moment\n\n@large-from 5\n\n# the user\n1 a user x\n",
        Some(5),
    ),
    (
        "the last moment",
        b"@large-from 0018446744073709551615",
        Some(18_446_744_073_709_551_615),
    ),
];

fn has_moment(alloc: Global, text: &[u8], moment: Option<u64>) -> Result<bool, Memory> {
    match UserTable::read(alloc, text) {
        Ok(table) => Ok(table.large_from() == moment),
        Err(UsersFault::Memory) => Err(Memory),
        Err(_) => Ok(false),
    }
}

/// Users texts with a line that is no user and no moment, and its number.
const BAD_LINES: [(&str, &[u8], u64); 15] = [
    ("a slash without a limit", b"1 a user/ x\n", 1),
    ("a limit with a sign", b"1 a user/+1 x\n", 1),
    ("a limit with a letter", b"1 a user/1x x\n", 1),
    ("a limit without a role", b"1 a /5 x\n", 1),
    ("two limits", b"1 a user/5/5 x\n", 1),
    ("a limit of 2^63", b"1 a user/9223372036854775808 x\n", 1),
    (
        "a limit of twenty digits",
        b"1 a user/00000000000000000001 x\n",
        1,
    ),
    (
        "two moments",
        b"@large-from 1\n1 a user x\n@large-from 1\n",
        3,
    ),
    (
        "a moment of 2^64",
        b"#\n@large-from 18446744073709551616\n",
        2,
    ),
    ("two spaces before a moment", b"@large-from  1\n", 1),
    ("a moment with a sign", b"@large-from +1\n", 1),
    ("a moment and a space", b"@large-from 1 \n", 1),
    ("a moment that is missing", b"#\n\n@large-from\n", 3),
    ("a setting without a name", b"@\n", 1),
    ("another setting", b"1 a user x\n@small-from 1\n", 2),
];

fn is_bad_line(alloc: Global, text: &[u8], line: u64) -> Result<bool, Memory> {
    match UserTable::read(alloc, text) {
        Ok(_) => Ok(false),
        Err(UsersFault::Memory) => Err(Memory),
        Err(fault) => Ok(fault == UsersFault::Line { line }),
    }
}

/// Users texts of one comment: how many bytes, and whether they are too many.
const LENGTHS: [(&str, usize, bool); 2] = [
    ("a users text of 1,048,576 bytes", 1_048_576, false),
    ("a users text of one byte more", 1_048_577, true),
];

/// Whether a text of so many bytes is refused as too long, or read where it isn't.
fn is_judged_by_length(alloc: Global, length: usize, long: bool) -> Result<bool, Memory> {
    let text = vec![in alloc; b'#'; length]?;
    match UserTable::read(alloc, text.as_slice()) {
        Ok(_) => Ok(!long),
        Err(UsersFault::Memory) => Err(Memory),
        Err(fault) => Ok(long && fault == UsersFault::Long),
    }
}

fn play_settings<R: Print>(rt: &R, alloc: Global, tally: &mut Tally) {
    for (name, text, limit) in &LIMITS {
        tally.note(rt, name, has_limit(alloc, text, *limit));
    }
    for (name, text, moment) in &MOMENTS {
        tally.note(rt, name, has_moment(alloc, text, *moment));
    }
    for (name, text, line) in &BAD_LINES {
        tally.note(rt, name, is_bad_line(alloc, text, *line));
    }
}

fn play_lengths<R: Print>(rt: &R, alloc: Global, tally: &mut Tally) {
    for (name, length, long) in &LENGTHS {
        tally.note(rt, name, is_judged_by_length(alloc, *length, *long));
    }
}

pub fn play<R: Print>(rt: &R, alloc: Global, tally: &mut Tally) {
    for (name, header, who) in &HEADERS {
        tally.note(rt, name, sends(alloc, *header, *who));
    }
    tally.note(rt, "the second user is bob", the_second_user_is_bob(alloc));
    tally.note(
        rt,
        "a line twice is a double id",
        Ok(a_line_twice_is_a_double_id(alloc)),
    );
    play_settings(rt, alloc, tally);
    play_lengths(rt, alloc, tally);
}
