//! One line of a users text.
//!
//! A byte 13 is cut only before a byte 10. A last line without byte 10 keeps its 13.
//!
//! A line that begins with a space isn't skipped: it is no user, and a fault.
//!
//! The line of that moment may stand anywhere in the text, before the users or between them.
ghost use Rattle.std.specs.Prelude.{◌≡◌, true, length};
ghost use Rattle.std.specs.List.{list_all};
ghost use Rattle.std.specs.Str.{chars};
ghost use Rattle.std.specs.Option.{option_map};
ghost use Rattle.osm_base.specs.Number.{limit_of};
ghost use Rattle.user_table.specs.Drafts.{shown};
ghost use Rattle.user_table.specs.Rows.{is_slash, parted, parted_at, is_token_byte, is_token, is_name, moderator_of, limited, role_of, row_of_parts, row_after_token, row_after_id, row_of, moment_of};

use osm_base::{CHARACTER_LIMIT, limit_number, path_number, whole_number};

/// The most bytes of a token.
const TOKEN_LIMIT: usize = 128;

/// What a user may do: redact, and how large an area the user's uploads may give a changeset's box, in
/// square units of 1e-7 degrees.
#[derive(Clone, Copy)]
pub struct Role {
    pub moderator: bool,
    pub limit: Option<u64>,
}

/// The user of a line of the users text.
#[derive(Clone, Copy)]
pub struct Listed<'a> {
    pub id: u64,
    pub token: &'a [u8],
    pub role: Role,
    pub name: &'a str,
}

/// The user of a line `ID TOKEN ROLE NAME`.
pub fn read_line<'a>(line: &'a str) -> Option<Listed<'a>>
    ensures { option_map shown result ≡ row_of line.now }
{
    let (id, rest) = parted(line)?;
    after_id(id, rest)
}

fn after_id<'a>(id: &'a str, rest: &'a str) -> Option<Listed<'a>>
    ensures { option_map shown result ≡ row_after_id id.now rest.now }
{
    let (token, rest) = parted(rest)?;
    after_token(id, token, rest)
}

fn after_token<'a>(id: &'a str, token: &'a str, rest: &'a str) -> Option<Listed<'a>>
    ensures { option_map shown result ≡ row_after_token id.now token.now rest.now }
{
    let (role, name) = parted(rest)?;
    of_parts(id, token, role, name)
}

fn of_parts<'a>(id: &'a str, token: &'a str, role: &'a str, name: &'a str) -> Option<Listed<'a>>
    ensures { option_map shown result ≡ row_of_parts id.now token.now role.now name.now }
{
    let id = path_number(id.as_bytes())?;
    let role = role_of(role)?;
    let token = token.as_bytes();
    if is_token(token) && is_name(name) {
        Some(Listed {
            id,
            token,
            role,
            name,
        })
    } else {
        None
    }
}

fn parted(text: &str) -> Option<(&str, &str)>
    ensures { option_map (λ part. (part.0.now, part.1.now)) result ≡ parted text.now }
{
    text.split_once(' ')
}

fn slashed(text: &str) -> Option<(&str, &str)>
    ensures { option_map (λ part. (part.0.now, part.1.now)) result ≡ parted_at is_slash text.now }
{
    text.split_once('/')
}

fn is_token(token: &[u8]) -> bool
    ensures { result ≡ is_token token.now }
{
    !token.is_empty() && token.len() <= TOKEN_LIMIT && are_token_bytes(token)
}

fn are_token_bytes(token: &[u8]) -> bool
    ensures { result ≡ list_all is_token_byte token.now }
{
    token.iter().all(|byte| 33 <= *byte && *byte <= 126)
}

fn is_name(name: &str) -> bool
    ensures { result ≡ is_name name.now }
{
    let length = count_of(name);
    0 < length && length <= CHARACTER_LIMIT
}

fn count_of(text: &str) -> usize
    ensures { result ≡ length (chars text.now) }
{
    text.chars().count()
}

fn moderator_of(role: &str) -> Option<bool>
    ensures { result ≡ moderator_of role.now }
{
    if role == "user" {
        Some(false)
    } else if role == "moderator" {
        Some(true)
    } else {
        None
    }
}

fn limited(name: &str, limit: &str) -> Option<Role>
    ensures { result ≡ limited (moderator_of name.now) (limit_of limit.now) }
{
    let moderator = moderator_of(name)?;
    let limit = limit_number(limit.as_bytes())?;
    Some(Role {
        moderator,
        limit: Some(limit),
    })
}

fn role_of(role: &str) -> Option<Role>
    ensures { result ≡ role_of role.now }
{
    match slashed(role) {
        Some((name, limit)) => limited(name, limit),
        None => {
            let moderator = moderator_of(role)?;
            Some(Role {
                moderator,
                limit: None,
            })
        }
    }
}

/// The moment of a line `@large-from SECONDS`.
pub fn read_moment(line: &str) -> Option<u64>
    ensures { result ≡ moment_of line.now }
{
    let (name, moment) = parted(line)?;
    if name == "@large-from" {
        whole_number(moment)
    } else {
        None
    }
}
