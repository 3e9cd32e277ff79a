//! The users, found by their tokens.
ghost use Rattle.std.specs.Prelude.{◌≡◌, ◌<◌, length, map, slice_get};
ghost use Rattle.user_table.specs.Users.{table_of, Gives};
ghost use Rattle.user_table.specs.Who.{who_of, who_at, place_of, IsWithin};
ghost use Rattle.std.specs.Option.{option_copied};

use crate::drafts::read_lines;
use crate::faults::UsersFault;
use crate::headers::token_of;
use indexmap::IndexMap;
use osm_base::{USERS_LIMIT, User};
use std::alloc::Global;
use std::marker::Model;

/// Who sent a request.
#[derive(Clone, Copy, PartialEq, Eq)]
pub enum Who {
    /// The request has no Authorization field.
    Anonymous,
    /// The user at a place of the table, counted from 0.
    Known(u64),
    /// The field names nobody of the table.
    Unknown,
}

/// The users who may call the server, in the order of their lines, and the moment from which new
/// changesets may grow large, in seconds since 1970, where the text tells one.
#[derive(Drop)]
pub struct UserTable {
    users: IndexMap<Vec<u8>, User>,
    large_from: Option<u64>,
}

impl Model for UserTable {
    ghost use Rattle.user_table.specs.Users.{Users};
    ghost use Rattle.user_table.specs.Drafts.{rows_of};

    ghost Value = { Users };

    ghost view = { λ table. record { rows = rows_of table.users.entries; large_from = table.large_from } };
}

impl UserTable {
    /// The table of a users text: lines `ID TOKEN ROLE NAME` parted by single spaces, where the role is
    /// `user` or `moderator`, or one of these, `/` and the largest area of a changeset's box; and at most
    /// one line `@large-from SECONDS`. Empty lines and those that begin with `#` are skipped.
    pub fn read(alloc: Global, text: &[u8]) -> Result<UserTable, UsersFault>
        ensures { Gives (table_of text.now) result }
    {
        if text.len() > USERS_LIMIT {
            return Err(UsersFault::Long);
        }
        match str::from_utf8(text) {
            Ok(text) => {
                let draft = read_lines(alloc, text)?;
                Ok(UserTable {
                    users: draft.users,
                    large_from: draft.large_from,
                })
            }
            Err(_) => Err(UsersFault::NotUtf8),
        }
    }

    /// Who sent a request, by the value of its Authorization field: `Bearer`, one or more spaces
    /// and a token (RFC 6750, section 2.1). Spaces and tabs before and after the token don't count.
    pub fn who(&self, header: Option<&[u8]>) -> Who
        ensures who { result ≡ who_of self.now.rows (option_copied header.entry) }
        ensures within { IsWithin self.now.rows result }
    {
        match header {
            None => Who::Anonymous,
            Some(header) => self.who_is(header),
        }
    }

    fn who_is(&self, header: &[u8]) -> Who
        ensures { result ≡ who_of self.now.rows (Some header.now) }
    {
        match token_of(header) {
            None => Who::Unknown,
            Some(token) => self.who_has(token),
        }
    }

    fn who_has(&self, token: &[u8]) -> Who
        ensures { result ≡ who_at (place_of self.now.rows token.now) }
    {
        match self.users.get_index_of(token) {
            None => Who::Unknown,
            Some(place) => Who::Known(place as u64),
        }
    }

    /// The moment from which a new changeset may make 50,000 changes, in seconds since 1970. It takes no
    /// memory.
    pub fn large_from(&self) -> Option<u64>
        ensures { result ≡ self.now.large_from }
    {
        self.large_from
    }

    /// The user at a place, counted from 0.
    pub fn user(&self, place: u64) -> &User
        requires { place < length self.now.rows }
        ensures { slice_get (map (λ row. row.user) self.now.rows) place ≡ Some result.now }
    {
        &self.users[place as usize]
    }
}
