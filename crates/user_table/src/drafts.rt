//! The users of a text, line by line.
ghost use Rattle.std.specs.Prelude.{◌≡◌, ◌≤◌, length, ◌∷◌, ◌++◌, [], Ok, IfOk, OnOk, MatchResult, true, not, nat_eq};
ghost use Rattle.user_table.specs.Users.{nobody, with_row, with_moment, with_told, with_line, with_lines, is_skipped, is_setting, has_token, Leads, Refuses};
ghost use Rattle.user_table.specs.Drafts.{rows_of, users_of, texts_of, shown, IsIndexed};
ghost use Rattle.user_table.specs.Rows.{moment_of};
ghost use Rattle.std.specs.List.{list_any};
ghost use Rattle.std.specs.Str.{bytes_eq};
ghost use Rattle.std.specs.Str.Lines.{lines};

use crate::faults::UsersFault;
use crate::lines::{Listed, read_line, read_moment};
use indexmap::{IndexMap, IndexSet};
use osm_base::{Memory, Text, USERS_LIMIT, User};
use std::alloc::Global;

/// What the lines so far tell, with sets of what no other user may have.
#[derive(Drop)]
pub struct Draft<'a> {
    pub users: IndexMap<Vec<u8>, User>,
    pub large_from: Option<u64>,
    ids: IndexSet<u64>,
    names: IndexSet<&'a str>,
}

impl<'a> Draft<'a> {
    fn new(alloc: Global) -> Draft<'a>
        ensures none { users_of result ≡ nobody }
        ensures indexed { IsIndexed result }
    {
        Draft {
            users: IndexMap::new(alloc),
            large_from: None,
            ids: IndexSet::new(alloc),
            names: IndexSet::new(alloc),
        }
    }

    fn add(&mut self, alloc: Global, number: u64, listed: Listed<'a>) -> Result<(), UsersFault>
        requires { IsIndexed self.old }
        ensures indexed { OnOk result (IsIndexed self.new) }
        ensures added { Leads (with_row number (users_of self.old) (shown listed.entry)) result (users_of self.new) }
    {
        if !insert_id(&mut self.ids, listed.id)? {
            return Err(UsersFault::DoubleId { line: number });
        }
        if !insert_user(&mut self.users, alloc, listed)? {
            return Err(UsersFault::DoubleToken { line: number });
        }
        if !insert_name(&mut self.names, listed.name)? {
            return Err(UsersFault::DoubleName { line: number });
        }
        Ok(())
    }

    fn set(&mut self, number: u64, moment: Option<u64>) -> Result<(), UsersFault>
        requires { IsIndexed self.old }
        ensures indexed { OnOk result (IsIndexed self.new) }
        ensures added { Leads (with_moment number (users_of self.old) moment) result (users_of self.new) }
    {
        if self.large_from.is_some() || moment.is_none() {
            return Err(UsersFault::Line { line: number });
        }
        self.large_from = moment;
        Ok(())
    }

    fn add_told(&mut self, alloc: Global, number: u64, line: &'a str) -> Result<(), UsersFault>
        requires { IsIndexed self.old }
        ensures indexed { OnOk result (IsIndexed self.new) }
        ensures added { Leads (with_told number (users_of self.old) line.now) result (users_of self.new) }
    {
        if is_setting(line) {
            return self.set(number, read_moment(line));
        }
        match read_line(line) {
            Some(listed) => self.add(alloc, number, listed),
            None => Err(UsersFault::Line { line: number }),
        }
    }

    fn add_line(&mut self, alloc: Global, number: u64, line: &'a str) -> Result<(), UsersFault>
        requires { IsIndexed self.old }
        ensures indexed { OnOk result (IsIndexed self.new) }
        ensures added { Leads (with_line number (users_of self.old) line.now) result (users_of self.new) }
    {
        if is_skipped(line) {
            return Ok(());
        }
        self.add_told(alloc, number, line)
    }
}

// Each of these answers whether what it puts in is new.

fn insert_id(ids: &mut IndexSet<u64>, id: u64) -> Result<bool, Memory>
    ensures new { IfOk result (λ new. new ≡ not (list_any (nat_eq id) ids.old.keys)) }
    ensures added { IfOk result (λ new. new ≡ true → ids.new.keys ≡ ids.old.keys ++ id ∷ []) }
{
    Ok(ids.insert(id)?)
}

fn insert_name<'a>(names: &mut IndexSet<&'a str>, name: &'a str) -> Result<bool, Memory>
    ensures new { IfOk result (λ new. new ≡ not (list_any (bytes_eq name.now) (texts_of names.old.keys))) }
    ensures added { IfOk result (λ new. new ≡ true → texts_of names.new.keys ≡ texts_of names.old.keys ++ name.now ∷ []) }
{
    Ok(names.insert(name)?)
}

fn insert_user(
    users: &mut IndexMap<Vec<u8>, User>,
    alloc: Global,
    listed: Listed<'_>,
) -> Result<bool, Memory>
    ensures new { IfOk result (λ new. new ≡ not (has_token (rows_of users.old.entries) listed.entry.token.now)) }
    ensures added { IfOk result (λ new. new ≡ true → rows_of users.new.entries ≡ rows_of users.old.entries ++ shown listed.entry ∷ []) }
{
    let token = Vec::from_slice(alloc, listed.token)?;
    let user = User {
        id: listed.id,
        name: Text::of(alloc, listed.name)?,
        moderator: listed.role.moderator,
        limit: listed.role.limit,
    };
    let before = users.insert(token, user)?;
    Ok(before.is_none())
}

fn is_skipped(line: &str) -> bool
    ensures { result ≡ is_skipped line.now }
{
    match line.as_bytes().first() {
        Some(byte) => *byte == b'#',
        None => true,
    }
}

fn is_setting(line: &str) -> bool
    ensures { result ≡ is_setting line.now }
{
    match line.as_bytes().first() {
        Some(byte) => *byte == b'@',
        None => false,
    }
}

/// What a text tells: its users under their tokens, and its moment.
pub fn read_lines<'a>(alloc: Global, text: &'a str) -> Result<Draft<'a>, UsersFault>
    requires { length text.now ≤ USERS_LIMIT }
    ensures { MatchResult result (λ draft. with_lines 1 nobody (lines text.now) ≡ Ok (users_of draft))
        (λ found. Refuses (with_lines 1 nobody (lines text.now)) found) }
{
    let mut draft = Draft::new(alloc);
    let mut number = 0;
    for line in text.lines() {
        number += 1;
        draft.add_line(alloc, number, line)?;
    }
    Ok(draft)
}
