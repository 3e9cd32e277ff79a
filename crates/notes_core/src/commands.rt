//! What a caller may ask of notes, and what a journal keeps of it.
ghost use Rattle.std.specs.Prelude.{◌≡◌, IfOk};
ghost use Rattle.notes_core.specs.Act.{action_of, subject_of, text_of};

use crate::notes::NoteAction;
use osm_base::{Box7, Coord, Memory, Owner, Stamp, Text, TryCopy};
use std::alloc::Global;

/// What a caller asks to change.
#[derive(Drop)]
pub enum NoteCommand {
    OpenNote { at: Coord, text: Text },
    Comment { id: u64, text: Text },
    CloseNote { id: u64, text: Text },
    Reopen { id: u64, text: Text },
}

impl NoteCommand {
    /// What the comment that it makes does to the note.
    pub fn action(&self) -> NoteAction
        ensures { result ≡ action_of self.now }
    {
        match self {
            NoteCommand::OpenNote { .. } => NoteAction::Opened,
            NoteCommand::Comment { .. } => NoteAction::Commented,
            NoteCommand::CloseNote { .. } => NoteAction::Closed,
            NoteCommand::Reopen { .. } => NoteAction::Reopened,
        }
    }

    /// The text of that comment.
    pub fn text(&self) -> &Text
        ensures { result.now ≡ text_of self.now }
    {
        match self {
            NoteCommand::OpenNote { text, .. }
            | NoteCommand::Comment { text, .. }
            | NoteCommand::CloseNote { text, .. }
            | NoteCommand::Reopen { text, .. } => text,
        }
    }

    /// The same text, without a copy.
    pub(crate) fn into_text(self) -> Text
        ensures { result ≡ text_of self }
    {
        match self {
            NoteCommand::OpenNote { text, .. }
            | NoteCommand::Comment { text, .. }
            | NoteCommand::CloseNote { text, .. }
            | NoteCommand::Reopen { text, .. } => text,
        }
    }

    /// What it is about.
    pub fn subject(&self) -> NoteSubject
        ensures { result ≡ subject_of self.now }
    {
        match self {
            NoteCommand::OpenNote { at, .. } => NoteSubject::New(*at),
            NoteCommand::Comment { id, .. }
            | NoteCommand::CloseNote { id, .. }
            | NoteCommand::Reopen { id, .. } => NoteSubject::Known(*id),
        }
    }
}

/// What a command is about: a note to be opened at a position, or one that has a number.
#[derive(Clone, Copy)]
pub enum NoteSubject {
    New(Coord),
    Known(u64),
}

impl TryCopy for NoteCommand {
    fn copy(&self, alloc: Global) -> Result<NoteCommand, Memory> {
        match self {
            NoteCommand::OpenNote { at, text } => Ok(NoteCommand::OpenNote {
                at: *at,
                text: text.copy(alloc)?,
            }),
            NoteCommand::Comment { id, text } => Ok(NoteCommand::Comment {
                id: *id,
                text: text.copy(alloc)?,
            }),
            NoteCommand::CloseNote { id, text } => Ok(NoteCommand::CloseNote {
                id: *id,
                text: text.copy(alloc)?,
            }),
            NoteCommand::Reopen { id, text } => Ok(NoteCommand::Reopen {
                id: *id,
                text: text.copy(alloc)?,
            }),
        }
    }
}

/// A command with the caller, where the server knows who that is.
#[derive(Drop)]
pub struct NoteAsked {
    pub caller: Option<Owner>,
    pub command: NoteCommand,
}

/// What a caller wants to know.
#[derive(Clone, Copy, Drop)]
pub enum NoteQuery {
    /// One note.
    One { id: u64 },
    /// The newest notes in a box: the open ones, and where `closed` is set the closed ones too.
    Within { within: Box7, closed: bool },
}

/// An accepted command, as the journal keeps it. The calls of a session are counted from 1.
#[derive(Drop)]
pub struct NoteEntry {
    pub session: u32,
    pub call: u64,
    pub caller: Option<Owner>,
    pub stamp: Stamp,
    pub command: NoteCommand,
}

impl TryCopy for NoteEntry {
    fn copy(&self, alloc: Global) -> Result<NoteEntry, Memory> {
        let caller = copy_caller(alloc, &self.caller)?;
        let command = self.command.copy(alloc)?;
        Ok(NoteEntry {
            session: self.session,
            call: self.call,
            caller,
            stamp: self.stamp,
            command,
        })
    }
}

/// A second caller that is equal to this one.
fn copy_caller(alloc: Global, caller: &Option<Owner>) -> Result<Option<Owner>, Memory>
    ensures { IfOk result (λ copy. copy ≡ caller.now) }
{
    match caller {
        Some(owner) => Ok(Some(owner.copy(alloc)?)),
        None => Ok(None),
    }
}

/// A command with the number of comments that its note had when it was planned: 0 where there was
/// no such note, and for one that opens a note.
#[derive(Drop)]
pub struct NotePlan {
    pub asked: NoteAsked,
    pub count: u64,
}

/// Where a plan and the notes differ: how many comments the note had when the command was planned,
/// and how many it has.
#[derive(Clone, Copy, Drop)]
pub struct NoteLook {
    pub id: u64,
    pub planned: u64,
    pub found: u64,
}
