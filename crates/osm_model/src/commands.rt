//! What a user may ask to change, and what a journal keeps of it.
use osm_base::{Key, Memory, Stamp, Text, TryCopy, User};
use osm_change::{Change, OneOp};
use osm_element::Tags;
use std::alloc::Global;

/// What a user asks to change.
#[derive(Drop)]
pub enum Command {
    CreateChangeset {
        tags: Tags,
        /// The moment from which new changesets may make 50,000 changes, in seconds since 1970, as
        /// it was known when this one was created.
        large_from: Option<u64>,
    },
    Retag {
        changeset: u64,
        tags: Tags,
    },
    CloseChangeset {
        changeset: u64,
    },
    Upload {
        changeset: u64,
        change: Change,
    },
    Single {
        changeset: u64,
        change: OneOp,
    },
    MakeRedaction {
        title: Text,
    },
    Redact {
        key: Key,
        version: u64,
        redaction: u64,
    },
    Unredact {
        key: Key,
        version: u64,
    },
}

impl TryCopy for Command {
    fn copy(&self, alloc: Global) -> Result<Command, Memory> {
        match self {
            Command::CreateChangeset { tags, large_from } => Ok(Command::CreateChangeset {
                tags: tags.copy(alloc)?,
                large_from: *large_from,
            }),
            Command::Retag { changeset, tags } => Ok(Command::Retag {
                changeset: *changeset,
                tags: tags.copy(alloc)?,
            }),
            Command::CloseChangeset { changeset } => Ok(Command::CloseChangeset {
                changeset: *changeset,
            }),
            Command::Upload { changeset, change } => Ok(Command::Upload {
                changeset: *changeset,
                change: change.copy(alloc)?,
            }),
            Command::Single { changeset, change } => Ok(Command::Single {
                changeset: *changeset,
                change: change.copy(alloc)?,
            }),
            Command::MakeRedaction { title } => Ok(Command::MakeRedaction {
                title: title.copy(alloc)?,
            }),
            Command::Redact {
                key,
                version,
                redaction,
            } => Ok(Command::Redact {
                key: *key,
                version: *version,
                redaction: *redaction,
            }),
            Command::Unredact { key, version } => Ok(Command::Unredact {
                key: *key,
                version: *version,
            }),
        }
    }
}

/// An accepted command, as the journal keeps it. The calls of a session are counted from 1.
#[derive(Drop)]
pub struct Entry {
    pub session: u32,
    pub call: u64,
    pub user: User,
    pub stamp: Stamp,
    pub command: Command,
}

impl TryCopy for Entry {
    fn copy(&self, alloc: Global) -> Result<Entry, Memory> {
        let user = self.user.copy(alloc)?;
        let command = self.command.copy(alloc)?;
        Ok(Entry {
            session: self.session,
            call: self.call,
            user,
            stamp: self.stamp,
            command,
        })
    }
}
