//! What a call comes to: a query, work on the map or a call of the feed, by who may ask for it.
ghost use Rattle.std.specs.Prelude.{◌≡◌};
ghost use Rattle.api_desk.specs.Tasks.{mark, read_map, read_one, read_full, task_of, HasTaskNumbers};
ghost use Rattle.route_table.specs.Calls.{HasPathNumbers};

use crate::feed::FeedCall;
use osm_base::{Box7, Key, Kind};
use osm_model::Query;
use route_table::Call;

/// Work that a body may say more of (OpenStreetMap wiki, API v0.6).
#[derive(Clone, Copy)]
pub enum Edit {
    CreateChangeset {
        /// The moment from which new changesets may make 50,000 changes, in seconds since 1970.
        large_from: Option<u64>,
    },
    Retag {
        id: u64,
    },
    CloseChangeset {
        id: u64,
    },
    Upload {
        id: u64,
    },
    CreateSingle {
        kind: Kind,
    },
    ModifySingle {
        key: Key,
    },
    DeleteSingle {
        key: Key,
    },
    MakeRedaction,
    Redact {
        key: Key,
        version: u64,
        redaction: u64,
    },
    Unredact {
        key: Key,
        version: u64,
    },
}

/// A call, by who may make it.
#[derive(Drop)]
pub enum Task {
    /// Anybody may read who isn't taken for somebody whom the server doesn't know.
    Read(Query),
    /// Only a user may change the map.
    Change(Edit),
    /// Only a moderator may redact.
    Moderate(Edit),
    /// Anybody may ask how far the feed goes, and only a moderator for a piece of it.
    Follow(FeedCall),
}

/// Without a redaction the mark is taken off.
fn mark(key: Key, version: u64, redaction: Option<u64>) -> Task
    ensures { result ≡ mark key version redaction }
{
    Task::Moderate(match redaction {
        Some(redaction) => Edit::Redact {
            key,
            version,
            redaction,
        },
        None => Edit::Unredact { key, version },
    })
}

/// With a stamp it is the map as it was.
fn read_map(within: Box7, at: Option<u64>) -> Query
    ensures { result ≡ read_map within at }
{
    match at {
        Some(at) => Query::MapAt { within, at },
        None => Query::Map { within },
    }
}

/// With a stamp it is the element as it was.
fn read_one(key: Key, at: Option<u64>) -> Query
    ensures { result ≡ read_one key at }
{
    match at {
        Some(at) => Query::OneAt { key, at },
        None => Query::One { key },
    }
}

/// With a stamp it is the element as it was, with what it listed then.
fn read_full(key: Key, at: Option<u64>) -> Query
    ensures { result ≡ read_full key at }
{
    match at {
        Some(at) => Query::FullAt { key, at },
        None => Query::Full { key },
    }
}

/// What a call comes to. `sees` tells whether its caller may see what is redacted: the parameter
/// that asks for it counts for nobody else. `large_from` is the moment from which new changesets may
/// grow large.
pub fn task_of(call: Call, sees: bool, large_from: Option<u64>) -> Task
    ensures task { result ≡ task_of sees large_from call }
    ensures numbers { HasPathNumbers call → HasTaskNumbers result }
{
    match call {
        Call::CreateChangeset => Task::Change(Edit::CreateChangeset { large_from }),
        Call::Retag { id } => Task::Change(Edit::Retag { id }),
        Call::CloseChangeset { id } => Task::Change(Edit::CloseChangeset { id }),
        Call::Upload { id } => Task::Change(Edit::Upload { id }),
        Call::CreateSingle { kind } => Task::Change(Edit::CreateSingle { kind }),
        Call::ModifySingle { key } => Task::Change(Edit::ModifySingle { key }),
        Call::DeleteSingle { key } => Task::Change(Edit::DeleteSingle { key }),
        Call::MakeRedaction => Task::Moderate(Edit::MakeRedaction),
        Call::Redact {
            key,
            version,
            redaction,
        } => mark(key, version, redaction),
        Call::Changeset { id } => Task::Read(Query::Changeset { id }),
        Call::Changesets {
            user,
            only_open,
            only_closed,
            within,
        } => Task::Read(Query::Changesets {
            user,
            only_open,
            only_closed,
            within,
        }),
        Call::Download { id } => Task::Read(Query::Download { id }),
        Call::Map { within, at } => Task::Read(read_map(within, at)),
        Call::One { key, at } => Task::Read(read_one(key, at)),
        Call::Numbered { key, version, show } => Task::Read(Query::Numbered {
            key,
            version,
            show: show && sees,
        }),
        Call::History { key, show } => Task::Read(Query::History {
            key,
            show: show && sees,
        }),
        Call::Many { kind, ids } => Task::Read(Query::Many { kind, ids }),
        Call::Full { key, at } => Task::Read(read_full(key, at)),
        Call::WaysOf { id } => Task::Read(Query::WaysOf { id }),
        Call::RelationsOf { key } => Task::Read(Query::RelationsOf { key }),
        Call::FeedState => Task::Follow(FeedCall::State),
        Call::FeedPiece { number } => Task::Follow(FeedCall::Piece { number }),
    }
}
