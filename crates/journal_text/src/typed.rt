//! What the types of an entry say of it: laws, which cost at most a pass over its operations.
//!
//! That an entry is well typed is told when its line is written, by a pass over its operations,
//! which costs less than writing them; no fact is carried with each entry.
ghost use Rattle.std.specs.Prelude.{◌<◌, ◌^◌};
ghost use Rattle.osm_json.specs.Uploads.{HasRisingTags, IsChange};
ghost use Rattle.journal_text.specs.Line.{Fits64, FitsIfSome, IsCommand};

use osm_change::{Change, Op};
use osm_model::{Command, Entry};

fn operation_is_typed(operation: &Op)
    ensures { HasRisingTags operation.now }
{
    match operation {
        Op::Create { tags, .. } => tags.keys_rise(),
        Op::Modify { tags, .. } => tags.keys_rise(),
        Op::Delete { .. } => {}
    }
}

fn change_is_typed(change: &Change)
    ensures { IsChange change.now }
{
    let operations = change.operations();
    for operation in operations {
        operation_is_typed(operation);
    }
}

fn number_is_typed(number: Option<u64>)
    ensures { FitsIfSome number }
{
    match number {
        Some(_wide) => {}
        None => {}
    }
}

fn command_is_typed(command: &Command)
    ensures { IsCommand command.now }
{
    match command {
        Command::CreateChangeset { tags, large_from } => {
            tags.keys_rise();
            number_is_typed(*large_from);
        }
        Command::Retag { changeset, tags } => {
            let _wide = *changeset;
            tags.keys_rise();
        }
        Command::CloseChangeset { changeset } => {
            let _wide = *changeset;
        }
        Command::Upload { changeset, change } => {
            let _wide = *changeset;
            change_is_typed(change);
        }
        Command::Single { changeset, change } => {
            let _wide = *changeset;
            change_is_typed(change.change());
        }
        Command::MakeRedaction { .. } => {}
        Command::Redact {
            key,
            version,
            redaction,
        } => {
            let _id = key.id;
            let _version = *version;
            let _redaction = *redaction;
        }
        Command::Unredact { key, version } => {
            let _id = key.id;
            let _version = *version;
        }
    }
}

/// The numbers have their widths, the tags rise and the changes are well formed.
pub(crate) fn entry_is_typed(entry: &Entry)
    ensures session { entry.now.session < 2 ^ 32 }
    ensures call { Fits64 entry.now.call }
    ensures stamp { Fits64 entry.now.stamp }
    ensures user { Fits64 entry.now.user.id }
    ensures limit { FitsIfSome entry.now.user.limit }
    ensures command { IsCommand entry.now.command }
{
    let _session = entry.session;
    let _call = entry.call;
    let _stamp = entry.stamp.seconds();
    let _user = entry.user.id;
    number_is_typed(entry.user.limit);
    command_is_typed(&entry.command);
}
