//! The calls of the API.
ghost use Rattle.std.specs.Prelude.{◌≡◌, true, IfOk};
ghost use Rattle.route_table.specs.Calls.{call_at, changesets, map_call, one, history, numbered, redact};
ghost use Rattle.route_table.specs.Calls.{full, many, list_name, Gives, HasPathNumbers, has_parameters};

use crate::details::Details;
use crate::faults::RouteFault;
use crate::methods::Method;
use crate::parameters::{area, flag, needed_area, needed_ids, number};
use crate::resources::Resource;
use osm_base::{Box7, Ids, Key, Kind};
use std::alloc::Global;

/// What a request line asks for, one for each route. Ids and versions are from 1 to
/// 9,223,372,036,854,775,807.
#[derive(Drop)]
pub enum Call {
    CreateChangeset,
    Changeset {
        id: u64,
    },
    Retag {
        id: u64,
    },
    CloseChangeset {
        id: u64,
    },
    Upload {
        id: u64,
    },
    Download {
        id: u64,
    },
    Changesets {
        user: Option<u64>,
        only_open: bool,
        only_closed: bool,
        within: Option<Box7>,
    },
    /// With `at`, the map as it was at that stamp, in seconds since 1970.
    Map {
        within: Box7,
        at: Option<u64>,
    },
    MakeRedaction,
    CreateSingle {
        kind: Kind,
    },
    /// With `at`, the element as it was at that stamp.
    One {
        key: Key,
        at: Option<u64>,
    },
    ModifySingle {
        key: Key,
    },
    DeleteSingle {
        key: Key,
    },
    /// `show` asks for what only a moderator sees.
    History {
        key: Key,
        show: bool,
    },
    Numbered {
        key: Key,
        version: u64,
        show: bool,
    },
    /// Without a redaction the mark is taken off.
    Redact {
        key: Key,
        version: u64,
        redaction: Option<u64>,
    },
    RelationsOf {
        key: Key,
    },
    WaysOf {
        id: u64,
    },
    /// With `at`, the elements as they were at that stamp.
    Full {
        key: Key,
        at: Option<u64>,
    },
    Many {
        kind: Kind,
        ids: Ids,
    },
    /// How far the feed goes.
    FeedState,
    /// The piece of the feed with this number.
    FeedPiece {
        number: u64,
    },
}

/// The call of a resource by a method.
pub fn call_at(
    alloc: Global,
    resource: Resource,
    method: Method,
    details: &Details<'_>,
) -> Result<Call, RouteFault>
    ensures call { Gives (call_at resource method details.now) result }
    ensures numbers { IfOk result HasPathNumbers }
    ensures memory { result ≡ Err RouteFault.Memory → has_parameters resource method ≡ true }
{
    match method {
        Method::Get => get_call(alloc, resource, details),
        Method::Put => put_call(resource, details),
        Method::Post => post_call(alloc, resource, details),
        Method::Delete => delete_call(resource, details),
    }
}

#[tactic(auto, unfolding(crate::specs::Calls::call_at))]
fn get_call(alloc: Global, resource: Resource, details: &Details<'_>) -> Result<Call, RouteFault>
    ensures call { Gives (call_at resource Method.Get details.now) result }
    ensures numbers { IfOk result HasPathNumbers }
    ensures memory { result ≡ Err RouteFault.Memory → has_parameters resource Method.Get ≡ true }
{
    match resource {
        Resource::Changeset => Ok(Call::Changeset { id: details.id()? }),
        Resource::ChangesetDownload => Ok(Call::Download { id: details.id()? }),
        Resource::Changesets => changesets(alloc, details),
        Resource::Map => map_call(alloc, details),
        Resource::Element(kind) => one(alloc, kind, details),
        Resource::History(kind) => history(alloc, kind, details),
        Resource::Version(kind) => numbered(alloc, kind, details),
        Resource::Relations(kind) => Ok(Call::RelationsOf {
            key: details.key(kind)?,
        }),
        Resource::NodeWays => Ok(Call::WaysOf { id: details.id()? }),
        Resource::Full(kind) => full(alloc, kind, details),
        Resource::Elements(kind) => many(alloc, kind, details),
        Resource::FeedState => Ok(Call::FeedState),
        Resource::FeedPiece => Ok(Call::FeedPiece {
            number: details.id()?,
        }),
        _ => Err(RouteFault::WrongMethod),
    }
}

#[tactic(auto, unfolding(crate::specs::Calls::call_at))]
fn put_call(resource: Resource, details: &Details<'_>) -> Result<Call, RouteFault>
    ensures call { Gives (call_at resource Method.Put details.now) result }
    ensures numbers { IfOk result HasPathNumbers }
    ensures memory { result ≡ Err RouteFault.Memory → has_parameters resource Method.Put ≡ true }
{
    match resource {
        Resource::NewChangeset => Ok(Call::CreateChangeset),
        Resource::Changeset => Ok(Call::Retag { id: details.id()? }),
        Resource::ChangesetClosing => Ok(Call::CloseChangeset { id: details.id()? }),
        Resource::NewElement(kind) => Ok(Call::CreateSingle { kind }),
        Resource::Element(kind) => Ok(Call::ModifySingle {
            key: details.key(kind)?,
        }),
        _ => Err(RouteFault::WrongMethod),
    }
}

#[tactic(auto, unfolding(crate::specs::Calls::call_at))]
fn post_call(alloc: Global, resource: Resource, details: &Details<'_>) -> Result<Call, RouteFault>
    ensures call { Gives (call_at resource Method.Post details.now) result }
    ensures numbers { IfOk result HasPathNumbers }
    ensures memory { result ≡ Err RouteFault.Memory → has_parameters resource Method.Post ≡ true }
{
    match resource {
        Resource::ChangesetUpload => Ok(Call::Upload { id: details.id()? }),
        Resource::Redactions => Ok(Call::MakeRedaction),
        Resource::VersionRedaction(kind) => redact(alloc, kind, details),
        _ => Err(RouteFault::WrongMethod),
    }
}

#[tactic(auto, unfolding(crate::specs::Calls::call_at))]
fn delete_call(resource: Resource, details: &Details<'_>) -> Result<Call, RouteFault>
    ensures call { Gives (call_at resource Method.Delete details.now) result }
    ensures numbers { IfOk result HasPathNumbers }
    ensures memory { result ≡ Err RouteFault.Memory → has_parameters resource Method.Delete ≡ true }
{
    match resource {
        Resource::Element(kind) => Ok(Call::DeleteSingle {
            key: details.key(kind)?,
        }),
        _ => Err(RouteFault::WrongMethod),
    }
}

fn changesets(alloc: Global, details: &Details<'_>) -> Result<Call, RouteFault>
    ensures call { Gives (changesets details.now) result }
    ensures numbers { IfOk result HasPathNumbers }
{
    let query = details.query;
    let user = number(alloc, query, "user")?;
    let only_open = flag(alloc, query, "open")?;
    let only_closed = flag(alloc, query, "closed")?;
    let within = area(alloc, query, "bbox")?;
    Ok(Call::Changesets {
        user,
        only_open,
        only_closed,
        within,
    })
}

fn map_call(alloc: Global, details: &Details<'_>) -> Result<Call, RouteFault>
    ensures call { Gives (map_call details.now) result }
    ensures numbers { IfOk result HasPathNumbers }
{
    let within = needed_area(alloc, details.query, "bbox")?;
    let at = number(alloc, details.query, "at")?;
    Ok(Call::Map { within, at })
}

fn one(alloc: Global, kind: Kind, details: &Details<'_>) -> Result<Call, RouteFault>
    ensures call { Gives (one kind details.now) result }
    ensures numbers { IfOk result HasPathNumbers }
{
    let key = details.key(kind)?;
    let at = number(alloc, details.query, "at")?;
    Ok(Call::One { key, at })
}

fn full(alloc: Global, kind: Kind, details: &Details<'_>) -> Result<Call, RouteFault>
    ensures call { Gives (full kind details.now) result }
    ensures numbers { IfOk result HasPathNumbers }
{
    let key = details.key(kind)?;
    let at = number(alloc, details.query, "at")?;
    Ok(Call::Full { key, at })
}

fn history(alloc: Global, kind: Kind, details: &Details<'_>) -> Result<Call, RouteFault>
    ensures call { Gives (history kind details.now) result }
    ensures numbers { IfOk result HasPathNumbers }
{
    let key = details.key(kind)?;
    let show = flag(alloc, details.query, "show_redactions")?;
    Ok(Call::History { key, show })
}

fn numbered(alloc: Global, kind: Kind, details: &Details<'_>) -> Result<Call, RouteFault>
    ensures call { Gives (numbered kind details.now) result }
    ensures numbers { IfOk result HasPathNumbers }
{
    let key = details.key(kind)?;
    let version = details.version()?;
    let show = flag(alloc, details.query, "show_redactions")?;
    Ok(Call::Numbered { key, version, show })
}

fn redact(alloc: Global, kind: Kind, details: &Details<'_>) -> Result<Call, RouteFault>
    ensures call { Gives (redact kind details.now) result }
    ensures numbers { IfOk result HasPathNumbers }
{
    let key = details.key(kind)?;
    let version = details.version()?;
    let redaction = number(alloc, details.query, "redaction")?;
    Ok(Call::Redact {
        key,
        version,
        redaction,
    })
}

fn list_name(kind: Kind) -> &'static str
    ensures { result.now ≡ list_name kind }
{
    match kind {
        Kind::Node => "nodes",
        Kind::Way => "ways",
        Kind::Relation => "relations",
    }
}

fn many(alloc: Global, kind: Kind, details: &Details<'_>) -> Result<Call, RouteFault>
    ensures call { Gives (many kind details.now) result }
    ensures numbers { IfOk result HasPathNumbers }
{
    let ids = needed_ids(alloc, details.query, list_name(kind))?;
    Ok(Call::Many { kind, ids })
}
