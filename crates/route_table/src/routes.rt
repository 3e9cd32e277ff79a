//! The table of routes.
//!
//! Which path a target has is what the search of `matchit` finds over the table of paths, and the
//! parts of a path are those of its match. So `node/1/full` is read as a version, and is a bad
//! number.
ghost use Rattle.std.specs.Prelude.{◌≡◌, [], slice_index_or, Some, None, MatchOption, IfOk, IsAscii};
ghost use Rattle.std.specs.Option.{option_copied};
ghost use Rattle.matchit.specs.Router.{RouteOf};
ghost use Rattle.route_table.specs.declared.resources.Resource.{Resource};
ghost use Rattle.route_table.specs.Paths.{route_at};
ghost use Rattle.route_table.specs.Details.{details_of, taken_by};
ghost use Rattle.route_table.specs.Calls.{call_of, Gives, HasPathNumbers, IsParametric};

use crate::calls::{Call, call_at};
use crate::details::Details;
use crate::faults::RouteFault;
use crate::methods::method_of;
use crate::resources::{Resource, paths};
use crate::targets::{path_of, query_of};
use matchit::{Params, Router};
use osm_base::Memory;
use std::alloc::Global;
use std::marker::Model;

/// The routes of the API. It is made once, and tells the call of each request line.
#[derive(Drop)]
pub struct Routes {
    router: Router<Resource>,
}

impl Model for Routes {
    ghost use Rattle.std.specs.Prelude.{◌≡◌};
    ghost use Rattle.route_table.specs.Paths.{routes};

    ghost Value = { Unit {0} };

    ghost view = { λ _. tt };

    ghost invariant = { λ r. r.router ≡ routes };
}

/// A resource that was found, and what the path and the query say besides.
#[derive(Drop)]
struct Found<'a> {
    resource: Resource,
    details: Details<'a>,
}

impl Routes {
    /// The table of all routes. `Memory` is the only error.
    pub fn new(alloc: Global) -> Result<Routes, Memory> {
        let mut router = Router::new(alloc);
        for (path, resource) in paths() {
            match router.insert(path, *resource) {
                Ok(()) => {}
                Err(_) => return Err(Memory),
            }
        }
        Ok(Routes { router })
    }

    /// The call of a request line, or the first cause for which there is none. It depends on the
    /// method and the target alone.
    #[tactic(auto, unfolding(crate::specs::Calls::call_of))]
    pub fn route(&self, alloc: Global, method: &[u8], target: &[u8]) -> Result<Call, RouteFault>
        ensures call { Gives (call_of method.now target.now) result }
        ensures numbers { IfOk result HasPathNumbers }
        ensures memory { result ≡ Err RouteFault.Memory → IsParametric method.now target.now }
    {
        let path = path_of(target).ok_or(RouteFault::NoPath)?;
        let query = query_of(target);
        let found = self.find(path, query).ok_or(RouteFault::NoPath)?;
        let method = method_of(method).ok_or(RouteFault::WrongMethod)?;
        call_at(alloc, found.resource, method, &found.details)
    }

    fn find<'a>(&self, path: &'a str, query: Option<&'a [u8]>) -> Option<Found<'a>>
        requires { IsAscii path.now }
        ensures { MatchOption result (route_at path.now ≡ None) (λ found. (route : RouteOf Resource)
            × (route_at path.now ≡ Some route) × (found.resource ≡ route.value)
            × (found.details ≡ details_of route path.now (option_copied query.entry))) }
    {
        match self.router.at(path) {
            Ok(found) => {
                let (id, version) = parts_of(&found.params);
                Some(Found {
                    resource: *found.value,
                    details: Details { id, version, query },
                })
            }
            Err(_) => None,
        }
    }
}

/// What the first braced part of a path took, and the second. It is empty where there is none.
fn parts_of<'a>(params: &Params<'_, 'a>) -> (&'a [u8], &'a [u8])
    requires { IsAscii params.now.path.now }
    ensures id { result.0.now ≡ slice_index_or (taken_by params.now) 0 [] }
    ensures version { result.1.now ≡ slice_index_or (taken_by params.now) 1 [] }
{
    let mut parts = params.iter();
    let Some((_, id)) = parts.next() else {
        return (&[], &[]);
    };
    match parts.next() {
        Some((_, version)) => (id.as_bytes(), version.as_bytes()),
        None => (id.as_bytes(), &[]),
    }
}
