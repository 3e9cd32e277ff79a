//! What a target says besides its resource.
ghost use Rattle.std.specs.Prelude.{◌≡◌, IfOk, IfErr};
ghost use Rattle.route_table.specs.Calls.{id_in, version_in, key_in, IsPathNumber};

use crate::faults::RouteFault;
use osm_base::{Key, Kind, path_number};
use std::marker::Model;

/// What the braced parts of a path took, empty where it has none, and the query.
#[derive(Drop)]
pub struct Details<'a> {
    pub id: &'a [u8],
    pub version: &'a [u8],
    pub query: Option<&'a [u8]>,
}

impl<'a> Model for Details<'a> {
    ghost use Rattle.std.specs.Option.{option_copied};
    ghost use Rattle.route_table.specs.Details as spec;

    ghost Value = { spec.Details };

    ghost view = { λ d. record {
      id = d.id.now;
      version = d.version.now;
      query = option_copied d.query;
    } };
}

impl Details<'_> {
    /// The number of the part `{id}`.
    pub fn id(&self) -> Result<u64, RouteFault>
        ensures id { result ≡ id_in self.now }
        ensures number { IfOk result IsPathNumber }
        ensures fault { IfErr result (λ e. e ≡ RouteFault.BadNumber) }
    {
        path_number(self.id).ok_or(RouteFault::BadNumber)
    }

    /// The number of the part `{version}`.
    pub fn version(&self) -> Result<u64, RouteFault>
        ensures version { result ≡ version_in self.now }
        ensures number { IfOk result IsPathNumber }
        ensures fault { IfErr result (λ e. e ≡ RouteFault.BadNumber) }
    {
        path_number(self.version).ok_or(RouteFault::BadNumber)
    }

    /// The element of that kind with the number of the part `{id}`.
    pub fn key(&self, kind: Kind) -> Result<Key, RouteFault>
        ensures key { result ≡ key_in kind self.now }
        ensures number { IfOk result (λ key. IsPathNumber key.id) }
        ensures fault { IfErr result (λ e. e ≡ RouteFault.BadNumber) }
    {
        let id = self.id()?;
        Ok(Key { kind, id })
    }
}
