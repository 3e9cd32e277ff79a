//! A host in memory.
//!
//! What was handed out and taken back is told by every port and host, each link and each port as
//! it was then: the list is a value for contracts alone. Only the links to come stay optional,
//! since a listener doesn't know them. A number says how many are out; to take one back needs that
//! one is.
ghost use Rattle.std.specs.Prelude.{◌≡◌, ◌+◌, ◌-◌, ◌++◌, ◌∷◌, [], ◌↔◌, vec_len, map, IfOk, IfSome, OnErr, Err, take};
ghost use Rattle.osm_base.specs.declared.limits.TheConstants.{USERS_LIMIT};
ghost use Rattle.osm_outside.specs.Told.{Rose};
ghost use Rattle.osm_outside.specs.Lent.{IsOut, hand_out, take_back};
ghost use Rattle.osm_outside.specs.Host.{OnlyAsked, OnlyPorts};
ghost use Rattle.osm_outside.specs.Memory.{IsBad, called, faulted, no_call};
ghost use Rattle.osm_outside.specs.MemPort.{port_told_of};
ghost use Rattle.osm_outside.specs.MemHost.{FailsToListen, GivesPorts, asked_at, host_told_of, listened_at};

use crate::calls::Calls;
use crate::host_trace::HostTrace;
use crate::mem_port::MemPort;
use crate::outside::{Host, HostFault, PortOutside};
use osm_base::{Bytes, Memory, USERS_LIMIT};
use std::alloc::Global;
use std::marker::Model;
use std::mem;

/// A host with this users text, whatever the path, and with ports in memory, whatever the address. Contracts see what it
/// tells.
#[derive(Drop)]
pub struct MemHost {
    users: Bytes,
    ports: Vec<MemPort>,
    returned: Vec<MemPort>,
    trace: HostTrace,
    calls: Calls,
}

impl Model for MemHost {
    ghost use Rattle.std.specs.Prelude.{◌+◌, ◌≤◌, vec_len, vec_capacity};
    ghost use Rattle.osm_outside.specs.MemHost.{HostState};

    ghost Value = { HostState };

    ghost view = { λ h. record {
      text = h.users;
      paths = h.trace.asked.paths;
      addresses = h.trace.asked.addresses;
      ports = h.ports.items;
      handed = h.trace.asked.lent.handed;
      out = h.trace.asked.lent.out;
      returned = h.returned.items;
      calls = h.calls;
    } };

    ghost invariant = { λ h. h.trace.asked.lent.out + vec_len h.ports + vec_len h.returned ≤ vec_capacity h.returned };
}

impl MemHost {
    /// A host with this users text and these ports, which are handed out together. Its calls of `users` and `listen` are
    /// counted together from 0, and those whose numbers are in `bad_calls` fail. There is room for the ports to come back.
    pub fn new(
        alloc: Global,
        users: Bytes,
        ports: Vec<MemPort>,
        bad_calls: Vec<u64>,
    ) -> Result<MemHost, Memory>
        ensures { IfOk result (λ host. host ≡ record {
          text = users;
          paths = [];
          addresses = [];
          ports = ports.items;
          handed = [];
          out = 0;
          returned = [];
          calls = no_call bad_calls.items;
        }) }
    {
        Ok(MemHost {
            users,
            returned: Vec::with_capacity(alloc, ports.len())?,
            ports,
            trace: HostTrace::new(),
            calls: Calls::failing(bad_calls),
        })
    }

    /// The ports that came back, in order.
    pub fn returned(&self) -> &[MemPort]
        ensures { result.now ≡ self.now.returned }
    {
        self.returned.as_slice()
    }
}

impl Host for MemHost {
    ghost use Rattle.osm_outside.specs.declared.outside.HostFault.TheVariants as fault;

    type Port = MemPort;

    ghost told = { host_told_of };

    fn users(&mut self, alloc: Global, path: &str) -> Result<Bytes, HostFault>
        ensures text { IfOk result (λ bytes. IfSome (host_told_of self.old).users (λ text. bytes ≡ take (USERS_LIMIT + 1) text)) }
        ensures failed { result ≡ Err fault.Failed → Rose (host_told_of self.old).faults (host_told_of self.new).faults }
        ensures keeps { OnlyAsked path.now (host_told_of self.old) (host_told_of self.new) }
        ensures fails { (result ≡ Err fault.Failed) ↔ IsBad self.old.calls }
        ensures bad { IsBad self.old.calls → self.new ≡ asked_at self.old path.now (faulted (called self.old.calls)) }
        ensures good { ¬ IsBad self.old.calls → self.new ≡ asked_at self.old path.now (called self.old.calls) }
    {
        self.trace = self.trace.asked_for(path);
        if self.calls.count_call().is_err() {
            return Err(HostFault::Failed);
        }
        let text = first_bytes(self.users.as_slice(), USERS_LIMIT + 1);
        Ok(Bytes::of(alloc, text)?)
    }

    /// All the ports that it holds. It fails where these aren't as many as there are workers.
    fn listen(
        &mut self,
        alloc: Global,
        address: &str,
        workers: u32,
    ) -> Result<Vec<MemPort>, HostFault>
        ensures count { IfOk result (λ ports. vec_len ports ≡ workers) }
        ensures ports { IfOk result
            (λ ports. (host_told_of self.new).lent ≡ hand_out (host_told_of self.old).lent (map port_told_of ports.items)) }
        ensures failed { result ≡ Err fault.Failed → Rose (host_told_of self.old).faults (host_told_of self.new).faults }
        ensures err { OnErr result ((host_told_of self.new).lent ≡ (host_told_of self.old).lent) }
        ensures keeps { OnlyPorts address.now (host_told_of self.old) (host_told_of self.new) }
        ensures fails { (result ≡ Err fault.Failed) ↔ FailsToListen self.old workers }
        ensures gives { IfOk result (λ ports. GivesPorts address.now self.old self.new ports.items) }
        ensures stays { OnErr result (self.new ≡ listened_at self.old address.now (faulted (called self.old.calls))) }
    {
        self.trace = self.trace.listened_at(address);
        if self.calls.count_call().is_err() {
            return Err(HostFault::Failed);
        }
        if self.ports.len() != workers as usize {
            self.calls.fault();
            return Err(HostFault::Failed);
        }
        self.trace = self.trace.handed(self.ports.as_slice());
        Ok(mem::replace(&mut self.ports, Vec::new(alloc)))
    }

    fn back(&mut self, port: MemPort)
        requires { IsOut (host_told_of self.old).lent }
        ensures told { host_told_of self.new ≡ record (host_told_of self.old) {
          lent = take_back (host_told_of self.old).lent (port_told_of port);
        } }
        ensures host { self.new ≡ record self.old {
          returned = self.old.returned ++ port ∷ [];
          out = self.old.out - 1;
        } }
    {
        self.trace = self.trace.back(&port);
        self.returned.push_reserved(port);
    }
}

/// The first bytes of a text, or all of a shorter one.
fn first_bytes(text: &[u8], most: usize) -> &[u8]
    ensures { result.now ≡ take most text.now }
{
    &text[..text.len().min(most)]
}
