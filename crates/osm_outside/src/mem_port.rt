//! A port in memory.
ghost use Rattle.std.specs.Prelude.{◌≡◌, ◌≤◌, ◌↔◌, ◌++◌, ◌-◌, ◌∷◌, [], IsErr, IfOk, OnErr};
ghost use Rattle.osm_outside.specs.Told.{Rose};
ghost use Rattle.osm_outside.specs.Lent.{IsOut, take_back};
ghost use Rattle.osm_outside.specs.Port.{Accepts};
ghost use Rattle.osm_outside.specs.Memory.{IsBad, called, faulted, no_call, told_of};
ghost use Rattle.osm_outside.specs.MemPort.{port_told_of, TakesLink};

use crate::calls::Calls;
use crate::lent_links::LinksLent;
use crate::memory::MemLink;
use crate::outside::{Failed, Outside, Port, PortOutside};
use osm_base::Memory;
use std::alloc::Global;
use std::collections::VecDeque;
use std::marker::Model;

/// A port that hands out the links of a list, and keeps those that come back.
#[derive(Drop)]
pub struct MemPort {
    coming: VecDeque<MemLink>,
    served: Vec<MemLink>,
    accepts: Calls,
    lent: LinksLent,
}

impl Model for MemPort {
    ghost use Rattle.std.specs.Prelude.{◌+◌, ◌≤◌, vec_len, vec_capacity};
    ghost use Rattle.std.specs.VecDeque.{deque_len};
    ghost use Rattle.osm_outside.specs.MemPort.{PortState};

    ghost Value = { PortState };

    ghost view = { λ p. record {
      coming = p.coming.items;
      handed = p.lent.lent.handed;
      out = p.lent.lent.out;
      served = p.served.items;
      accepts = p.accepts;
    } };

    ghost invariant = { λ p. p.lent.lent.out + deque_len p.coming + vec_len p.served ≤ vec_capacity p.served };
}

impl MemPort {
    /// A port that hands out these links, in order. The accepts whose numbers are in `bad_accepts`, counted from 0, fail. No
    /// later call takes memory.
    pub fn new(alloc: Global, links: Vec<MemLink>, bad_accepts: Vec<u64>) -> Result<MemPort, Memory>
        ensures { IfOk result (λ port. port ≡ record {
          coming = links.items;
          handed = [];
          out = 0;
          served = [];
          accepts = no_call bad_accepts.items;
        }) }
    {
        Ok(MemPort {
            served: Vec::with_capacity(alloc, links.len())?,
            coming: VecDeque::from_vec(links),
            accepts: Calls::failing(bad_accepts),
            lent: LinksLent::new(),
        })
    }

    /// The links that came back, in order.
    pub fn served(&self) -> &[MemLink]
        ensures { result.now ≡ self.now.served }
    {
        self.served.as_slice()
    }
}

impl PortOutside for MemPort {
    ghost told = { port_told_of };
}

impl Port for MemPort {
    type Link = MemLink;

    fn accept(&mut self) -> Result<Option<MemLink>, Failed>
        ensures accepts { Accepts told_of (port_told_of self.old) (port_told_of self.new) result }
        ensures failed { IsErr result → Rose (port_told_of self.old).faults (port_told_of self.new).faults }
        ensures faults { (port_told_of self.old).faults ≤ (port_told_of self.new).faults }
        ensures fails { IsErr result ↔ IsBad self.old.accepts }
        ensures ok { IfOk result (TakesLink self.old self.new) }
        ensures err { OnErr result (self.new ≡ record self.old { accepts = faulted (called self.old.accepts) }) }
    {
        self.accepts.count_call()?;
        let Some(link) = self.coming.pop_front() else {
            return Ok(None);
        };
        self.lent = self.lent.handed(&link);
        Ok(Some(link))
    }

    fn done(&mut self, link: MemLink)
        requires { IsOut (port_told_of self.old).lent }
        ensures told { port_told_of self.new ≡ record (port_told_of self.old) {
          lent = take_back (port_told_of self.old).lent (told_of link);
        } }
        ensures port { self.new ≡ record self.old {
          served = self.old.served ++ link ∷ [];
          out = self.old.out - 1;
        } }
    {
        self.lent = self.lent.back(&link);
        self.served.push_reserved(link);
    }
}
