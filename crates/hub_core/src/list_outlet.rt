//! An outlet in memory.
//!
//! An outlet in memory counts refused offers too, so that the list of numbers to be refused says
//! which offers of a run fail; the count stands still at the greatest number of 64 bits.
ghost use Rattle.std.specs.Prelude.{◌≡◌, [], MatchResult, OnErr};
ghost use Rattle.hub_core.specs.Outlets.{no_offer, counted, IsTaken, IsKept};

use crate::outlets::Outlet;
use osm_base::Memory;
use std::alloc::Global;
use std::marker::Model;

/// An outlet that holds what it is offered. Offers are counted from 0, those that are refused too;
/// an offer whose number is in a list is refused, as if memory ran out. An offer looks through that
/// list once, and takes memory for its entry alone.
#[derive(Drop)]
pub struct ListOutlet<E> {
    entries: Vec<E>,
    offers: u64,
    refused: Vec<u64>,
}

impl<E> Model for ListOutlet<E> {
    ghost use Rattle.hub_core.specs.Outlets.{Listed};

    ghost Value = { Listed E };

    ghost view = { λ o. record { held = o.entries.items; made = o.offers; bad = o.refused.items } };
}

impl<E: Drop> ListOutlet<E> {
    /// An outlet that holds nothing, and the numbers of the offers that it will refuse. It takes no
    /// memory.
    pub fn new(alloc: Global, bad: Vec<u64>) -> ListOutlet<E>
        ensures { result ≡ no_offer bad.items }
    {
        ListOutlet {
            entries: Vec::new(alloc),
            offers: 0,
            refused: bad,
        }
    }

    /// The entries, in the order of their offers.
    pub fn held(&self) -> &[E]
        ensures { result.now ≡ self.now.held }
    {
        self.entries.as_slice()
    }

    /// Lets go of all entries. The count of offers goes on.
    pub fn clear(&mut self)
        ensures { self.new ≡ record self.old { held = [] } }
    {
        self.entries.clear();
    }
}

impl<E: Drop> Outlet<E> for ListOutlet<E> {
    ghost use Rattle.std.proofs.Common.{Some, inl, refl, ap};
    ghost use Rattle.hub_core.specs.Outlets.{IsTaken, IsKept};
    ghost use mathlib.Core.Logic.{⊎_elim};

    ghost holds = { λ outlet. Some outlet.held };

    ghost welcomes = { λ outlet entry. Unit {0} };

    ghost offered = { λ before entry after. IsTaken before entry after };

    ghost kept = { λ before after. IsKept before after };

    fn offer(&mut self, entry: E) -> Result<(), Memory>
        ensures offers { MatchResult result (λ _. IsTaken self.old entry self.new) (λ _. IsKept self.old self.new) }
        ensures refused { OnErr result (self.new ≡ counted self.old) }
    {
        let number = self.offers;
        self.offers = number.saturating_add(1);
        if self.refused.contains(&number) {
            return Err(Memory);
        }
        self.entries.push(entry)?;
        Ok(())
    }

    ghost appends = { λ before entry after taken. ap (λ outlet. Some outlet.held) taken.0 };

    ghost holds_on = { λ before after left. ⊎_elim (λ same. ap (λ outlet. Some outlet.held) same)
        (λ counts. ap (λ outlet. Some outlet.held) counts) left };

    ghost keeps_itself = { λ outlet. inl refl };
}
