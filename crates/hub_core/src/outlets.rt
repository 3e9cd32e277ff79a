//! Where entries are offered as they are taken.
ghost use Rattle.std.specs.Prelude.{◌≡◌, Option, Some, List, MatchResult, IsOk};
ghost use Rattle.hub_core.specs.Outlets.{with_offer};

use osm_base::Memory;

/// Where a book offers each entry that it takes.
pub trait Outlet<E: Drop> {
    // What the outlet holds, in the order of the offers, where it can tell.
    ghost holds: { Self → Option (List E) };

    // Which entries may be offered.
    ghost welcomes: { Self → E → Type 0 };

    // What an offer that was taken does.
    ghost offered: { Self → E → Self → Type 0 };

    // What want of memory leaves of the outlet.
    ghost kept: { Self → Self → Type 0 };

    /// Adds an entry to what the outlet holds. `Memory` is the only error.
    fn offer(&mut self, entry: E) -> Result<(), Memory>
        requires { welcomes self.old entry }
        ensures { MatchResult result (λ _. offered self.old entry self.new) (λ _. kept self.old self.new) };

    // An offer that was taken stands behind what the outlet holds.
    ghost appends: { (before : Self) (entry : E) (after : Self) → offered before entry after → holds after ≡ with_offer (holds before) entry };

    // Want of memory leaves what the outlet holds.
    ghost holds_on: { (before after : Self) → kept before after → holds after ≡ holds before };

    // An outlet to which nothing was offered is kept.
    ghost keeps_itself: { (outlet : Self) → kept outlet outlet };
}

/// An outlet that takes each entry, holds none and takes no memory.
#[derive(Drop)]
pub struct NoOutlet;

impl<E: Drop> Outlet<E> for NoOutlet {
    ghost use Rattle.std.specs.Prelude.{None, refl};

    ghost holds = { λ outlet. None };

    ghost welcomes = { λ outlet entry. Unit {0} };

    ghost offered = { λ before entry after. Unit {0} };

    ghost kept = { λ before after. Unit {0} };

    fn offer(&mut self, _entry: E) -> Result<(), Memory>
        ensures { IsOk result }
    {
        Ok(())
    }

    ghost appends = { λ before entry after taken. refl };

    ghost holds_on = { λ before after left. refl };

    ghost keeps_itself = { λ outlet. tt };
}

/// An outlet that has the last entry that it was offered. It tells nothing of those before, and takes no
/// memory.
#[derive(Drop)]
pub struct LastOutlet<E> {
    pub last: Option<E>,
}

impl<E: Drop> Outlet<E> for LastOutlet<E> {
    ghost use Rattle.std.specs.Prelude.{◌≡◌, None, Some, refl};

    ghost holds = { λ outlet. None };

    ghost welcomes = { λ outlet entry. Unit {0} };

    ghost offered = { λ before entry after. after.last ≡ Some entry };

    ghost kept = { λ before after. after ≡ before };

    fn offer(&mut self, entry: E) -> Result<(), Memory>
        ensures ok { IsOk result }
        ensures last { self.new.last ≡ Some entry }
    {
        self.last = Some(entry);
        Ok(())
    }

    ghost appends = { λ before entry after taken. refl };

    ghost holds_on = { λ before after left. refl };

    ghost keeps_itself = { λ outlet. refl };
}
