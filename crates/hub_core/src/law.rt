//! The law of the core.
ghost use Rattle.std.specs.Prelude.{ℕ, List};
ghost use Rattle.hub_core.specs.declared.events.Event.{Event};
ghost use Rattle.hub_core.specs.Core.{core_after, core_step};
ghost use Rattle.hub_core.specs.Sound.{IsSound, Grows};

use machine_law::Machine;

/// After any events the core is sound, and the next event makes no length fall.
pub fn core_law<M: Machine>()
    ensures sound { (count : ℕ) (events : List (Event M.Command M.Query)) → IsSound M.rules (core_after M.rules count events) }
    ensures grows { (count : ℕ) (events : List (Event M.Command M.Query)) (event : Event M.Command M.Query)
        → Grows (core_after M.rules count events) (core_step M.rules (core_after M.rules count events) event) }
{}
