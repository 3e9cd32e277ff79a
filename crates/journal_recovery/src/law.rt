//! What is kept is taken up again.
ghost use Rattle.std.specs.Prelude.{◌≡◌, ◌⊎◌, ℕ, List, All, take};
ghost use Rattle.durable_log.specs.Held.{Holds};
ghost use Rattle.journal_recovery.specs.Restarts.{IsCause};
ghost use Rattle.journal_recovery.specs.declared.restarting.RestartFault.{RestartFault};

use crate::judging::EntryJudge;
use crate::reading::KeptText;

/// A law: a file that holds entries, of which each beginning is legal, is refused by no start but for
/// want of memory or a failed call. So no crash leaves a file that isn't taken up again.
pub fn held_is_taken_up<E, T: KeptText<E>, S: EntryJudge<E>>()
    ensures { (least : ℕ) (entries : List E) (file : List ℕ) (fault : RestartFault) (faults : ℕ)
        → All T.is_entry entries → ((count : ℕ) → S.is_legal (take count entries)) → Holds T.text least entries file
        → IsCause T.text T.is_entry S.is_legal fault file faults → (fault ≡ RestartFault.Memory) ⊎ (fault ≡ RestartFault.Failed) }
{}
