//! Why an input gave no journal.
use journal_text::JournalFault;
use osm_outside::Failed;
use std::alloc::{AllocError, AllocFailed};

/// Why an input gave no journal.
#[derive(Clone, Copy)]
pub enum InputFault {
    /// Reading failed.
    Failed,
    Text(JournalFault),
}

impl From<Failed> for InputFault {
    ghost use Rattle.std.specs.Prelude.{◌≡◌};
    ghost use Rattle.journal_input.specs.declared.faults.InputFault.{InputFault};

    ghost from_gives = { λ _ why. why ≡ InputFault.Failed };

    fn from(_failed: Failed) -> InputFault {
        InputFault::Failed
    }
}

impl From<JournalFault> for InputFault {
    ghost use Rattle.std.specs.Prelude.{◌≡◌};
    ghost use Rattle.journal_input.specs.declared.faults.InputFault.{InputFault};

    ghost from_gives = { λ fault why. why ≡ InputFault.Text fault };

    fn from(fault: JournalFault) -> InputFault {
        InputFault::Text(fault)
    }
}

impl From<AllocError> for InputFault {
    ghost use Rattle.std.specs.Prelude.{◌≡◌};
    ghost use Rattle.journal_input.specs.declared.faults.InputFault.{InputFault};
    ghost use Rattle.journal_text.specs.declared.faults.JournalFault.TheVariants as fault;

    ghost from_gives = { λ _ why. why ≡ InputFault.Text fault.Memory };

    fn from(_refused: AllocError) -> InputFault {
        InputFault::Text(JournalFault::Memory)
    }
}

impl<T: Drop> From<AllocFailed<T>> for InputFault {
    ghost use Rattle.std.specs.Prelude.{◌≡◌};
    ghost use Rattle.journal_input.specs.declared.faults.InputFault.{InputFault};
    ghost use Rattle.journal_text.specs.declared.faults.JournalFault.TheVariants as fault;

    ghost from_gives = { λ _ why. why ≡ InputFault.Text fault.Memory };

    fn from(_refused: AllocFailed<T>) -> InputFault {
        InputFault::Text(JournalFault::Memory)
    }
}
