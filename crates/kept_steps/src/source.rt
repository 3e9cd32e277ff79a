//! The list under the lock, as the source of the entries that a file lacks.
use durable_log::{Behind, SourceFault};
use shared_front::{Front, HubName};
use std::alloc::Global;
use std::sync::Wait;
use step_hub::{StepDesk, Stepped};

/// A desk of the list's hub, for as long as it is asked. It stays as it is.
#[derive(Drop)]
pub struct Source<'s, 'a, N: HubName, S: Stepped + Drop, R: Wait> {
    pub alloc: Global,
    pub desk: &'s StepDesk<'a, N, S, R>,
}

impl<'s, 'a, N: HubName, S: Stepped + Drop, R: Wait> Behind<N, S::Entry>
    for Source<'s, 'a, N, S, R> {
    ghost use Rattle.std.specs.Prelude.{⊤};

    ghost becomes = { λ _ _. ⊤ };

    ghost stays = { λ _. tt };

    fn behind(
        &mut self,
        front: &Front<N, S::Entry>,
    ) -> Result<(Vec<S::Entry>, Front<N, S::Entry>), SourceFault> {
        let Some(part) = self.desk.behind(self.alloc, front)? else {
            return Err(SourceFault::Mismatched);
        };
        Ok(part)
    }
}
