//! The desk that answers, as the source of the entries that a file lacks.
ghost use Rattle.session_desk.specs.Answered.{AtDesk, StaysOrFreshens};

use durable_log::{Behind, SourceFault};
use machine_law::Machine;
use session_desk::SessionDesk;
use shared_front::{Front, HubName};
use snapshot_hub::Snapshot;
use std::marker::PhantomData;

/// A desk of a session of a hub, for as long as it is asked.
#[derive(Drop)]
pub struct Inner<'a, N: HubName, M: Machine, S: Snapshot<N, M>, D: SessionDesk<N, M, S>> {
    pub desk: &'a mut D,
    pub of: PhantomData<(N, M, S)>,
}

impl<'a, N: HubName, M: Machine, S: Snapshot<N, M>, D: SessionDesk<N, M, S>> Behind<N, M::Entry>
    for Inner<'a, N, M, S, D> {
    ghost use Rattle.std.specs.Prelude.{◌≡◌, refl};
    ghost use Rattle.kept_desk.specs.Kept.{stays};

    ghost becomes = { λ old new. (new.desk.ghost_name ≡ old.desk.ghost_name) × StaysOrFreshens M.rules (D.keeps old.desk.now) (D.keeps new.desk.now) };

    ghost stays = { λ source. (refl, stays M.rules (D.keeps source.desk.now)) };

    fn behind(
        &mut self,
        front: &Front<N, M::Entry>,
    ) -> Result<(Vec<M::Entry>, Front<N, M::Entry>), SourceFault> {
        let Some(entries) = self.desk.behind(front)? else {
            return Err(SourceFault::Mismatched);
        };
        let longer = self.desk.front().again();
        Ok((entries, longer))
    }
}
