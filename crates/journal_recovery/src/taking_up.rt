//! Taking up the journal that the file at a path holds.
ghost use Rattle.std.specs.Prelude.{◌≡◌, IfOk, MatchResult};
ghost use Rattle.journal_recovery.specs.Restarts.{StandsFor, LeavesSound};
ghost use Rattle.journal_recovery.specs.TakenUp.{TakesUp, LacksJournal};

use crate::judging::EntryJudge;
use crate::reading::KeptText;
use crate::restarting::{RestartFault, restart};
use journal_file::{DiskFault, JournalFile};
use journal_host::Journals;
use std::alloc::Global;
use std::thread::Threads;

/// Why no journal was taken up.
#[derive(Drop)]
pub enum Untaken {
    /// No file was given.
    NoFile(DiskFault),
    /// A file was given, and was refused.
    Refused(RestartFault),
}

/// Takes up the journal in the file at that path, whose entries are read and judged anew. Where it
/// can't, the file is given back, as it was where none of its calls failed, and the error says why.
pub fn take_up<
    R: Threads + Sync,
    J: Journals,
    E: Send + Sync + Drop,
    T: KeptText<E> + Send,
    S: EntryJudge<E> + Send,
>(
    rt: &R,
    alloc: Global,
    path: &str,
    journals: &mut J,
) -> Result<(S::Journal, JournalFile<J::File>), Untaken>
    ensures taken { MatchResult result
        (λ r. TakesUp T.text T.is_entry S.is_legal path.now (J.told journals.old) (J.told journals.new) (S.entries r.0))
        (λ why. LacksJournal J.File.moment J.File.left_since J.File.faults T.text T.is_entry S.is_legal
        path.now (J.told journals.old) (J.told journals.new) why) }
    ensures text { IfOk result (λ r. r.1.text ≡ T.text (S.entries r.0)) }
    ensures fine { IfOk result (λ r. J.File.faults r.1.device ≡ 0) }
    ensures stands { IfOk result (λ r. StandsFor J.File.moment J.File.left_since r.1.device r.1.text) }
    ensures sound { IfOk result (λ r. LeavesSound J.File.moment J.File.left_since r.1.device) }
{
    let (device, bytes) = match journals.lend(alloc, path, T::header()) {
        Ok(lent) => lent,
        Err(fault) => return Err(Untaken::NoFile(fault)),
    };
    match restart::<R, J::File, E, T, S>(rt, alloc, device, &bytes) {
        Ok(taken) => Ok(taken),
        Err((fault, device)) => {
            journals.back(device);
            Err(Untaken::Refused(fault))
        }
    }
}
