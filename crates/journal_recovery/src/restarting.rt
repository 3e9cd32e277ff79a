//! Reading a file again, as a crash may have left it.
//!
//! Nothing goes on from a file before its whole text was judged anew. What is no journal's text is
//! left untouched, and so is what no crash leaves.
ghost use Rattle.std.specs.Prelude.{◌≡◌, ◌<◌, ℕ, false, List, All, IfOk, IfErr, OnOk, MatchResult, vec_len};
ghost use Rattle.journal_file.specs.Device.{Only, LeavesOnly};
ghost use Rattle.journal_file.specs.Whole.{text_of, IsText, BeginsWith};
ghost use Rattle.journal_file.specs.declared.faults.OpenFault.{OpenFault};
ghost use Rattle.journal_file.specs.Settled.{IsDamaged, Stands, Keeps};
ghost use Rattle.journal_recovery.specs.Restarts.{IsCause, StandsFor, LeavesSound};
ghost use Rattle.journal_recovery.specs.declared.restarting.RestartFault.{RestartFault};

use crate::faults::TextFault;
use crate::intake::take_in_all;
use crate::judging::EntryJudge;
use crate::reading::KeptText;
use journal_file::{AppendFault, Device, JournalFile, OpenFault, is_damaged, raw_text};
use std::alloc::Global;
use std::thread::Threads;

/// Why a file was not taken up again. All but a fault of its device leave it untouched.
#[derive(Clone, Copy, PartialEq, Eq)]
pub enum RestartFault {
    /// What stands behind its text is none that a crash leaves.
    Damaged,
    /// Its text is that of no journal.
    NoJournal,
    Memory,
    /// A call of its device failed.
    Failed,
}

impl From<TextFault> for RestartFault {
    ghost use Rattle.std.specs.Prelude.{◌≡◌};
    ghost use Rattle.journal_recovery.specs.Restarts.{fault_of};

    ghost from_gives = { λ fault told. told ≡ fault_of fault };

    fn from(fault: TextFault) -> RestartFault {
        match fault {
            TextFault::Memory => RestartFault::Memory,
            TextFault::NoJournal => RestartFault::NoJournal,
        }
    }
}

/// Reads the text that these bytes of a file stand for, and judges its entries.
fn read_text<
    R: Threads + Sync,
    E: Send + Sync + Drop,
    T: KeptText<E> + Send,
    S: EntryJudge<E> + Send,
>(rt: &R, alloc: Global, file: &[u8]) -> Result<S::Journal, RestartFault>
    ensures sound { OnOk result (IsDamaged file.now → ⊥) }
    ensures begins { OnOk result (BeginsWith T.header file.now) }
    ensures text { IfOk result (λ journal. text_of file.now ≡ T.text (S.entries journal)) }
    ensures legal { IfOk result (λ journal. S.is_legal (S.entries journal)) }
    ensures only { IfOk result (λ journal. (entries : List E) → All T.is_entry entries → text_of file.now ≡ T.text entries → S.entries journal ≡ entries) }
    ensures cause { IfErr result (λ fault. (faults : ℕ) → IsCause T.text T.is_entry S.is_legal fault file.now faults) }
{
    T::text_law();
    if is_damaged(file) {
        return Err(RestartFault::Damaged);
    }
    let Some(lines) = raw_text(file).strip_prefix(T::header()) else {
        return Err(RestartFault::NoJournal);
    };
    let journal = take_in_all::<R, E, T, S>(rt, alloc, lines)?;
    Ok(journal)
}

/// Opens the file that these bytes were read from, and seals it, so that it tells from then on where a
/// byte of its last batch is lost. One that is full goes on without.
fn open_sealed<D: Device>(
    device: D,
    file: &[u8],
    header: &[u8],
) -> Result<JournalFile<D>, (OpenFault, D)>
    requires read { file.now ≡ D.seen device }
    requires durable { Only (D.seen device) (D.may_leave device) }
    requires fine { D.faults device ≡ 0 }
    requires header { IsText header.now }
    ensures text { IfOk result (λ f. (f.text ≡ text_of file.now) × (f.broken ≡ false)) }
    ensures any_moment { IfOk result (λ f. LeavesOnly D.moment D.left_since device f.device (Keeps file.now)) }
    ensures any_moment_err { IfErr result (λ e. LeavesOnly D.moment D.left_since device e.1 (Keeps file.now)) }
    ensures foreign { IfErr result (λ e. e.0 ≡ OpenFault.Foreign → (e.1 ≡ device) × (BeginsWith header.now file.now → ⊥)) }
    ensures failed { IfErr result (λ e. e.0 ≡ OpenFault.Failed → D.faults device < D.faults e.1) }
{
    let mut open = match JournalFile::open(device, file, header) {
        Ok(open) => open,
        Err(refused) => return Err(refused),
    };
    match open.seal() {
        Ok(()) => Ok(open),
        Err(AppendFault::Full) => Ok(open),
        Err(AppendFault::Failed) => {
            open.law();
            Err((OpenFault::Failed, open.into_device()))
        }
    }
}

/// Takes up the file that these bytes were read from, as a crash may have left it: its entries are
/// read and judged anew, and the file is sealed and open to append behind them. An `Err` hands the
/// device back.
pub fn restart<
    R: Threads + Sync,
    D: Device,
    E: Send + Sync + Drop,
    T: KeptText<E> + Send,
    S: EntryJudge<E> + Send,
>(
    rt: &R,
    alloc: Global,
    device: D,
    file: &[u8],
) -> Result<(S::Journal, JournalFile<D>), (RestartFault, D)>
    requires read { file.now ≡ D.seen device }
    requires durable { Only (D.seen device) (D.may_leave device) }
    requires fine { D.faults device ≡ 0 }
    ensures text { IfOk result (λ r. r.1.text ≡ T.text (S.entries r.0)) }
    ensures same { IfOk result (λ r. r.1.text ≡ text_of file.now) }
    ensures fine { IfOk result (λ r. D.faults r.1.device ≡ 0) }
    ensures legal { IfOk result (λ r. S.is_legal (S.entries r.0)) }
    // Where the file stands for a journal, that is the one that is read.
    ensures only { IfOk result (λ r. (entries : List E) → All T.is_entry entries → text_of file.now ≡ T.text entries → S.entries r.0 ≡ entries) }
    ensures cause { IfErr result (λ e. IsCause T.text T.is_entry S.is_legal e.0 file.now (D.faults e.1)) }
    ensures stands { MatchResult result
        (λ r. StandsFor D.moment D.left_since r.1.device (text_of file.now))
        (λ e. StandsFor D.moment D.left_since e.1 (text_of file.now)) }
    // No crash of the call, or behind it, leaves a file that the next start refuses as damaged.
    ensures sound { MatchResult result
        (λ r. LeavesSound D.moment D.left_since r.1.device)
        (λ e. e.0 ≡ RestartFault.Failed → LeavesSound D.moment D.left_since e.1) }
    ensures any_moment { IfOk result (λ r. LeavesOnly D.moment D.left_since device r.1.device (Stands (text_of file.now))) }
    ensures any_moment_err { IfErr result (λ e. LeavesOnly D.moment D.left_since device e.1 (Keeps file.now)) }
    // What is refused for anything but a failed call of the device is as it was.
    ensures untouched { IfErr result (λ e. (e.0 ≡ RestartFault.Failed → ⊥) → e.1 ≡ device) }
{
    T::text_law();
    let journal = match read_text::<R, E, T, S>(rt, alloc, file) {
        Ok(journal) => journal,
        Err(fault) => return Err((fault, device)),
    };
    match open_sealed(device, file, T::header()) {
        Ok(open) => {
            open.law();
            Ok((journal, open))
        }
        Err((OpenFault::Foreign, device)) => Err((RestartFault::NoJournal, device)),
        Err((OpenFault::Failed, device)) => Err((RestartFault::Failed, device)),
    }
}
