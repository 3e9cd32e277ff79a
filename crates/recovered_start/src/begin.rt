//! The beginning of a run whose journal is kept in a file.
ghost use Rattle.std.specs.Prelude.{◌≡◌, ◌≤◌, ℕ, List, length, map, vec_len, IfOk, MatchResult};
ghost use Rattle.osm_outside.specs.Told.{Told};
ghost use Rattle.journal_host.specs.Told.{JournalsTold};
ghost use Rattle.durable_log.specs.Held.{HoldsFrom};
ghost use Rattle.journal_recovery.specs.TakenUp.{TakesUp};
ghost use Rattle.recovered_start.specs.Run.{BeginsKept, BeginsNone, LacksServed, exit_of_untaken};

use crate::journals::KeptJournal;
use journal_file::{Device, DiskFault, JournalFile};
use journal_host::Journals;
use journal_recovery::{RestartFault, Untaken, take_up};
use osm_outside::{Host, Outside, PortOutside};
use server_frame::{Exit, Listening, accept_users, listen};
use std::alloc::Global;
use std::thread::Threads;
use user_table::UserTable;

/// What serving goes on from: a journal that was taken up, the file that it is kept in, the users, and
/// the ports that were opened.
pub struct Begun<Y, V: Device, P> {
    pub journal: Y,
    pub file: JournalFile<V>,
    pub users: UserTable,
    pub ports: Vec<P>,
}

/// How a program ends by why no journal was taken up.
fn exit_of(why: Untaken) -> Exit
    ensures { result ≡ exit_of_untaken why }
{
    match why {
        Untaken::NoFile(DiskFault::Memory) | Untaken::Refused(RestartFault::Memory) => {
            Exit::NoMemory
        }
        Untaken::NoFile(DiskFault::Missing | DiskFault::Unfit | DiskFault::Busy | DiskFault::Failed)
        | Untaken::Refused(RestartFault::Failed) => Exit::NotRead,
        Untaken::Refused(RestartFault::Damaged | RestartFault::NoJournal) => Exit::JournalRefused,
    }
}

/// Takes up the journal in the file at that path. Where it can't, or where links aren't served on from
/// such a journal, the file is given back, and the error is how the program ends.
fn take_up_fit<R: Threads + Sync, E: Send + Sync + Drop, S: KeptJournal<E> + Send, J: Journals>(
    rt: &R,
    alloc: Global,
    path: &str,
    journals: &mut J,
) -> Result<(S::Journal, JournalFile<J::File>), Exit>
    ensures taken { MatchResult result
        (λ taken. TakesUp S.Text.text S.Text.is_entry S.is_legal path.now (J.told journals.old) (J.told journals.new) (S.entries taken.0))
        (λ exit. LacksServed J.File.moment J.File.left_since J.File.faults S.Text.text S.Text.is_entry S.is_legal S.fits
        path.now (J.told journals.old) (J.told journals.new) exit) }
    ensures text { IfOk result (λ taken. taken.1.text ≡ S.Text.text (S.entries taken.0)) }
    ensures fine { IfOk result (λ taken. J.File.faults taken.1.device ≡ 0) }
    ensures holds { IfOk result (λ taken. HoldsFrom S.Text.text J.File.left_since taken.1.device (J.File.moment taken.1.device) (length (S.entries taken.0)) (S.entries taken.0)) }
    ensures fits { IfOk result (λ taken. S.fits (S.entries taken.0)) }
{
    let (journal, file) = match take_up::<R, J, E, S::Text, S>(rt, alloc, path, journals) {
        Ok(taken) => taken,
        Err(why) => return Err(exit_of(why)),
    };
    if S::fits(&journal) {
        return Ok((journal, file));
    }
    let device = file.into_device();
    journals.back(device);
    Err(Exit::JournalRefused)
}

/// Reads the users of the text at their path, takes up the journal in the file at that one, and opens
/// so many ports at that address. Where there are no users, no file is asked for; where there are no
/// ports, the file is given back with the whole journal. The error is how the program ends. The standard link is left alone.
pub fn begin_kept<
    R: Threads + Sync,
    E: Send + Sync + Drop,
    S: KeptJournal<E> + Send,
    H: Host,
    J: Journals,
>(
    rt: &R,
    alloc: Global,
    users: &str,
    listening: Listening<'_>,
    path: &str,
    host: &mut H,
    journals: &mut J,
) -> Result<Begun<S::Journal, J::File, H::Port>, Exit>
    ensures begins { MatchResult result
        (λ begun. BeginsKept S.Text.text S.Text.is_entry S.is_legal S.fits users.now listening.entry.address.now listening.entry.workers path.now
        (J.told journals.old) (J.told journals.new) (H.told host.old) (H.told host.new) (S.entries begun.journal) begun.users (map H.Port.told begun.ports.items))
        (λ exit. (link : Told) → BeginsNone J.File.moment J.File.left_since J.File.faults S.Text.text S.Text.is_entry S.is_legal S.fits
        users.now listening.entry.address.now path.now (J.told journals.old) (J.told journals.new) (H.told host.old) (H.told host.new) link link exit) }
    ensures text { IfOk result (λ begun. begun.file.text ≡ S.Text.text (S.entries begun.journal)) }
    ensures fine { IfOk result (λ begun. J.File.faults begun.file.device ≡ 0) }
    ensures holds { IfOk result (λ begun. HoldsFrom S.Text.text J.File.left_since begun.file.device (J.File.moment begun.file.device) (length (S.entries begun.journal)) (S.entries begun.journal)) }
    ensures fits { IfOk result (λ begun. S.fits (S.entries begun.journal)) }
    ensures count { IfOk result (λ begun. vec_len begun.ports ≡ listening.entry.workers) }
    ensures out { IfOk result (λ begun. vec_len begun.ports ≤ (H.told host.new).lent.out) }
{
    let users = match accept_users(alloc, users, host) {
        Ok(users) => users,
        Err(exit) => return Err(exit),
    };
    let (journal, file) = match take_up_fit::<R, E, S, J>(rt, alloc, path, journals) {
        Ok(taken) => taken,
        Err(exit) => return Err(exit),
    };
    match listen(alloc, listening, host) {
        Ok(ports) => Ok(Begun {
            journal,
            file,
            users,
            ports,
        }),
        Err(exit) => {
            let device = file.into_device();
            journals.back(device);
            Err(exit)
        }
    }
}
