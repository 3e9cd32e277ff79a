//! The server of notes whose journal is kept in a file, as what a program runs.
ghost use Rattle.std.specs.Prelude.{◌≡◌, ◌<◌, ◌≤◌, [], ◌++◌, List, length, map, vec_len, IfErr, OnOk};
ghost use Rattle.osm_base.specs.declared.limits.TheConstants.{SESSION_LIMIT};
ghost use Rattle.durable_log.specs.Held.{HoldsFrom};
ghost use Rattle.journal_recovery.specs.Judged.{IsFollowed};
ghost use Rattle.journal_recovery.specs.declared.faults.TextFault.{TextFault};
ghost use Rattle.notes_text.specs.Text.{text_of, IsLegal};
ghost use Rattle.notes_core.specs.Machine.{note_rules};
ghost use Rattle.notes_core.specs.World.{Parts};
ghost use Rattle.notes_core.specs.declared.commands.NoteEntry.{NoteEntry};
ghost use Rattle.snapshot_hub.specs.Closings.{AreSeated};
ghost use Rattle.notes_kept.specs.Followed.{HasFollowed};
ghost use Rattle.notes_kept.specs.Run.{RunsServeNotesKept, ServesFrom};

use crate::lines::NoteLines;
use crate::ports::serve_kept_ports;
use hub_core::CountedJournal;
use journal_file::{Device, JournalFile};
use journal_host::Journals;
use journal_recovery::{EntryJudge, TextFault};
use kept_serve::{has_seats, seats_for};
use link_workers::Outcome;
use machine_law::Machine;
use notes_core::{NoteEntry, NotesMachine, NotesWorld};
use osm_outside::{Host, Link, Outside, Port, PortOutside};
use recovered_start::{Begun, KeptJournal, begin_kept};
use server_frame::{Exit, Listening, close_ports};
use shared_front::Opened;
use snapshot_hub::{Twins, follow_all, push_all};
use std::alloc::Global;
use std::marker::Brand;
use std::sync::Wait;
use std::thread::Threads;
use user_table::UserTable;

/// How the journal of notes is taken up.
pub struct NotesJournal;

impl EntryJudge<NoteEntry> for NotesJournal {
    ghost use Rattle.notes_text.specs.Text.{IsLegal};
    ghost use Rattle.notes_kept.specs.Followed.{HasFollowed};

    type World = NotesWorld;

    type Kept = CountedJournal<NotesMachine>;

    type Journal = Twins<NotesMachine>;

    ghost entries = { λ twins. twins };

    ghost keeps = { λ journal. journal };

    ghost is_legal = { IsLegal };

    ghost follows = { HasFollowed };

    fn begin(alloc: Global) -> NotesWorld
        ensures { HasFollowed result [] }
    {
        NotesMachine::empty(alloc)
    }

    fn none(alloc: Global) -> CountedJournal<NotesMachine> {
        CountedJournal::new(alloc)
    }

    fn follow(alloc: Global, world: NotesWorld, part: &[NoteEntry]) -> Result<NotesWorld, TextFault>
        ensures { (before : List NoteEntry) → HasFollowed world before → IsFollowed HasFollowed IsLegal (before ++ part.now) result }
    {
        match follow_all::<NotesMachine>(alloc, world, part)? {
            Some(world) => Ok(world),
            None => Err(TextFault::NoJournal),
        }
    }

    fn keep(
        _alloc: Global,
        kept: &mut CountedJournal<NotesMachine>,
        part: Vec<NoteEntry>,
    ) -> Result<(), TextFault>
        requires { (world : Parts) × HasFollowed world (kept.old ++ part.items) }
        ensures kept { OnOk result (kept.new ≡ kept.old ++ part.items) }
        ensures refused { IfErr result (λ fault. fault ≡ TextFault.NoJournal → (more : List NoteEntry) → IsLegal ((kept.old ++ part.items) ++ more) → ⊥) }
    {
        if !push_all(kept, part)? {
            return Err(TextFault::NoJournal);
        }
        Ok(())
    }

    fn journal_of(
        kept: CountedJournal<NotesMachine>,
        first: NotesWorld,
        second: NotesWorld,
    ) -> Twins<NotesMachine>
        requires first { HasFollowed first kept }
        requires second { HasFollowed second kept }
        ensures kept { result ≡ kept }
        ensures legal { IsLegal kept }
    {
        let _entries = kept.journal();
        Twins::of(kept, first, second)
    }
}

impl KeptJournal<NoteEntry> for NotesJournal {
    ghost use Rattle.osm_base.specs.declared.limits.TheConstants.{SESSION_LIMIT};
    ghost use Rattle.notes_core.specs.Machine.{note_rules};
    ghost use Rattle.snapshot_hub.specs.Closings.{AreSeated};

    type Text = NoteLines;

    ghost fits = { AreSeated note_rules.tag_of SESSION_LIMIT };

    fn fits(journal: &Twins<NotesMachine>) -> bool {
        has_seats::<NotesMachine>(journal.journal())
    }
}

/// Serves the links of each port by a session of a hub that goes on from the journal of those twins.
fn serve_handed<V: Device + Drop + Send, R: Threads + Wait + Sync, P: Port + Drop + Send>(
    rt: &R,
    alloc: Global,
    users: &UserTable,
    twins: Twins<NotesMachine>,
    file: JournalFile<V>,
    ports: &mut Vec<P>,
) -> (Outcome, V)
    requires some { 0 < vec_len ports.old }
    requires few { vec_len ports.old ≤ SESSION_LIMIT }
    requires seated { AreSeated note_rules.tag_of SESSION_LIMIT twins }
    requires text { file.text ≡ text_of twins }
    requires holds { HoldsFrom text_of V.left_since file.device (V.moment file.device) (length twins) twins }
    requires fine { V.faults file.device ≡ 0 }
    ensures serves { ServesFrom V.seen V.moment V.left_since V.faults twins result.1 users.now
        (map P.told ports.old.items) (map P.told ports.new.items) result.0 }
    ensures count { vec_len ports.new ≡ vec_len ports.old }
{
    let seats = seats_for::<NotesMachine>(twins.journal(), ports.len());
    let receipts = Opened::new();
    serve_kept_ports::<Brand, Brand, NoteLines, V, R, P>(
        rt, alloc, seats, receipts, twins, file, users, ports,
    )
}

/// Reads the users of the text at their path, takes up the journal in the file at that one, and serves
/// the links of ports at that address. A reply is sent only once the file holds what it tells of.
pub fn run_serve_notes_kept<H: Host, J: Journals, R: Threads + Wait + Sync, L: Link>(
    rt: &R,
    alloc: Global,
    users: &str,
    listening: Listening<'_>,
    path: &str,
    host: &mut H,
    journals: &mut J,
    standard: &L,
) -> Exit
    requires some { 0 < listening.workers }
    requires few { listening.workers ≤ SESSION_LIMIT }
    ensures { RunsServeNotesKept J.File.seen J.File.moment J.File.left_since J.File.faults users.now listening.entry.address.now listening.entry.workers path.now
        (J.told journals.old) (J.told journals.new) (H.told host.old) (H.told host.new) (L.told standard.now) (L.told standard.now) result }
{
    match begin_kept::<R, NoteEntry, NotesJournal, H, J>(
        rt, alloc, users, listening, path, host, journals,
    ) {
        Ok(begun) => {
            let Begun {
                journal,
                file,
                users,
                mut ports,
            } = begun;
            let (outcome, device) = serve_handed(rt, alloc, &users, journal, file, &mut ports);
            journals.back(device);
            close_ports(host, ports, outcome)
        }
        Err(exit) => exit,
    }
}
