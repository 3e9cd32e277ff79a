//! A mirror whose entries are kept in a file, as what a program runs.
ghost use Rattle.std.specs.Prelude.{◌≡◌, ◌++◌, ⊤, List, length, map, vec_len, IfErr, OnOk};
ghost use Rattle.journal_text.specs.Text.{text_of};
ghost use Rattle.durable_log.specs.Held.{HoldsFrom};
ghost use Rattle.journal_recovery.specs.declared.faults.TextFault.{TextFault};
ghost use Rattle.osm_model.specs.Journal.{IsLegal};
ghost use Rattle.osm_model.specs.declared.commands.Entry.{Entry};
ghost use Rattle.mirror_serve.specs.Run.{RunsListenKept, mirrors_kept};

use crate::kept_ports::{Taken, mirror_kept_ports};
use entry_file::{EntryLines, keep_all};
use journal_file::{Device, JournalFile};
use journal_follower::Follower;
use journal_host::Journals;
use journal_recovery::{EntryJudge, TextFault};
use link_workers::Outcome;
use map_machine::BookKeeper;
use mirror_desk::MirrorSetting;
use osm_model::Entry;
use osm_outside::{Host, Link, Outside, Port, PortOutside};
use recovered_start::{Begun, KeptJournal, begin_kept};
use server_frame::{Exit, Listening, close_ports};
use shared_front::Opened;
use std::alloc::Global;
use std::marker::Brand;
use std::sync::Wait;
use std::thread::Threads;
use user_table::UserTable;

/// How the entries of a mirror are taken up.
pub struct MirrorJournal;

impl EntryJudge<Entry> for MirrorJournal {
    ghost use Rattle.std.specs.Prelude.{⊤};
    ghost use Rattle.osm_model.specs.Journal.{IsLegal};

    /// A mirror has one copy, and the keeper that tests the entries is it.
    type World = ();

    type Kept = BookKeeper;

    type Journal = Follower;

    ghost entries = { λ follower. follower };

    ghost keeps = { λ keeper. keeper };

    ghost is_legal = { λ entries. IsLegal entries };

    ghost follows = { λ _ _. ⊤ };

    fn begin(_alloc: Global) {}

    fn none(alloc: Global) -> BookKeeper {
        BookKeeper::new(alloc)
    }

    fn follow(_alloc: Global, _world: (), _part: &[Entry]) -> Result<(), TextFault> {
        Ok(())
    }

    fn keep(alloc: Global, kept: &mut BookKeeper, part: Vec<Entry>) -> Result<(), TextFault>
        requires { (world : Unit {0}) × ⊤ }
        ensures kept { OnOk result (kept.new ≡ kept.old ++ part.items) }
        ensures refused { IfErr result (λ fault. fault ≡ TextFault.NoJournal → (more : List Entry) → IsLegal ((kept.old ++ part.items) ++ more) → ⊥) }
    {
        keep_all(alloc, part, kept)
    }

    fn journal_of(kept: BookKeeper, _first: (), _second: ()) -> Follower
        ensures kept { result ≡ kept }
        ensures legal { IsLegal kept }
    {
        let _book = kept.book();
        Follower::of(kept)
    }
}

impl KeptJournal<Entry> for MirrorJournal {
    ghost use Rattle.std.specs.Prelude.{⊤};

    type Text = EntryLines;

    ghost fits = { λ _. ⊤ };

    fn fits(_journal: &Follower) -> bool {
        true
    }
}

/// Serves the links of each port by a mirror that goes on from that file.
fn serve_handed<V: Device + Drop + Send, R: Threads + Wait + Sync, P: Port + Drop + Send>(
    rt: &R,
    alloc: Global,
    users: UserTable,
    until_level: Option<u32>,
    taken: Taken<V>,
    ports: &mut Vec<P>,
) -> (Outcome, V)
    requires text { taken.file.text ≡ text_of taken.follower }
    requires holds { HoldsFrom text_of V.left_since taken.file.device (V.moment taken.file.device) (length taken.follower) taken.follower }
    requires fine { V.faults taken.file.device ≡ 0 }
    ensures serves { mirrors_kept V.seen V.moment V.left_since V.faults until_level taken.follower result.1 users
        (map P.told ports.old.items) (map P.told ports.new.items) result.0 }
    ensures count { vec_len ports.new ≡ vec_len ports.old }
{
    let setting = MirrorSetting::of(users, until_level);
    let opened = Opened::new();
    let receipts = Opened::new();
    mirror_kept_ports::<Brand, Brand, V, R, P>(
        rt,
        alloc,
        taken,
        opened,
        receipts,
        &setting,
        until_level,
        ports,
    )
}

/// Reads the users of the text at their path, takes up the entries in the file at that one, and serves
/// the links of ports at that address, with a limit to how long the mirror counts as level, in seconds,
/// or none. A reply is sent only once the file holds what it tells of.
pub fn run_listen_kept<H: Host, J: Journals, R: Threads + Wait + Sync, L: Link>(
    rt: &R,
    alloc: Global,
    users: &str,
    listening: Listening<'_>,
    path: &str,
    until_level: Option<u32>,
    host: &mut H,
    journals: &mut J,
    standard: &L,
) -> Exit
    ensures { RunsListenKept J.File.seen J.File.moment J.File.left_since J.File.faults until_level users.now listening.entry.address.now listening.entry.workers path.now
        (J.told journals.old) (J.told journals.new) (H.told host.old) (H.told host.new) (L.told standard.now) (L.told standard.now) result }
{
    match begin_kept::<R, Entry, MirrorJournal, H, J>(
        rt, alloc, users, listening, path, host, journals,
    ) {
        Ok(begun) => {
            let Begun {
                journal,
                file,
                users,
                mut ports,
            } = begun;
            let taken = Taken {
                follower: journal,
                file,
            };
            let (outcome, device) = serve_handed(rt, alloc, users, until_level, taken, &mut ports);
            journals.back(device);
            close_ports(host, ports, outcome)
        }
        Err(exit) => exit,
    }
}
