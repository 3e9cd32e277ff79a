//! The map server whose journal is kept in a file, as what a program runs.
ghost use Rattle.std.specs.Prelude.{◌≡◌, ◌<◌, ◌≤◌, [], ◌++◌, List, length, map, vec_len, IfErr, OnOk};
ghost use Rattle.osm_base.specs.declared.limits.TheConstants.{SESSION_LIMIT};
ghost use Rattle.journal_text.specs.Text.{text_of};
ghost use Rattle.durable_log.specs.Held.{HoldsFrom};
ghost use Rattle.journal_recovery.specs.Judged.{IsFollowed};
ghost use Rattle.journal_recovery.specs.declared.faults.TextFault.{TextFault};
ghost use Rattle.osm_model.specs.Journal.{IsLegal};
ghost use Rattle.osm_model.specs.declared.commands.Entry.{Entry};
ghost use Rattle.map_machine.specs.Machine.{map_rules};
ghost use Rattle.snapshot_hub.specs.Closings.{AreSeated};
ghost use Rattle.map_kept.specs.Followed.{HasFollowed};
ghost use Rattle.map_machine.specs.declared.machine.MapWorld.{MapWorld};
ghost use Rattle.map_kept.specs.Run.{RunsServeKept, ServesFrom};

use crate::ports::serve_kept_ports;
use entry_file::EntryLines;
use hub_core::CountedJournal;
use journal_file::{Device, JournalFile};
use journal_host::Journals;
use journal_recovery::{EntryJudge, TextFault};
use kept_serve::{has_seats, seats_for};
use link_workers::Outcome;
use machine_law::Machine;
use map_machine::{MapMachine, MapWorld, journals_are_the_maps};
use osm_model::Entry;
use osm_outside::{Host, Link, Outside, Port, PortOutside};
use recovered_start::{Begun, KeptJournal, begin_kept};
use server_frame::{Exit, Listening, close_ports};
use shared_front::Opened;
use snapshot_hub::{Twins, follow_all, push_all};
use std::alloc::Global;
use std::marker::Brand;
use std::sync::Wait;
use std::thread::Threads;
use user_table::UserTable;

/// How the journal of the map is taken up.
pub struct MapJournal;

impl EntryJudge<Entry> for MapJournal {
    ghost use Rattle.osm_model.specs.Journal.{IsLegal};
    ghost use Rattle.map_kept.specs.Followed.{HasFollowed};

    type World = MapWorld;

    type Kept = CountedJournal<MapMachine>;

    type Journal = Twins<MapMachine>;

    ghost entries = { λ twins. twins };

    ghost keeps = { λ journal. journal };

    ghost is_legal = { λ entries. IsLegal entries };

    ghost follows = { HasFollowed };

    fn begin(alloc: Global) -> MapWorld
        ensures { HasFollowed result [] }
    {
        MapMachine::empty(alloc)
    }

    fn none(alloc: Global) -> CountedJournal<MapMachine> {
        CountedJournal::new(alloc)
    }

    fn follow(alloc: Global, world: MapWorld, part: &[Entry]) -> Result<MapWorld, TextFault>
        ensures { (before : List Entry) → HasFollowed world before → IsFollowed HasFollowed (λ entries. IsLegal entries) (before ++ part.now) result }
    {
        match follow_all::<MapMachine>(alloc, world, part)? {
            Some(world) => Ok(world),
            None => Err(TextFault::NoJournal),
        }
    }

    fn keep(
        _alloc: Global,
        kept: &mut CountedJournal<MapMachine>,
        part: Vec<Entry>,
    ) -> Result<(), TextFault>
        requires { (world : MapWorld) × HasFollowed world (kept.old ++ part.items) }
        ensures kept { OnOk result (kept.new ≡ kept.old ++ part.items) }
        ensures refused { IfErr result (λ fault. fault ≡ TextFault.NoJournal → (more : List Entry) → IsLegal ((kept.old ++ part.items) ++ more) → ⊥) }
    {
        if !push_all(kept, part)? {
            return Err(TextFault::NoJournal);
        }
        Ok(())
    }

    fn journal_of(
        kept: CountedJournal<MapMachine>,
        first: MapWorld,
        second: MapWorld,
    ) -> Twins<MapMachine>
        requires first { HasFollowed first kept }
        requires second { HasFollowed second kept }
        ensures kept { result ≡ kept }
        ensures legal { IsLegal kept }
    {
        journals_are_the_maps();
        let _entries = kept.journal();
        Twins::of(kept, first, second)
    }
}

impl KeptJournal<Entry> for MapJournal {
    ghost use Rattle.osm_base.specs.declared.limits.TheConstants.{SESSION_LIMIT};
    ghost use Rattle.map_machine.specs.Machine.{map_rules};
    ghost use Rattle.snapshot_hub.specs.Closings.{AreSeated};

    type Text = EntryLines;

    ghost fits = { AreSeated map_rules.tag_of SESSION_LIMIT };

    fn fits(journal: &Twins<MapMachine>) -> bool {
        has_seats::<MapMachine>(journal.journal())
    }
}

/// Serves the links of each port by a session of a hub that goes on from the journal of those twins.
fn serve_handed<V: Device + Drop + Send, R: Threads + Wait + Sync, P: Port + Drop + Send>(
    rt: &R,
    alloc: Global,
    users: &UserTable,
    twins: Twins<MapMachine>,
    file: JournalFile<V>,
    ports: &mut Vec<P>,
) -> (Outcome, V)
    requires some { 0 < vec_len ports.old }
    requires few { vec_len ports.old ≤ SESSION_LIMIT }
    requires seated { AreSeated map_rules.tag_of SESSION_LIMIT twins }
    requires text { file.text ≡ text_of twins }
    requires holds { HoldsFrom text_of V.left_since file.device (V.moment file.device) (length twins) twins }
    requires fine { V.faults file.device ≡ 0 }
    ensures serves { ServesFrom V.seen V.moment V.left_since V.faults twins result.1 users.now
        (map P.told ports.old.items) (map P.told ports.new.items) result.0 }
    ensures count { vec_len ports.new ≡ vec_len ports.old }
{
    let seats = seats_for::<MapMachine>(twins.journal(), ports.len());
    let receipts = Opened::new();
    serve_kept_ports::<Brand, Brand, V, R, P>(rt, alloc, seats, receipts, twins, file, users, ports)
}

/// Reads the users of the text at their path, takes up the journal in the file at that one, and serves
/// the links of ports at that address. A reply is sent only once the file holds what it tells of.
pub fn run_serve_kept<H: Host, J: Journals, R: Threads + Wait + Sync, L: Link>(
    rt: &R,
    alloc: Global,
    users: &str,
    listening: Listening<'_>,
    path: &str,
    host: &mut H,
    journals: &mut J,
    standard: &L,
) -> Exit
    requires some { 0 < listening.workers }
    requires few { listening.workers ≤ SESSION_LIMIT }
    ensures { RunsServeKept J.File.seen J.File.moment J.File.left_since J.File.faults users.now listening.entry.address.now listening.entry.workers path.now
        (J.told journals.old) (J.told journals.new) (H.told host.old) (H.told host.new) (L.told standard.now) (L.told standard.now) result }
{
    match begin_kept::<R, Entry, MapJournal, H, J>(
        rt, alloc, users, listening, path, host, journals,
    ) {
        Ok(begun) => {
            let Begun {
                journal,
                file,
                users,
                mut ports,
            } = begun;
            let (outcome, device) = serve_handed(rt, alloc, &users, journal, file, &mut ports);
            journals.back(device);
            close_ports(host, ports, outcome)
        }
        Err(exit) => exit,
    }
}
