//! A desk of the map that keeps before it tells.
ghost use Rattle.std.specs.Prelude.{◌≡◌};
ghost use Rattle.kept_desk.specs.Kept.{kept_by};

use api_desk::{HubDesk, MapSession};
use durable_log::Receipt;
use entry_file::EntryLines;
use http_link::{Desk, Reply, Withheld};
use http_wire::Message;
use journal_file::Device;
use kept_desk::{Keeper, KeptSession, keep};
use map_machine::MapMachine;
use osm_base::Memory;
use osm_model::Entry;
use osm_outside::{NoGate, Witness};
use session_desk::{HasSession, SessionDesk};
use shared_front::{FoundFront, Front, HubName};
use snapshot_hub::Shown;
use std::alloc::Global;
use std::marker::Model;
use std::sync::Wait;

/// A desk of a session of a hub of the map, whose replies are sent only once the file holds what they
/// tell of.
#[derive(Drop)]
pub struct MapKeptDesk<'a, N: HubName, K: HubName, V: Device, R: Wait + Drop, W: Wait> {
    desk: HubDesk<'a, N, NoGate, R, W>,
    keeper: Keeper<'a, N, K, Entry, EntryLines, V, W>,
}

impl<'a, N: HubName, K: HubName, V: Device, R: Wait + Drop, W: Wait> Model
    for MapKeptDesk<'a, N, K, V, R, W> {
    ghost use Rattle.kept_desk.specs.Kept.{AtKept, kept_by};
    ghost use Rattle.osm_model.specs.declared.commands.Entry.{Entry};

    ghost Value = { AtKept Entry };

    ghost view = { λ d. kept_by d.desk d.keeper };
}

impl<'a, N: HubName, K: HubName, V: Device, R: Wait + Drop, W: Wait> MapKeptDesk<
    'a,
    N,
    K,
    V,
    R,
    W,
> {
    /// That desk, with a keeper.
    pub fn new(
        desk: HubDesk<'a, N, NoGate, R, W>,
        keeper: Keeper<'a, N, K, Entry, EntryLines, V, W>,
    ) -> MapKeptDesk<'a, N, K, V, R, W>
        ensures { result ≡ kept_by desk.entry keeper.entry }
    {
        MapKeptDesk { desk, keeper }
    }

    /// Whether it withheld a reply because keeping failed.
    pub fn has_failed(&self) -> bool
        ensures { result ≡ self.now.failed }
    {
        self.keeper.has_failed()
    }

    /// The session and the receipts in hand, when the desk is done. It takes no memory.
    pub fn into_parts(self) -> (MapSession<N>, Front<K, Receipt>)
        ensures session { result.0 ≡ self.entry.desk.known }
        ensures receipts { result.1 ≡ self.entry.receipts }
    {
        let MapKeptDesk { desk, keeper } = self;
        (desk.into_session(), keeper.into_receipts())
    }
}

impl<'a, N: HubName, K: HubName, V: Device, R: Wait + Drop, W: Wait> Desk
    for MapKeptDesk<'a, N, K, V, R, W> {
    ghost use Rattle.api_desk.specs.HubDesk.{map_row};
    ghost use Rattle.kept_desk.specs.Kept.{AllowsKept, Tells, shows_kept, Withholds};

    ghost allows = { λ old message moment reply new. AllowsKept map_row old message moment reply new };

    ghost tells = { λ desk. Tells desk };

    ghost shows = { λ desk. shows_kept desk };

    ghost withholds = { λ desk why. Withholds desk why };

    fn answer(&mut self, alloc: Global, message: Message, moment: u64) -> Result<Reply, Memory> {
        let reply = self.desk.answer(alloc, message, moment);
        let seen = self.desk.front().len();
        self.keeper.note(seen);
        reply
    }

    fn may_tell<L: Witness>(&mut self, link: &mut L) -> Result<(), Withheld> {
        keep::<
            N,
            K,
            MapMachine,
            Shown<N, MapMachine>,
            EntryLines,
            V,
            HubDesk<'a, N, NoGate, R, W>,
            W,
            L,
        >(&mut self.keeper, &mut self.desk, link)
    }
}

impl<'a, N: HubName, K: HubName, V: Device, R: Wait + Drop, W: Wait> SessionDesk<
    N,
    MapMachine,
    Shown<N, MapMachine>,
> for MapKeptDesk<'a, N, K, V, R, W> {
    ghost use Rattle.api_desk.specs.HubDesk.{map_row, map_rows_stay};
    ghost use Rattle.kept_desk.specs.Kept.{allowed_at_desk};

    ghost keeps = { λ d. d.desk };

    ghost answers = { map_row };

    ghost allowed = { λ old new message moment reply h. allowed_at_desk map_row old new message moment reply h };

    ghost rows_stay = { map_rows_stay };

    fn freshen(&mut self) -> Result<FoundFront<N, Entry>, Memory> {
        self.desk.freshen()
    }

    fn front(&self) -> &Front<N, Entry> {
        self.desk.front()
    }

    fn behind(&mut self, front: &Front<N, Entry>) -> Result<Option<Vec<Entry>>, Memory> {
        self.desk.behind(front)
    }

    fn law(&self) {
        self.desk.law();
    }
}

impl<'a, N: HubName, K: HubName, V: Device, R: Wait + Drop, W: Wait> KeptSession<
    N,
    MapMachine,
    Shown<N, MapMachine>,
> for MapKeptDesk<'a, N, K, V, R, W> {
    ghost use Rattle.std.specs.Prelude.{refl};

    ghost kept = { λ d. d };

    ghost same_session = { λ _. refl };

    ghost allowed_kept = { λ old new message moment reply h. h };

    ghost tells_kept = { λ it h. h };

    ghost shows_receipts = { λ _. refl };

    ghost withholds_kept = { λ it why h. h };

    fn freshen_session(&mut self) -> Result<FoundFront<N, Entry>, Memory> {
        self.desk.freshen()
    }
}
