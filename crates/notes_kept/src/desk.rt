//! A desk of notes that keeps before it tells.
ghost use Rattle.std.specs.Prelude.{◌≡◌};
ghost use Rattle.kept_desk.specs.Kept.{kept_by};

use durable_log::{Lines, Receipt};
use http_link::{Desk, Reply, Withheld};
use http_wire::Message;
use journal_file::Device;
use kept_desk::{Keeper, KeptSession, keep};
use notes_core::{NoteEntry, NotesMachine};
use notes_desk::{NotesDesk, NotesSession};
use osm_base::Memory;
use osm_outside::{NoGate, Witness};
use session_desk::{HasSession, SessionDesk};
use shared_front::{FoundFront, Front, HubName};
use snapshot_hub::Shown;
use std::alloc::Global;
use std::marker::Model;
use std::sync::Wait;

/// A desk of a session of a hub of notes, whose replies are sent only once the file holds what they
/// tell of, written as `T` says.
#[derive(Drop)]
pub struct NotesKeptDesk<
    'a,
    N: HubName,
    K: HubName,
    T: Lines<NoteEntry>,
    V: Device,
    R: Wait + Drop,
    W: Wait,
> {
    desk: NotesDesk<'a, N, NoGate, R, W>,
    keeper: Keeper<'a, N, K, NoteEntry, T, V, W>,
}

impl<'a, N: HubName, K: HubName, T: Lines<NoteEntry>, V: Device, R: Wait + Drop, W: Wait> Model
    for NotesKeptDesk<'a, N, K, T, V, R, W> {
    ghost use Rattle.kept_desk.specs.Kept.{AtKept, kept_by};
    ghost use Rattle.notes_core.specs.declared.commands.NoteEntry.{NoteEntry};

    ghost Value = { AtKept NoteEntry };

    ghost view = { λ d. kept_by d.desk d.keeper };
}

impl<
    'a,
    N: HubName,
    K: HubName,
    T: Lines<NoteEntry>,
    V: Device,
    R: Wait + Drop,
    W: Wait,
> NotesKeptDesk<'a, N, K, T, V, R, W> {
    /// That desk, with a keeper.
    pub fn new(
        desk: NotesDesk<'a, N, NoGate, R, W>,
        keeper: Keeper<'a, N, K, NoteEntry, T, V, W>,
    ) -> NotesKeptDesk<'a, N, K, T, V, R, W>
        ensures { result ≡ kept_by desk.entry keeper.entry }
    {
        NotesKeptDesk { desk, keeper }
    }

    /// Whether it withheld a reply because keeping failed.
    pub fn has_failed(&self) -> bool
        ensures { result ≡ self.now.failed }
    {
        self.keeper.has_failed()
    }

    /// The session and the receipts in hand, when the desk is done. It takes no memory.
    pub fn into_parts(self) -> (NotesSession<N>, Front<K, Receipt>)
        ensures session { result.0 ≡ self.entry.desk.known }
        ensures receipts { result.1 ≡ self.entry.receipts }
    {
        let NotesKeptDesk { desk, keeper } = self;
        (desk.into_session(), keeper.into_receipts())
    }
}

impl<'a, N: HubName, K: HubName, T: Lines<NoteEntry>, V: Device, R: Wait + Drop, W: Wait> Desk
    for NotesKeptDesk<'a, N, K, T, V, R, W> {
    ghost use Rattle.notes_desk.specs.Desk.{note_row};
    ghost use Rattle.kept_desk.specs.Kept.{AllowsKept, Tells, shows_kept, Withholds};

    ghost allows = { λ old message moment reply new. AllowsKept note_row old message moment reply new };

    ghost tells = { λ desk. Tells desk };

    ghost shows = { λ desk. shows_kept desk };

    ghost withholds = { λ desk why. Withholds desk why };

    fn answer(&mut self, alloc: Global, message: Message, moment: u64) -> Result<Reply, Memory> {
        let reply = self.desk.answer(alloc, message, moment);
        let seen = self.desk.front().len();
        self.keeper.note(seen);
        reply
    }

    fn may_tell<L: Witness>(&mut self, link: &mut L) -> Result<(), Withheld> {
        keep::<
            N,
            K,
            NotesMachine,
            Shown<N, NotesMachine>,
            T,
            V,
            NotesDesk<'a, N, NoGate, R, W>,
            W,
            L,
        >(&mut self.keeper, &mut self.desk, link)
    }
}

impl<
    'a,
    N: HubName,
    K: HubName,
    T: Lines<NoteEntry>,
    V: Device,
    R: Wait + Drop,
    W: Wait,
> SessionDesk<N, NotesMachine, Shown<N, NotesMachine>> for NotesKeptDesk<'a, N, K, T, V, R, W> {
    ghost use Rattle.notes_desk.specs.Desk.{note_row, note_rows_stay};
    ghost use Rattle.kept_desk.specs.Kept.{allowed_at_desk};

    ghost keeps = { λ d. d.desk };

    ghost answers = { note_row };

    ghost allowed = { λ old new message moment reply h. allowed_at_desk note_row old new message moment reply h };

    ghost rows_stay = { note_rows_stay };

    fn freshen(&mut self) -> Result<FoundFront<N, NoteEntry>, Memory> {
        self.desk.freshen()
    }

    fn front(&self) -> &Front<N, NoteEntry> {
        self.desk.front()
    }

    fn behind(&mut self, front: &Front<N, NoteEntry>) -> Result<Option<Vec<NoteEntry>>, Memory> {
        self.desk.behind(front)
    }

    fn law(&self) {
        self.desk.law();
    }
}

impl<
    'a,
    N: HubName,
    K: HubName,
    T: Lines<NoteEntry>,
    V: Device,
    R: Wait + Drop,
    W: Wait,
> KeptSession<N, NotesMachine, Shown<N, NotesMachine>> for NotesKeptDesk<'a, N, K, T, V, R, W> {
    ghost use Rattle.std.specs.Prelude.{refl};

    ghost kept = { λ d. d };

    ghost same_session = { λ _. refl };

    ghost allowed_kept = { λ old new message moment reply h. h };

    ghost tells_kept = { λ it h. h };

    ghost shows_receipts = { λ _. refl };

    ghost withholds_kept = { λ it why h. h };

    fn freshen_session(&mut self) -> Result<FoundFront<N, NoteEntry>, Memory> {
        self.desk.freshen()
    }
}
