//! The plain journal, as the keeper of a text's entries: it judges them on the plain map.
ghost use Rattle.std.specs.Prelude.{◌≡◌, true, [], IfOk};
ghost use Rattle.journal_text.specs.Kept.{may_follow, kept_by, is_in_turn};

use journal_text::Keeper;
use osm_base::{Memory, Stamp};
use osm_model::Entry;
use plain_model::{Journal, calls_of};
use std::alloc::Global;
use std::marker::Model;

/// A plain journal that keeps entries which were made before, each where it may come next.
#[derive(Drop)]
pub struct PlainKeeper {
    journal: Journal,
}

impl Model for PlainKeeper {
    ghost use Rattle.std.specs.Prelude.{List};
    ghost use Rattle.osm_model.specs.declared.commands.Entry.{Entry};

    ghost Value = { List Entry };

    ghost view = { λ keeper. keeper.journal };
}

impl PlainKeeper {
    /// A keeper of no entry.
    pub fn new(alloc: Global) -> PlainKeeper
        ensures { result ≡ [] }
    {
        PlainKeeper {
            journal: Journal::new(alloc),
        }
    }

    /// The entries that are kept, the first one first.
    pub fn entries(&self) -> &[Entry] {
        self.journal.entries()
    }
}

impl Keeper for PlainKeeper {
    ghost kept = { λ entries. entries };

    fn keep(&mut self, alloc: Global, entry: Entry) -> Result<bool, Memory> {
        if is_in_turn(&self.journal, &entry) {
            take(alloc, &mut self.journal, entry)
        } else {
            Ok(false)
        }
    }
}

/// Whether the entry has the next number of its session, and a stamp that the last one allows.
fn is_in_turn(journal: &Journal, entry: &Entry) -> bool
    ensures { result ≡ is_in_turn journal.now entry.now }
{
    let call = calls_of(journal.entries(), entry.session) + 1;
    let stamp = Stamp::after(journal.state().last, entry.stamp.seconds());
    entry.call == call && stamp.seconds() == entry.stamp.seconds()
}

/// Keeps the entry where its command is accepted.
fn take(alloc: Global, journal: &mut Journal, entry: Entry) -> Result<bool, Memory>
    requires { is_in_turn journal.old entry ≡ true }
    ensures answer { IfOk result (λ b. b ≡ may_follow journal.old entry) }
    ensures kept { journal.new ≡ kept_by result journal.old entry }
{
    let before = journal.entries().len();
    let Entry {
        session,
        user,
        stamp,
        command,
        ..
    } = entry;
    let judged = journal.judge(alloc, session, user, stamp.seconds(), command)?;
    let _answer = journal.keep(judged)?;
    Ok(journal.entries().len() > before)
}
