//! The map's book, as the keeper of a text's entries.
ghost use Rattle.std.specs.Prelude.{◌≡◌, ◌<◌, ◌++◌, ◌∷◌, List, true, [], None, IfOk, IfSome, OnErr};
ghost use Rattle.osm_model.specs.Journal.{IsLegal};
ghost use Rattle.journal_text.specs.Kept.{may_follow, kept_by, is_in_turn};
ghost use Rattle.osm_model.specs.declared.commands.Entry.{Entry};
ghost use Rattle.map_machine.specs.Kept.{IsLastOf};

use crate::books::{book_law, next_call};
use crate::machine::MapMachine;
use crate::plans::Asked;
use hub_core::{Book, LastOutlet};
use journal_text::Keeper;
use machine_law::{Machine, Tag};
use osm_base::{Memory, Stamp, Steps};
use osm_model::Entry;
use std::alloc::Global;
use std::marker::{Brand, Model};
use std::sync::ledger::{Blank, Ledger};

/// A book that keeps entries which were made before, each where the map accepts it, and has the one that
/// it kept last at hand.
#[derive(Drop)]
pub struct BookKeeper {
    book: Book<MapMachine>,
    last: LastOutlet<Entry>,
}

impl Model for BookKeeper {
    ghost use Rattle.std.specs.Prelude.{List};
    ghost use Rattle.osm_model.specs.declared.commands.Entry.{Entry};
    ghost use Rattle.map_machine.specs.Kept.{IsLastOf};

    ghost Value = { List Entry };

    ghost view = { λ keeper. keeper.book };

    ghost invariant = { λ keeper. IsLastOf keeper.book keeper.last.last };
}

impl BookKeeper {
    /// A keeper of no entry. It takes no memory.
    pub fn new(alloc: Global) -> BookKeeper
        ensures { result ≡ [] }
    {
        BookKeeper {
            book: Book::new(alloc),
            last: LastOutlet { last: None },
        }
    }

    /// The book of what is kept, which is legal.
    pub fn book(&self) -> &Book<MapMachine>
        ensures book { result.now ≡ self.now }
        ensures legal { IsLegal self.now }
    {
        book_law(&self.book);
        &self.book
    }

    /// The last entry, where this keeper kept it.
    pub fn last(&self) -> Option<&Entry>
        ensures { IfSome result (λ entry. (before : List Entry) × (self.now ≡ before ++ entry.now ∷ [])) }
    {
        self.last.last.as_ref()
    }
}

impl Keeper for BookKeeper {
    ghost kept = { λ entries. entries };

    fn keep(&mut self, alloc: Global, entry: Entry) -> Result<bool, Memory> {
        if !is_in_turn(&self.book, &entry) {
            return Ok(false);
        }
        take::<Brand>(alloc, &mut self.book, &mut self.last, entry, Blank::new(1))
    }
}

/// Whether the entry has the next number of its session, and a stamp that the last one allows.
fn is_in_turn(book: &Book<MapMachine>, entry: &Entry) -> bool
    ensures { result ≡ is_in_turn book.now entry.now }
{
    let call = next_call(book, entry.session);
    let stamp = Stamp::after(book.world().world().last_stamp(), entry.stamp.seconds());
    entry.call == call && stamp.seconds() == entry.stamp.seconds()
}

/// Keeps the entry where its command is accepted, and has it at hand then.
fn take<L: Ledger>(
    alloc: Global,
    book: &mut Book<MapMachine>,
    last: &mut LastOutlet<Entry>,
    entry: Entry,
    blank: Blank,
) -> Result<bool, Memory>
    requires name { blank.name ≡ L.name }
    requires parts { blank.parts ≡ L.parts }
    requires some { 0 < blank.parts }
    requires turn { is_in_turn book.old entry ≡ true }
    requires last { IsLastOf book.old last.old.last }
    ensures answer { IfOk result (λ b. b ≡ may_follow book.old entry) }
    ensures kept { book.new ≡ kept_by result book.old entry }
    ensures last { IsLastOf book.new last.new.last }
{
    let (ledger, share) = blank.open::<L>();
    let mut steps = Steps::of(ledger, share);
    let Entry {
        session,
        call,
        user,
        stamp,
        command,
    } = entry;
    let asked = Asked { user, command };
    let plan = MapMachine::plan(alloc, book.world(), asked, &mut steps)?;
    let tag = Tag { session, call };
    let done = book.commit(plan, stamp.seconds(), tag, last, &mut steps)?;
    Ok(done.place.is_some())
}
