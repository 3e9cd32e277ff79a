//! A list without a name, its end, and its beginnings.
ghost use Rattle.std.specs.Prelude.{◌≡◌, ◌⊎◌, ◌+◌, ◌<◌, ◌≤◌, ◌^◌, ◌++◌, ◌∷◌, [], length, IsTrue, false, ◌↔◌};
ghost use mathlib.Core.List.{IsPrefix};
ghost use Rattle.shared_front.specs.Counted.{head_of};

use crate::law::{Add, Law, Nothing};
use logbook::{Offer, Seen, Start, Word};
use std::marker::{Brand, Model, PhantomData};

/// Which list it is, and how many sessions add to it. Each call of a program picks it.
pub trait HubName {
    ghost use Rattle.std.specs.Prelude.{ℕ};
    ghost use Rattle.logbook.specs.Pages.{Book};

    ghost book: { Book };

    ghost sessions: { ℕ };
}

impl HubName for Brand {
    ghost book = { record { number = 0; log_name = 0; cells_name = 0 } };

    ghost sessions = { 0 };
}

/// An empty list, which has no name yet. Contracts see it as its book.
#[derive(Drop)]
pub struct Opened<E> {
    head: Word<E, u64, Law>,
    seen: Seen<E, u64, Law>,
}

impl<E> Model for Opened<E> {
    ghost use Rattle.std.specs.Prelude.{◌≡◌, []};
    ghost use Rattle.logbook.specs.Pages.{Book, book_coded};
    ghost use Rattle.shared_front.specs.Counted.{head_of};

    ghost Value = { Book };

    ghost coded = { book_coded };

    ghost view = { λ o. o.seen.book };

    ghost invariant = { λ o. (o.head ≡ head_of o.seen.book) × (o.seen.log ≡ []) };
}

/// The end of the list, where entries are added: its length.
#[derive(Drop)]
pub struct Tail<N: HubName, E> {
    head: Word<E, u64, Law>,
    of: PhantomData<N>,
    ghost head_is: { head ≡ head_of N.book },
}

/// A beginning of the list that was seen. Contracts see it as its entries.
#[derive(Drop)]
pub struct Front<N: HubName, E> {
    entries: u64,
    seen: Seen<E, u64, Law>,
    of: PhantomData<N>,
}

impl<N: HubName, E> Model for Front<N, E> {
    ghost use Rattle.std.specs.Prelude.{◌≡◌, List, length};

    ghost Value = { List E };

    ghost view = { λ f. f.seen.log };

    ghost invariant = { λ f. (f.entries ≡ length f.seen.log) × (f.seen.book ≡ N.book) };
}

/// A beginning of the list that was told where its end is, and so under the lock under which that lies.
/// Contracts see it as its entries.
///
/// Nothing but the end makes one, and nobody can make a second of it.
#[derive(Drop)]
pub struct FoundFront<N: HubName, E> {
    front: Front<N, E>,
}

impl<N: HubName, E> Model for FoundFront<N, E> {
    ghost use Rattle.std.specs.Prelude.{List};

    ghost Value = { List E };

    ghost view = { λ f. f.front };
}

impl<E> Opened<E> {
    /// A new list. It takes no memory.
    pub fn new() -> Opened<E> {
        let (seen, mut first, _second) = Seen::open(Start::alone(), 0, 0);
        Opened {
            head: Word::tracked(0, &mut first),
            seen,
        }
    }

    /// The end of the list under a name, and the front that has seen nothing.
    pub fn named<N: HubName>(self) -> (Tail<N, E>, Front<N, E>)
        requires { self ≡ N.book }
        ensures { result.1 ≡ [] }
    {
        let Opened { head, seen } = self;
        (
            Tail {
                head,
                of: PhantomData,
            },
            Front {
                entries: 0,
                seen,
                of: PhantomData,
            },
        )
    }
}

impl<N: HubName, E> Tail<N, E> {
    /// This front, told where the list's end is. It takes no memory.
    pub fn tell(&self, front: &Front<N, E>) -> FoundFront<N, E>
        ensures { result ≡ front.now }
    {
        FoundFront {
            front: front.again(),
        }
    }
}

impl<N: HubName, E> FoundFront<N, E> {
    /// The front that was told.
    pub fn front(&self) -> &Front<N, E>
        ensures { result.now ≡ self.now }
    {
        &self.front
    }
}

impl<N: HubName, E> Front<N, E> {
    /// How many entries it has.
    pub fn len(&self) -> u64
        ensures { result ≡ length self.now }
    {
        self.entries
    }

    /// A second front that has seen as much. It takes no memory.
    pub fn again(&self) -> Front<N, E>
        ensures { result ≡ self.now }
    {
        Front {
            entries: self.entries,
            seen: self.seen.again(),
            of: PhantomData,
        }
    }

    /// Whether the other front begins with this one. It does exactly where it is no shorter.
    pub fn begins(&self, other: &Front<N, E>) -> bool
        ensures shorter { IsTrue result ↔ (length self.now ≤ length other.now) }
        ensures begins { IsTrue result → IsPrefix self.now other.now }
    {
        let mut both = self.seen.again();
        both.learn(&other.seen);
        self.entries <= other.entries
    }

    /// The longer of two fronts, which begins with the other. It takes no memory.
    pub fn longer(&self, other: &Front<N, E>) -> Front<N, E>
        ensures is_one { (result ≡ self.now) ⊎ (result ≡ other.now) }
        ensures this { IsPrefix self.now result }
        ensures that { IsPrefix other.now result }
    {
        if self.begins(other) {
            return other.again();
        }
        let _begins = other.begins(self);
        self.again()
    }

    /// Adds an entry to all that was seen, and says whether it did. It did not where the list is
    /// longer, and more of it is seen then.
    pub fn add(&mut self, tail: &Tail<N, E>, entry: &E) -> bool
        requires { length self.old < 2 ^ 62 }
        ensures added { IsTrue result → self.new ≡ self.old ++ entry.now ∷ [] }
        ensures begins { IsPrefix self.old self.new }
        ensures longer { result ≡ false → length self.old < length self.new }
    {
        let mut offer: Offer<E, u64, Law, Nothing> = self.seen.plain::<Nothing, E, Add>(entry);
        let mut pen = self.seen.no_pen();
        let entries = self.entries;
        let found = tail
            .head
            .compare_exchange::<Add, Nothing>(
                entries,
                entries + 1,
                &mut self.seen,
                &mut offer,
                &mut pen,
            );
        self.entries = if found == entries { entries + 1 } else { found };
        found == entries
    }
}
