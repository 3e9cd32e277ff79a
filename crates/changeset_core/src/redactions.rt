//! The titles of redactions (OpenStreetMap wiki, API v0.6, "Redactions"), with promised room.
//!
//! Room for a redaction is a place in the list and takes no title, since making one takes the
//! title over.
ghost use Rattle.std.specs.Prelude.{◌≡◌, ◌+◌, ◌-◌, ◌<◌, ◌∷◌, [], ◌++◌, length, is_ok, if◌then◌else◌};
ghost use Rattle.changeset_core.specs.Known.{is_known};

use osm_base::{Memory, Roomy, Text};
use std::alloc::Global;
use std::marker::Model;

/// The titles of redactions, and for how many more there is room. That of redaction 1 is the first.
/// `room` takes the memory that `make` then needs.
#[derive(Drop)]
pub struct Redactions {
    titles: Roomy<Text>,
}

impl Model for Redactions {
    ghost use Rattle.std.specs.Prelude.{List, ℕ};
    ghost use Rattle.osm_base.specs.Row.{Row};

    ghost Value = { Row (List ℕ) };

    ghost view = { λ r. r.titles };
}

impl Redactions {
    /// No redactions. It takes no memory.
    pub fn new(alloc: Global) -> Redactions
        ensures { result ≡ record { items = []; free = 0 } }
    {
        Redactions {
            titles: Roomy::none(alloc),
        }
    }

    /// The titles, that of redaction 1 first.
    pub fn titles(&self) -> &[Text]
        ensures { result.now ≡ self.now.items }
    {
        self.titles.items()
    }

    /// Promises room for one more redaction: a place in the list, since `make` takes its title over.
    pub fn room(&mut self) -> Result<(), Memory>
        ensures { self.new ≡ record self.old { free = self.old.free + (if is_ok result then 1 else 0) } }
    {
        self.titles.promise_ahead(1)
    }

    /// Takes every promise of room back.
    pub fn forget(&mut self)
        ensures { self.new ≡ record self.old { free = 0 } }
    {
        self.titles.forget();
    }

    /// Makes the next redaction, and gives its id. It takes no memory.
    pub fn make(&mut self, title: Text) -> u64
        requires { 0 < self.old.free }
        ensures id { result ≡ length self.new.items }
        ensures made { self.new ≡ record { items = self.old.items ++ title ∷ []; free = self.old.free - 1 } }
    {
        self.titles.push(title);
        self.titles.items().len() as u64
    }

    /// Whether there is such a redaction.
    pub fn known(&self, id: u64) -> bool
        ensures { result ≡ is_known self.now.items id }
    {
        id > 0 && id <= self.titles.items().len() as u64
    }
}
