//! The versions of one element, with promised room.
ghost use Rattle.std.specs.Prelude.{◌≡◌, ◌∷◌, [], ◌++◌, ◌+◌, ◌-◌, ◌<◌, ◌≤◌, ◌^◌, length, is_ok, if◌then◌else◌, IfOk};
ghost use Rattle.std.specs.Option.{ForSome};
ghost use Rattle.osm_element.specs.Elements.{mark_in};
ghost use Rattle.history_store.specs.History.{row_of};

use osm_base::{Memory, Roomy, Stamp};
use osm_element::{Tags, Version};
use std::alloc::Global;
use std::marker::Model;
use std::{mem, slice};

/// Where the versions of an element stand: a first one right here, and more on the heap.
#[derive(Drop)]
pub(crate) enum Place {
    /// No version, and none promised.
    Empty,
    /// No version, and one promised.
    Awaited,
    /// One version, and none promised.
    One(Version),
    More(Roomy<Version>),
}

/// The versions of an element, the oldest first. As with `Roomy`, it is promised room for some more.
/// A first version takes no memory beside the value itself.
#[derive(Drop)]
pub struct History {
    place: Place,
}

impl Model for History {
    ghost use Rattle.osm_base.specs.Row.{Row};
    ghost use Rattle.osm_element.specs.Version.{Version};
    ghost use Rattle.history_store.specs.History.{row_of};

    ghost Value = { Row Version };

    ghost view = { λ h. row_of h.place };
}

impl History {
    /// No versions, and no room promised.
    pub fn none() -> History
        ensures { result ≡ record { items = []; free = 0 } }
    {
        History {
            place: Place::Empty,
        }
    }

    /// All versions, in order.
    pub fn items(&self) -> &[Version]
        ensures { result.now ≡ self.now.items }
    {
        match &self.place {
            Place::Empty | Place::Awaited => &[],
            Place::One(version) => slice::from_ref(version),
            Place::More(versions) => versions.items(),
        }
    }

    /// How many more versions need no memory.
    pub fn free(&self) -> usize
        ensures { result ≡ self.now.free }
    {
        match &self.place {
            Place::Empty | Place::One(_) => 0,
            Place::Awaited => 1,
            Place::More(versions) => versions.free(),
        }
    }

    /// Promises room for some more versions.
    pub fn promise(&mut self, alloc: Global, more: usize) -> Result<(), Memory>
        ensures { self.new ≡ record self.old { free = self.old.free + (if is_ok result then more else 0) } }
    {
        match &mut self.place {
            Place::Empty if more == 1 => {
                self.place = Place::Awaited;
                Ok(())
            }
            Place::More(versions) => versions.promise(more),
            _ => self.promise_list(alloc, more),
        }
    }

    /// The same, where versions that stand right here may have to go to the heap.
    fn promise_list(&mut self, alloc: Global, more: usize) -> Result<(), Memory>
        ensures { self.new ≡ record self.old { free = self.old.free + (if is_ok result then more else 0) } }
    {
        let place = mem::replace(&mut self.place, Place::Empty);
        let (place, result) = promised(alloc, place, more);
        self.place = place;
        result
    }

    /// Takes some of what was promised back.
    pub fn release(&mut self, less: usize)
        requires { less ≤ self.old.free }
        ensures { self.new ≡ record self.old { free = self.old.free - less } }
    {
        let place = mem::replace(&mut self.place, Place::Empty);
        self.place = released(place, less);
    }

    /// Adds a version at the end, on promised room.
    pub fn push(&mut self, version: Version)
        requires { 0 < self.old.free }
        ensures { self.new ≡ record { items = self.old.items ++ version ∷ []; free = self.old.free - 1 } }
    {
        match &mut self.place {
            Place::More(versions) => versions.push(version),
            // Room is promised, so that there is no version yet.
            Place::Empty | Place::Awaited | Place::One(_) => self.place = Place::One(version),
        }
    }

    /// Puts a mark on a version, or takes it off. Version 1 is the first.
    pub fn mark(&mut self, alloc: Global, number: usize, redaction: Option<u64>)
        requires counted { 0 < number }
        requires made { number ≤ length self.old.items }
        requires small { ForSome redaction (λ number. number < 2 ^ 32) }
        ensures { self.new ≡ record self.old { items = mark_in self.old.items number redaction } }
    {
        let place = mem::replace(&mut self.place, Place::Empty);
        self.place = marked(alloc, place, number, redaction);
    }
}

/// The place with room for some more versions, or as it was.
fn promised(alloc: Global, place: Place, more: usize) -> (Place, Result<(), Memory>)
    ensures { row_of result.0 ≡ record (row_of place) { free = (row_of place).free + (if is_ok result.1 then more else 0) } }
{
    if more == 0 {
        return (place, Ok(()));
    }
    match place {
        Place::Empty => promised_first(alloc, more),
        Place::Awaited => match more_than_one(alloc, more) {
            Ok(versions) => (Place::More(versions), Ok(())),
            Err(memory) => (Place::Awaited, Err(memory)),
        },
        Place::One(version) => match more_than_one(alloc, more) {
            Ok(mut versions) => {
                versions.push(version);
                (Place::More(versions), Ok(()))
            }
            Err(memory) => (Place::One(version), Err(memory)),
        },
        Place::More(mut versions) => {
            let result = versions.promise(more);
            (Place::More(versions), result)
        }
    }
}

/// The place of an element with no versions, with room for some.
fn promised_first(alloc: Global, some: usize) -> (Place, Result<(), Memory>)
    requires { 0 < some }
    ensures { row_of result.0 ≡ record { items = []; free = if is_ok result.1 then some else 0 } }
{
    if some == 1 {
        return (Place::Awaited, Ok(()));
    }
    let mut versions = Roomy::none(alloc);
    match versions.promise(some) {
        Ok(()) => (Place::More(versions), Ok(())),
        Err(memory) => (Place::Empty, Err(memory)),
    }
}

/// Room on the heap for one version and some more.
fn more_than_one(alloc: Global, more: usize) -> Result<Roomy<Version>, Memory>
    ensures { IfOk result (λ versions. versions ≡ record { items = []; free = 1 + more }) }
{
    let Some(all) = more.checked_add(1) else {
        return Err(Memory);
    };
    let mut versions = Roomy::none(alloc);
    versions.promise(all)?;
    Ok(versions)
}

fn released(place: Place, less: usize) -> Place
    requires { less ≤ (row_of place).free }
    ensures { row_of result ≡ record (row_of place) { free = (row_of place).free - less } }
{
    if less == 0 {
        return place;
    }
    match place {
        Place::More(mut versions) => {
            versions.release(less);
            Place::More(versions)
        }
        Place::Empty | Place::Awaited => Place::Empty,
        Place::One(version) => Place::One(version),
    }
}

fn marked(alloc: Global, place: Place, number: usize, redaction: Option<u64>) -> Place
    requires counted { 0 < number }
    requires made { number ≤ length (row_of place).items }
    requires small { ForSome redaction (λ number. number < 2 ^ 32) }
    ensures { row_of result ≡ record (row_of place) { items = mark_in (row_of place).items number redaction } }
{
    match place {
        Place::Empty => Place::Empty,
        Place::Awaited => Place::Awaited,
        Place::One(mut version) => {
            version.mark(redaction);
            Place::One(version)
        }
        Place::More(mut versions) => {
            mark_row(alloc, &mut versions, number, redaction);
            Place::More(versions)
        }
    }
}

/// A version to stand where another is taken out. It takes no memory.
fn vacant(alloc: Global) -> Version {
    Version::new(None, Tags::none(alloc), 0, Stamp(0))
}

fn mark_row(alloc: Global, row: &mut Roomy<Version>, number: usize, redaction: Option<u64>)
    requires counted { 0 < number }
    requires made { number ≤ length row.old.items }
    requires small { ForSome redaction (λ number. number < 2 ^ 32) }
    ensures { row.new ≡ record row.old { items = mark_in row.old.items number redaction } }
{
    let mut version = row.replace(number - 1, vacant(alloc));
    version.mark(redaction);
    row.set(number - 1, version);
}
