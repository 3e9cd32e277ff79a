//! Where elements of before stand, by their ids.
//!
//! An upload mostly comes to them in the order of their ids: those are added behind a list, where they
//! are found by halving. What comes out of that order stands in a map. So a look takes the logarithm
//! of their number, whatever ids a client chooses.
ghost use Rattle.std.specs.Prelude.{◌≡◌, ◌++◌, true, [], None, is_some, OnOk, OnErr};
ghost use Rattle.upload_check.specs.Older.{standing_of, AreBelow, IsInOrder, IsAtPlace, IsPlaceOf, Puts};

use crate::standings::Standing;
use osm_base::Memory;
use std::alloc::Global;
use std::collections::BTreeMap;
use std::marker::Model;

/// Where elements stand that were there before the upload, by their ids.
#[derive(Drop)]
pub struct OlderStandings {
    rising: Vec<(u64, Standing)>,
    others: BTreeMap<u64, Standing>,
}

impl Model for OlderStandings {
    ghost use Rattle.std.specs.Prelude.{◌++◌};
    ghost use Rattle.upload_check.specs.Older.{OlderNotes, IsInOrder};

    ghost Value = { OlderNotes };

    ghost view = { λ s. s.rising.items ++ s.others.entries };

    ghost invariant = { λ s. IsInOrder s.rising.items };
}

impl OlderStandings {
    /// None. It takes no memory.
    pub fn new(alloc: Global) -> OlderStandings
        ensures { result ≡ [] }
    {
        OlderStandings {
            rising: Vec::new(alloc),
            others: BTreeMap::new(alloc),
        }
    }

    /// Where an element stands, if that is noted.
    pub fn look(&self, id: u64) -> Option<Standing>
        ensures { result ≡ standing_of self.now id }
    {
        match standing_at(self.rising.as_slice(), id) {
            Some(standing) => Some(standing),
            None => other_at(&self.others, id),
        }
    }

    /// Notes where an element stands now. `Memory` leaves what is noted.
    #[tactic(auto, using(crate::proofs::Older::puts_first))]
    pub fn set(&mut self, id: u64, standing: Standing) -> Result<(), Memory>
        ensures set { OnOk result (Puts id standing self.old self.new) }
        ensures memory { OnErr result (self.new ≡ self.old) }
    {
        match place_of(self.rising.as_slice(), id) {
            Some(place) => {
                put(&mut self.rising, place, id, standing);
                Ok(())
            }
            None => add(&mut self.rising, &mut self.others, id, standing),
        }
    }

    /// Notes where an element stands now of which something is noted. It takes no memory.
    #[tactic(auto, using(crate::proofs::Older::puts_first))]
    pub fn change(&mut self, id: u64, standing: Standing)
        requires { is_some (standing_of self.old id) ≡ true }
        ensures { Puts id standing self.old self.new }
    {
        match place_of(self.rising.as_slice(), id) {
            Some(place) => put(&mut self.rising, place, id, standing),
            None => change_other(&mut self.others, id, standing),
        }
    }
}

/// The place of an id in a list in order, by halving.
fn place_of(rising: &[(u64, Standing)], id: u64) -> Option<usize>
    requires { IsInOrder rising.now }
    ensures { IsPlaceOf rising.now id result }
{
    let mut low = 0;
    let mut high = rising.len();
    'halving: while low < high {
        let middle = low + (high - low) / 2;
        let other = rising[middle].0;
        if other == id {
            return Some(middle);
        }
        if other < id {
            low = middle + 1;
        } else {
            high = middle;
        }
    }
    None
}

fn standing_at(rising: &[(u64, Standing)], id: u64) -> Option<Standing>
    requires { IsInOrder rising.now }
    ensures { result ≡ standing_of rising.now id }
{
    match place_of(rising, id) {
        Some(place) => Some(rising[place].1),
        None => None,
    }
}

/// Whether an id comes behind all of a list in order.
fn is_past(rising: &[(u64, Standing)], id: u64) -> bool
    requires { IsInOrder rising.now }
    ensures { result ≡ true → AreBelow rising.now id }
{
    match rising.last() {
        Some(last) => last.0 < id,
        None => true,
    }
}

fn put(rising: &mut Vec<(u64, Standing)>, place: usize, id: u64, standing: Standing)
    requires order { IsInOrder rising.old.items }
    requires here { IsAtPlace rising.old.items id place }
    ensures order { IsInOrder rising.new.items }
    ensures put { Puts id standing rising.old.items rising.new.items }
{
    rising[place] = (id, standing);
}

/// Room for some in a list that has none yet, so that it doesn't grow step by step.
fn make_room(rising: &mut Vec<(u64, Standing)>) -> Result<(), Memory>
    ensures { rising.new.items ≡ rising.old.items }
{
    if rising.is_empty() {
        rising.reserve_exact(16)?;
    }
    Ok(())
}

fn push(rising: &mut Vec<(u64, Standing)>, id: u64, standing: Standing) -> Result<(), Memory>
    requires order { IsInOrder rising.old.items }
    requires below { AreBelow rising.old.items id }
    ensures order { IsInOrder rising.new.items }
    ensures put { OnOk result (Puts id standing rising.old.items rising.new.items) }
    ensures memory { OnErr result (rising.new.items ≡ rising.old.items) }
{
    make_room(rising)?;
    rising.push((id, standing))?;
    Ok(())
}

/// Notes an id of which nothing stands in the list.
fn add(
    rising: &mut Vec<(u64, Standing)>,
    others: &mut BTreeMap<u64, Standing>,
    id: u64,
    standing: Standing,
) -> Result<(), Memory>
    requires order { IsInOrder rising.old.items }
    requires none { standing_of rising.old.items id ≡ None }
    ensures order { IsInOrder rising.new.items }
    ensures set { OnOk result (Puts id standing (rising.old.items ++ others.old.entries) (rising.new.items ++ others.new.entries)) }
    ensures memory { OnErr result (rising.new.items ++ others.new.entries ≡ rising.old.items ++ others.old.entries) }
{
    if is_past(rising.as_slice(), id) {
        push(rising, id, standing)
    } else {
        set_other(others, id, standing)
    }
}

fn other_at(others: &BTreeMap<u64, Standing>, id: u64) -> Option<Standing>
    ensures { result ≡ standing_of others.now.entries id }
{
    others.get(&id).copied()
}

fn set_other(
    others: &mut BTreeMap<u64, Standing>,
    id: u64,
    standing: Standing,
) -> Result<(), Memory>
    ensures set { OnOk result (Puts id standing others.old.entries others.new.entries) }
    ensures memory { OnErr result (others.new.entries ≡ others.old.entries) }
{
    others.insert(id, standing)?;
    Ok(())
}

/// Only an entry that is new takes memory.
fn change_other(others: &mut BTreeMap<u64, Standing>, id: u64, standing: Standing)
    requires { is_some (standing_of others.old.entries id) ≡ true }
    ensures { Puts id standing others.old.entries others.new.entries }
{
    let _always = others.insert(id, standing).is_ok();
}
