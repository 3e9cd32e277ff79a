//! The machine.
ghost use Rattle.std.specs.Prelude.{◌≡◌, IfOk, IsTrue, ◌↔◌};
ghost use Rattle.hub_rows.specs.Rising.{last_of, may_add, added, text_of};

use machine_law::{Machine, Settled, Tag};
use osm_base::{Bytes, Memory, Steps};
use std::alloc::Global;
use std::sync::ledger::Ledger;

/// A list of numbers of two digits, to which a number may be added that is no less than the last.
pub struct Rising;

impl Machine for Rising {
    ghost use Rattle.std.specs.Prelude.{◌≡◌, ◌<◌, [], vec_len, vec_capacity};
    ghost use Rattle.hub_rows.specs.Rising.{rising_rules};
    ghost use Rattle.hub_rows.specs.Laws.{added_taken, nothing_consistent, added_consistent};

    type World = Vec<u64>;

    type Command = u64;

    type Query = u64;

    type Found = Bytes;

    type Plan = (u64, Option<u64>);

    type Entry = (Tag, u64);

    type Kept = (Tag, u64);

    type Look = Option<u64>;

    type State = [u64; 0];

    ghost state = { λ world. world.items };

    ghost rules = { rising_rules };

    ghost told = { λ found. found };

    ghost entry_of = { λ kept. kept };

    ghost has_room = { λ world entry. vec_len world < vec_capacity world };

    fn empty(alloc: Global) -> Vec<u64> {
        Vec::new(alloc)
    }

    fn plan<L: Ledger>(
        _alloc: Global,
        world: &Vec<u64>,
        command: u64,
        _steps: &mut Steps<L>,
    ) -> Result<(u64, Option<u64>), Memory> {
        Ok((command, last(world)))
    }

    fn still(world: &Vec<u64>, plan: &(u64, Option<u64>)) -> Result<(), Option<u64>> {
        let found = last(world);
        if are_same(plan.1, found) {
            Ok(())
        } else {
            Err(found)
        }
    }

    fn settle<L: Ledger>(
        alloc: Global,
        world: &Vec<u64>,
        plan: (u64, Option<u64>),
        tag: Tag,
        _moment: u64,
        _steps: &mut Steps<L>,
    ) -> Result<Settled<(Tag, u64)>, Memory> {
        add(alloc, world, plan.0, tag)
    }

    fn again<L: Ledger>(
        alloc: Global,
        world: &Vec<u64>,
        plan: (u64, Option<u64>),
        tag: Tag,
        _moment: u64,
        _steps: &mut Steps<L>,
    ) -> Result<Settled<(Tag, u64)>, Memory> {
        add(alloc, world, plan.0, tag)
    }

    fn tag(entry: &(Tag, u64)) -> Tag {
        entry.0
    }

    fn copy(_alloc: Global, entry: &(Tag, u64)) -> Result<(Tag, u64), Memory> {
        Ok(*entry)
    }

    fn keep(_alloc: Global, entry: &(Tag, u64)) -> Result<(Tag, u64), Memory> {
        Ok(*entry)
    }

    fn entry(_alloc: Global, kept: &(Tag, u64)) -> Result<(Tag, u64), Memory> {
        Ok(*kept)
    }

    fn accepts(_alloc: Global, world: &Vec<u64>, entry: &(Tag, u64)) -> Result<bool, Memory> {
        Ok(may_be_added(world, entry.1))
    }

    fn make_room(_alloc: Global, world: &mut Vec<u64>, _entry: &(Tag, u64)) -> Result<(), Memory> {
        world.reserve(1)?;
        Ok(())
    }

    fn apply(world: &mut Vec<u64>, entry: (Tag, u64)) {
        world.push_reserved(entry.1);
    }

    fn find<L: Ledger>(
        alloc: Global,
        world: &Vec<u64>,
        query: &u64,
        _moment: u64,
        _steps: &mut Steps<L>,
    ) -> Result<Bytes, Memory> {
        text(alloc, world.get(*query as usize).copied())
    }

    fn tell(_alloc: Global, found: Bytes) -> Result<Bytes, Memory> {
        Ok(found)
    }

    ghost entry_taken = { λ numbers tag moment number. added_taken numbers tag number };

    ghost start_consistent = { nothing_consistent };

    ghost after_consistent = { λ numbers entry may all. added_consistent numbers entry.1 may all };
}

fn last(world: &Vec<u64>) -> Option<u64>
    ensures { result ≡ last_of world.now.items }
{
    world.last().copied()
}

fn may_be_added(world: &Vec<u64>, number: u64) -> bool
    ensures { result ≡ may_add world.now.items number }
{
    number < 100
        && match last(world) {
            Some(last) => last <= number,
            None => true,
        }
}

fn are_same(a: Option<u64>, b: Option<u64>) -> bool
    ensures { IsTrue result ↔ (a ≡ b) }
{
    match (a, b) {
        (Some(x), Some(y)) => x == y,
        (None, None) => true,
        _ => false,
    }
}

fn add(
    alloc: Global,
    world: &Vec<u64>,
    number: u64,
    tag: Tag,
) -> Result<Settled<(Tag, u64)>, Memory>
    ensures { IfOk result (λ s. s ≡ added (may_add world.now.items number) tag number) }
{
    if !may_be_added(world, number) {
        return Ok(Settled {
            answer: Bytes::empty(alloc),
            entry: None,
        });
    }
    Ok(Settled {
        answer: text(alloc, Some(number))?,
        entry: Some((tag, number)),
    })
}

// The number as a byte, if there is one.
fn text(alloc: Global, number: Option<u64>) -> Result<Bytes, Memory>
    ensures { IfOk result (λ bytes. bytes ≡ text_of number) }
{
    match number {
        Some(number) => Bytes::of(alloc, &[(number % 256) as u8]),
        None => Ok(Bytes::empty(alloc)),
    }
}
