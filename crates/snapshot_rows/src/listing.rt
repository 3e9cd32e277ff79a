//! A small machine whose commands name the call that finds no memory.
ghost use Rattle.std.specs.Prelude.{◌≡◌, IfOk, nat_lt};
ghost use Rattle.snapshot_rows.specs.Listing.{noted, text_of};

use machine_law::{Machine, Settled, Tag};
use osm_base::{Bytes, Memory, Steps};
use std::alloc::Global;
use std::sync::ledger::Ledger;

/// The call that finds no memory.
#[derive(Clone, Copy, PartialEq, Eq)]
pub enum Lack {
    Nothing,
    Plan,
    Settle,
    Copy,
    /// Each world finds none for the first entry that names this, and finds it from then on.
    MakeRoom,
}

/// A number to be added.
#[derive(Clone, Copy, PartialEq, Eq)]
pub struct Wish {
    pub number: u64,
    pub lack: Lack,
}

/// A wish, and how many numbers there were when it was planned.
#[derive(Clone, Copy)]
pub struct Aim {
    pub wish: Wish,
    pub seen: u64,
}

/// A wish that came true.
#[derive(Clone, Copy, PartialEq, Eq)]
pub struct Noted {
    pub tag: Tag,
    pub wish: Wish,
}

/// The numbers, and whether room was refused.
#[derive(Drop)]
pub struct Numbers {
    pub numbers: Vec<u64>,
    pub refused: bool,
}

/// A list of numbers of two digits, to which any such number may be added.
pub struct Listing;

impl Machine for Listing {
    ghost use Rattle.std.specs.Prelude.{◌≡◌, ◌<◌, vec_len, vec_capacity};
    ghost use Rattle.snapshot_rows.specs.Listing.{listing_rules, noted_taken};

    type World = Numbers;

    type Command = Wish;

    type Query = u64;

    type Found = Bytes;

    type Plan = Aim;

    type Entry = Noted;

    type Kept = Noted;

    type Look = u64;

    type State = [u64; 0];

    ghost state = { λ world. world.numbers.items };

    ghost rules = { listing_rules };

    ghost told = { λ found. found };

    ghost entry_of = { λ kept. kept };

    ghost has_room = { λ world entry. vec_len world.numbers < vec_capacity world.numbers };

    fn empty(alloc: Global) -> Numbers {
        Numbers {
            numbers: Vec::new(alloc),
            refused: false,
        }
    }

    fn plan<L: Ledger>(
        _alloc: Global,
        world: &Numbers,
        command: Wish,
        _steps: &mut Steps<L>,
    ) -> Result<Aim, Memory> {
        if command.lack == Lack::Plan {
            return Err(Memory);
        }
        Ok(Aim {
            wish: command,
            seen: world.numbers.len() as u64,
        })
    }

    fn still(world: &Numbers, plan: &Aim) -> Result<(), u64> {
        let found = world.numbers.len() as u64;
        if plan.seen == found {
            Ok(())
        } else {
            Err(found)
        }
    }

    fn settle<L: Ledger>(
        alloc: Global,
        _world: &Numbers,
        plan: Aim,
        tag: Tag,
        _moment: u64,
        _steps: &mut Steps<L>,
    ) -> Result<Settled<Noted>, Memory> {
        note(alloc, plan.wish, tag)
    }

    fn again<L: Ledger>(
        alloc: Global,
        _world: &Numbers,
        plan: Aim,
        tag: Tag,
        _moment: u64,
        _steps: &mut Steps<L>,
    ) -> Result<Settled<Noted>, Memory> {
        note(alloc, plan.wish, tag)
    }

    fn tag(entry: &Noted) -> Tag {
        entry.tag
    }

    fn copy(_alloc: Global, entry: &Noted) -> Result<Noted, Memory> {
        if entry.wish.lack == Lack::Copy {
            return Err(Memory);
        }
        Ok(*entry)
    }

    fn keep(alloc: Global, entry: &Noted) -> Result<Noted, Memory> {
        Listing::copy(alloc, entry)
    }

    fn entry(_alloc: Global, kept: &Noted) -> Result<Noted, Memory> {
        Ok(*kept)
    }

    fn accepts(_alloc: Global, _world: &Numbers, entry: &Noted) -> Result<bool, Memory> {
        Ok(entry.wish.number < 100)
    }

    fn make_room(_alloc: Global, world: &mut Numbers, entry: &Noted) -> Result<(), Memory> {
        if entry.wish.lack == Lack::MakeRoom && !world.refused {
            world.refused = true;
            return Err(Memory);
        }
        world.numbers.reserve(1)?;
        Ok(())
    }

    fn apply(world: &mut Numbers, entry: Noted) {
        world.numbers.push_reserved(entry.wish.number);
    }

    fn find<L: Ledger>(
        alloc: Global,
        world: &Numbers,
        query: &u64,
        _moment: u64,
        _steps: &mut Steps<L>,
    ) -> Result<Bytes, Memory> {
        text(alloc, world.numbers.get(*query as usize).copied())
    }

    fn tell(_alloc: Global, found: Bytes) -> Result<Bytes, Memory> {
        Ok(found)
    }

    ghost entry_taken = { λ numbers tag moment wish. noted_taken numbers tag wish };

    ghost start_consistent = { tt };

    ghost after_consistent = { λ numbers entry may all. tt };
}

// What a wish comes to.
fn note(alloc: Global, wish: Wish, tag: Tag) -> Result<Settled<Noted>, Memory>
    ensures { IfOk result (λ s. s ≡ noted (nat_lt wish.number 100) tag wish) }
{
    if wish.lack == Lack::Settle {
        return Err(Memory);
    }
    if wish.number >= 100 {
        return Ok(Settled {
            answer: Bytes::empty(alloc),
            entry: None,
        });
    }
    Ok(Settled {
        answer: text(alloc, Some(wish.number))?,
        entry: Some(Noted { tag, wish }),
    })
}

// The number as a byte, if there is one.
fn text(alloc: Global, number: Option<u64>) -> Result<Bytes, Memory>
    ensures { IfOk result (λ bytes. bytes ≡ text_of number) }
{
    match number {
        Some(number) => Bytes::of(alloc, &[(number % 256) as u8]),
        None => Ok(Bytes::empty(alloc)),
    }
}
