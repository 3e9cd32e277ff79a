//! A journal with two worlds after it, of which a hub's two copies begin.
ghost use Rattle.std.specs.Prelude.{◌≡◌, ◌==◌, ◌+◌, ◌++◌, ◌∷◌, [], fold, true, false, IfOk, IsTrue, MatchOption};
ghost use Rattle.machine_law.specs.Rules.{replay, is_legal, is_legal_from};
ghost use Rattle.hub_core.specs.Journal.{calls_of, is_numbered};

use hub_core::CountedJournal;
use machine_law::Machine;
use osm_base::Memory;
use std::alloc::Global;
use std::marker::Model;

/// A journal, and two worlds after it, each of which followed the entries by itself. Contracts see the
/// list of entries.
#[derive(Drop)]
pub struct Twins<M: Machine> {
    journal: CountedJournal<M>,
    first: M::World,
    second: M::World,
}

impl<M: Machine> Model for Twins<M> {
    ghost use Rattle.std.specs.Prelude.{◌≡◌, List};
    ghost use Rattle.machine_law.specs.Rules.{replay};

    ghost Value = { List M.Entry };

    ghost view = { λ t. t.journal };

    ghost invariant = { λ t. (M.state t.first ≡ replay M.rules t.journal) × (M.state t.second ≡ replay M.rules t.journal) };
}

impl<M: Machine> Twins<M> {
    /// A journal, with worlds that followed its entries. It takes no memory.
    pub fn of(journal: CountedJournal<M>, first: M::World, second: M::World) -> Twins<M>
        requires first { M.state first ≡ replay M.rules journal }
        requires second { M.state second ≡ replay M.rules journal }
        ensures { result ≡ journal }
    {
        Twins {
            journal,
            first,
            second,
        }
    }

    /// The journal with its counts.
    pub fn journal(&self) -> &CountedJournal<M>
        ensures { result.now ≡ self.now }
    {
        &self.journal
    }

    /// The journal, and the worlds after it.
    pub fn into_parts(self) -> (CountedJournal<M>, M::World, M::World)
        ensures journal { result.0 ≡ self }
        ensures first { M.state result.1 ≡ replay M.rules self }
        ensures second { M.state result.2 ≡ replay M.rules self }
    {
        let Twins {
            journal,
            first,
            second,
        } = self;
        (journal, first, second)
    }
}

/// The world, once it has followed these entries too, each of which it tests and takes by a copy of its
/// own: none exactly where one of them may not come next.
pub fn follow_all<M: Machine>(
    alloc: Global,
    mut world: M::World,
    entries: &[M::Entry],
) -> Result<Option<M::World>, Memory>
    ensures { IfOk result (λ found. MatchOption found (is_legal_from M.rules (M.state world) entries.now ≡ false)
        (λ after. (is_legal_from M.rules (M.state world) entries.now ≡ true)
        × (M.state after ≡ fold M.rules.after (M.state world) entries.now))) }
{
    for place in 0..entries.len() {
        let taken = follow_next::<M>(alloc, &mut world, &entries[place])?;
        if !taken {
            return Ok(None);
        }
    }
    Ok(Some(world))
}

// Has a world follow an entry, by a copy, where it may come next.
fn follow_next<M: Machine>(
    alloc: Global,
    world: &mut M::World,
    entry: &M::Entry,
) -> Result<bool, Memory>
    ensures answer { IfOk result (λ taken. taken ≡ M.rules.takes (M.state world.old) entry.now) }
    ensures after { IfOk result (λ taken. IsTrue taken → M.state world.new ≡ M.rules.after (M.state world.old) entry.now) }
{
    if !M::accepts(alloc, world, entry)? {
        return Ok(false);
    }
    M::make_room(alloc, world, entry)?;
    let own = M::copy(alloc, entry)?;
    M::apply(world, own);
    Ok(true)
}

/// Puts these entries at the end of a journal, each of which may come next there: `false` exactly where
/// one of them isn't the next call of its session, and then it and those behind it are let go.
pub fn push_all<M: Machine>(
    journal: &mut CountedJournal<M>,
    mut entries: Vec<M::Entry>,
) -> Result<bool, Memory>
    requires { is_legal M.rules (journal.old ++ entries.items) ≡ true }
    ensures pushed { IfOk result (λ pushed. IsTrue pushed → journal.new ≡ journal.old ++ entries.items) }
    ensures refused { IfOk result (λ pushed. pushed ≡ false → is_numbered M.rules.tag_of [] (journal.old ++ entries.items) ≡ false) }
{
    entries.reverse();
    'entries: while let Some(entry) = entries.pop() {
        let pushed = push_next::<M>(journal, entry)?;
        if !pushed {
            return Ok(false);
        }
    }
    Ok(true)
}

// Puts an entry at the end of a journal, if it is the next call of its session.
fn push_next<M: Machine>(journal: &mut CountedJournal<M>, entry: M::Entry) -> Result<bool, Memory>
    requires { M.rules.takes (replay M.rules journal.old) entry ≡ true }
    ensures answer { IfOk result
        (λ pushed. pushed ≡ ((M.rules.tag_of entry).call == calls_of M.rules.tag_of (M.rules.tag_of entry).session journal.old + 1)) }
    ensures pushed { IfOk result (λ pushed. IsTrue pushed → journal.new ≡ journal.old ++ entry ∷ []) }
{
    let tag = M::tag(&entry);
    if !is_next(tag.call, journal.calls(tag.session)) {
        return Ok(false);
    }
    journal.push(entry)?;
    Ok(true)
}

// Whether a call is the next one after so many.
fn is_next(call: u64, calls: u64) -> bool
    ensures { result ≡ (call == calls + 1) }
{
    call > 0 && call - 1 == calls
}
