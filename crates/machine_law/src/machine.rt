//! What a machine is: its world, its plans, and the laws that it keeps.
//!
//! A plan is told to have been made on an earlier state, in which the journal's first entries end,
//! and not on a named one.
ghost use Rattle.std.specs.Prelude.{◌≡◌, ℕ, List, true, IfOk, OnOk, MatchResult, IfSome};
ghost use Rattle.machine_law.specs.declared.tags.Tag.{Tag};
ghost use Rattle.machine_law.specs.Rules.{Rules, Later, IsForeseen};

use crate::tags::{Settled, Tag};
use osm_base::{Bytes, Memory, Steps};
use std::alloc::Global;
use std::sync::ledger::Ledger;

/// A world that changes by entries, and the rules that it keeps. Each law is a clause of the call
/// that has to meet it, but for the last three. Moments are seconds since 1970.
pub trait Machine {
    /// What is kept of the entries so far.
    type World: Drop;

    /// What a caller wants to be done.
    type Command: Drop;

    /// What a caller wants to know.
    type Query: Drop;

    /// What a query found. It borrows nothing, so the world is given back before it is told.
    type Found: Drop;

    /// A command, with what was found out about it on some world.
    type Plan: Drop;

    /// What an accepted command does.
    type Entry: Drop;

    /// What a journal keeps of an entry.
    type Kept: Drop;

    /// Where a plan and a world differ.
    type Look: Drop;

    /// What a world stands for. No value of it is made.
    type State;

    // The state that a world stands for.
    ghost state: { Self.World → Self.State };

    // What commands and queries come to on each state.
    ghost rules: { Rules Self.State Self.Command Self.Query Self.Plan Self.Entry Self.Look };

    // The answer that what was found comes to.
    ghost told: { Self.Found → List ℕ };

    // The entry that is kept.
    ghost entry_of: { Self.Kept → Self.Entry };

    // Whether an entry can be applied without memory.
    ghost has_room: { Self.World → Self.Entry → Type 0 };

    /// The world before all entries. It takes no memory.
    fn empty(alloc: Global) -> Self::World
        ensures { state result ≡ rules.start };

    /// A plan of a command on this world.
    fn plan<L: Ledger>(
        alloc: Global,
        world: &Self::World,
        command: Self::Command,
        steps: &mut Steps<L>,
    ) -> Result<Self::Plan, Memory>
        ensures { IfOk result (λ p. rules.planned (state world.now) command p × rules.stands p (state world.now)) };

    /// Whether a plan stands on this world, or else where they differ. It takes no memory.
    fn still(world: &Self::World, plan: &Self::Plan) -> Result<(), Self::Look>
        ensures { MatchResult result (λ _. rules.stands plan.now (state world.now))
            (λ look. ¬ rules.stands plan.now (state world.now) × rules.differs look plan.now (state world.now)) };

    /// What the command of a plan that stands comes to on this world, without a step. The plan is given
    /// up, so that the entry can have the command itself.
    fn settle<L: Ledger>(
        alloc: Global,
        world: &Self::World,
        plan: Self::Plan,
        tag: Tag,
        moment: u64,
        steps: &mut Steps<L>,
    ) -> Result<Settled<Self::Entry>, Memory>
        requires stands { rules.stands plan (state world.now) }
        requires foreseen { IsForeseen rules plan (state world.now) }
        ensures acts { (begun : Self.State) (command : Self.Command) → rules.planned begun command plan → Later rules begun (state world.now)
            → IfOk result (λ s. s ≡ rules.act (state world.now) tag moment command) }
        ensures steps { steps.new ≡ steps.old };

    /// What a plan's command comes to on this world, whether the plan stands or not.
    fn again<L: Ledger>(
        alloc: Global,
        world: &Self::World,
        plan: Self::Plan,
        tag: Tag,
        moment: u64,
        steps: &mut Steps<L>,
    ) -> Result<Settled<Self::Entry>, Memory>
        requires { IsForeseen rules plan (state world.now) }
        ensures { (begun : Self.State) (command : Self.Command) → rules.planned begun command plan → Later rules begun (state world.now)
            → IfOk result (λ s. s ≡ rules.act (state world.now) tag moment command) };

    /// Whose call made the entry.
    fn tag(entry: &Self::Entry) -> Tag
        ensures { result ≡ rules.tag_of entry.now };

    /// A second entry that is equal to this one.
    fn copy(alloc: Global, entry: &Self::Entry) -> Result<Self::Entry, Memory>
        ensures { IfOk result (λ e. e ≡ entry.now) };

    /// What a journal keeps of this entry.
    fn keep(alloc: Global, entry: &Self::Entry) -> Result<Self::Kept, Memory>
        ensures { IfOk result (λ kept. entry_of kept ≡ entry.now) };

    /// An entry that is equal to the kept one.
    fn entry(alloc: Global, kept: &Self::Kept) -> Result<Self::Entry, Memory>
        ensures { IfOk result (λ entry. entry ≡ entry_of kept.now) };

    /// Whether an entry may come next on this world.
    fn accepts(alloc: Global, world: &Self::World, entry: &Self::Entry) -> Result<bool, Memory>
        ensures { IfOk result (λ b. b ≡ rules.takes (state world.now) entry.now) };

    /// Takes all memory that `apply` needs for this entry.
    fn make_room(alloc: Global, world: &mut Self::World, entry: &Self::Entry) -> Result<(), Memory>
        requires { rules.takes (state world.old) entry.now ≡ true }
        ensures same { state world.new ≡ state world.old }
        ensures room { OnOk result (has_room world.new entry.now) };

    /// Applies an entry. It takes no memory.
    fn apply(world: &mut Self::World, entry: Self::Entry)
        requires taken { rules.takes (state world.old) entry ≡ true }
        requires room { has_room world.old entry }
        ensures { state world.new ≡ rules.after (state world.old) entry };

    /// What a query finds on this world.
    fn find<L: Ledger>(
        alloc: Global,
        world: &Self::World,
        query: &Self::Query,
        moment: u64,
        steps: &mut Steps<L>,
    ) -> Result<Self::Found, Memory>
        ensures { IfOk result (λ found. told found ≡ rules.reply (state world.now) query.now moment) };

    /// The answer to the query that found this, in the form of a command's answer.
    fn tell(alloc: Global, found: Self::Found) -> Result<Bytes, Memory>
        ensures { IfOk result (λ bytes. bytes ≡ told found) };

    // The entry of an accepted command may come next, and carries the tag.
    ghost entry_taken: { (s : Self.State) (tag : Tag) (moment : ℕ) (command : Self.Command) → IfSome (rules.act s tag moment command).entry
        (λ e. (rules.takes s e ≡ true) × (rules.tag_of e ≡ tag)) };

    // The first state is consistent.
    ghost start_consistent: { rules.consistent rules.start };

    // An entry that may come next leaves a consistent state consistent.
    ghost after_consistent: { (s : Self.State) (e : Self.Entry) → rules.takes s e ≡ true → rules.consistent s
        → rules.consistent (rules.after s e) };
}
