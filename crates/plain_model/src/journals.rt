//! The plain program's journal.
//!
//! A command is judged before it is kept. `Journal::judge` gives the answer, its text is made, and
//! only then `Journal::keep` changes anything. So want of memory for a reply's text never leaves a
//! command in the journal that was answered 503.
//!
//! `Journal::judge` and `Journal::keep` stand beside `Journal::act`, which is the one after the
//! other.
//!
//! The next call number of a session follows that of its last entry, since a legal journal numbers
//! the calls of a session without a gap. The plain program looks for that entry from the journal's
//! end and finds it at once where one session works on it; a book with counts of its own takes its
//! place before many sessions come.
ghost use Rattle.std.specs.Prelude.{◌≡◌, ◌<◌, ◌^◌, [], ◌∷◌, ◌++◌, IfOk, OnOk, OnErr};
ghost use Rattle.osm_element.specs.Elements.{IsConsistent};
ghost use Rattle.osm_element.specs.Later.{IsBegun};
ghost use Rattle.osm_change.specs.Moments.{HasShownMoments};
ghost use Rattle.osm_model.specs.Act.{act};
ghost use Rattle.osm_model.specs.Journal.{IsLegal, replay, journal_after, calls_of};
ghost use Rattle.plain_model.specs.Judgement.{IsJudgedOn, IsKeptOn, answer_of, kept_after};
ghost use Rattle.osm_model.specs.Timely.{IsTimely};

use crate::alterations::{Alteration, take_alteration};
use crate::judgements::judge;
use osm_base::{Memory, Stamp, TryCopy, User};
use osm_change::Answer;
use osm_model::{Command, Entry, Fault, State};
use std::alloc::Global;
use std::marker::Model;

/// The accepted commands in order, and the state that they make. Contracts see it as the list of
/// its entries.
#[derive(Drop)]
pub struct Journal {
    entries: Vec<Entry>,
    state: State,
}

impl Model for Journal {
    ghost use Rattle.std.specs.Prelude.{List};
    ghost use Rattle.osm_model.specs.declared.commands.Entry.{Entry};

    ghost Value = { List Entry };

    ghost use Rattle.plain_model.specs.Judgement.{IsJournal};

    ghost view = { λ j. j.entries.items };

    ghost invariant = { λ j. IsJournal j.entries.items j.state };
}

/// An entry that isn't kept yet, and what it changes.
#[derive(Drop)]
pub struct Kept {
    entry: Entry,
    alteration: Alteration,
}

/// What a command comes to on a journal, before it is kept there. A refused one is never kept.
#[derive(Drop)]
pub struct Judgement {
    kept: Option<Kept>,
    answer: Answer<'static>,
}

impl Judgement {
    /// What the command is answered.
    pub fn answer(&self) -> &Answer<'static>
        ensures { result.now ≡ answer_of self.now }
    {
        &self.answer
    }
}

impl Journal {
    /// A journal without entries. It takes no memory.
    pub fn new(alloc: Global) -> Journal
        ensures { result ≡ [] }
    {
        Journal {
            entries: Vec::new(alloc),
            state: State::empty(alloc),
        }
    }

    /// The accepted commands, the first one first.
    pub fn entries(&self) -> &[Entry]
        ensures all { result.now ≡ self.now }
        ensures legal { IsLegal self.now }
    {
        self.entries.as_slice()
    }

    /// The map that the entries make.
    pub fn state(&self) -> &State
        ensures replayed { result.now ≡ replay self.now }
        ensures consistent { IsConsistent result.now.elements }
        ensures begun { IsBegun result.now.elements }
        ensures timely { IsTimely result.now }
    {
        &self.state
    }

    /// Judges the command. Nothing is kept yet, so the answer can be put into its last form first.
    pub fn judge(
        &self,
        alloc: Global,
        session: u32,
        user: User,
        moment: u64,
        command: Command,
    ) -> Result<Judgement, Memory>
        ensures answer { IfOk result (λ judged. answer_of judged ≡ (act (replay self.now) user moment command).1) }
        ensures shown { IfOk result (λ judged. HasShownMoments (answer_of judged)) }
        ensures judged { IfOk result (IsJudgedOn self.now) }
        ensures after { IfOk result (λ judged. kept_after self.now judged
            ≡ journal_after self.now session user moment command) }
    {
        let at = Stamp::after(self.state.last, moment);
        match judge(alloc, &self.state, &user, at, &command) {
            Ok((alteration, answer)) => {
                let entry = Entry {
                    session,
                    call: calls_of(self.entries(), session) + 1,
                    user,
                    stamp: at,
                    command,
                };
                Ok(Judgement {
                    kept: Some(Kept { entry, alteration }),
                    answer,
                })
            }
            Err(Fault::Refused(refusal)) => Ok(Judgement {
                kept: None,
                answer: Answer::Refused(refusal),
            }),
            Err(Fault::Memory) => Err(Memory),
        }
    }

    /// Keeps what was judged on this journal, and gives its answer back.
    #[tactic(auto, using(crate::proofs::JournalLemmas::replay_consistent))]
    pub fn keep(&mut self, judged: Judgement) -> Result<Answer<'static>, Memory>
        requires { IsJudgedOn self.old judged }
        ensures answer { IfOk result (λ answer. answer ≡ answer_of judged) }
        ensures ok { OnOk result (self.new ≡ kept_after self.old judged) }
        ensures legal { OnOk result (IsLegal self.new) }
        ensures consistent { OnOk result (IsConsistent (replay self.new).elements) }
        ensures memory { OnErr result (self.new ≡ self.old) }
    {
        let _ = &self.entries;
        let Judgement { kept, answer } = judged;
        match kept {
            Some(kept) => {
                self.keep_entry(kept)?;
                Ok(answer)
            }
            None => Ok(answer),
        }
    }

    fn keep_entry(&mut self, kept: Kept) -> Result<(), Memory>
        requires { IsKeptOn self.old kept }
        ensures ok { OnOk result (self.new ≡ self.old ++ kept.entry ∷ []) }
        ensures legal { OnOk result (IsLegal self.new) }
        ensures consistent { OnOk result (IsConsistent (replay self.new).elements) }
        ensures memory { OnErr result (self.new ≡ self.old) }
    {
        let Kept { entry, alteration } = kept;
        self.entries.reserve(1)?;
        take_alteration(&mut self.state, alteration)?;
        self.state.last = entry.stamp;
        self.entries.push_reserved(entry);
        Ok(())
    }

    /// Does the command, and keeps it where it is accepted.
    pub fn act(
        &mut self,
        alloc: Global,
        session: u32,
        user: &User,
        moment: u64,
        command: Command,
    ) -> Result<Answer<'static>, Memory>
        ensures answer { IfOk result (λ answer. answer ≡ (act (replay self.old) user.now moment command).1) }
        ensures entries { OnOk result (self.new ≡ journal_after self.old session user.now moment command) }
        ensures legal { OnOk result (IsLegal self.new) }
        ensures consistent { OnOk result (IsConsistent (replay self.new).elements) }
        ensures memory { OnErr result (self.new ≡ self.old) }
    {
        let user = user.copy(alloc)?;
        let judged = self.judge(alloc, session, user, moment, command)?;
        self.keep(judged)
    }
}

/// How many of the entries are of the session. Its calls are numbered from 1, so its last one tells,
/// which is sought from the end.
pub fn calls_of(entries: &[Entry], session: u32) -> u64
    requires { IsLegal entries.now }
    ensures counted { result ≡ calls_of session entries.now }
    ensures few { result < 2 ^ 63 }
{
    for place in (0..entries.len()).rev() {
        let entry = &entries[place];
        if entry.session == session {
            return entry.call;
        }
    }
    0
}
