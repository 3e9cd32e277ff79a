//! The notes in a store: room for an entry, and its application.
ghost use Rattle.std.specs.Prelude.{◌≡◌, ℕ, ◌+◌, ◌-◌, ◌<◌, ◌≤◌, ◌∷◌, [], ◌++◌, true, Option, Some, None, Ok, Err, IfErr, IsOk, MatchOption, MatchResult, OnOk, length, slice_get, slice_set, slice_index};
ghost use Rattle.osm_base.specs.declared.people.Owner.{Owner};
ghost use Rattle.tile_grid.specs.Grid.{free_at};
ghost use Rattle.notes_core.specs.declared.notes.Note.{Note};
ghost use Rattle.notes_core.specs.Act.{empty, note, known, open_note, closed_note, not_full, commentable_note, reopenable_note, judge, opened, comment_of, commented, after, takes};
ghost use Rattle.notes_core.specs.Plan.{comments_of};
ghost use Rattle.notes_core.specs.Sent.{HasTimelyEnd};
ghost use Rattle.notes_core.specs.World.{state_of, notes_of, spares_of, places_of, IsPlaced, HasRoomFor, HasCommentRoom, IsTimelyComment, IsTimelyMoment};

use crate::commands::{NoteCommand, NoteEntry, NoteSubject};
use crate::kept::KeptNote;
use crate::notes::{NoteComment, NoteRefusal};
use osm_base::{COMMENT_LIMIT, Coord, Memory, Stamp};
use std::alloc::Global;
use std::marker::Model;
use tile_grid::Grid;

/// The notes with the cells in which they lie, the stamp of the last entry, and the allocator, since
/// entries are applied without one.
#[derive(Drop)]
pub struct NotesWorld {
    alloc: Global,
    kept: Vec<KeptNote>,
    cells: Grid,
    last: Stamp,
}

impl Model for NotesWorld {
    ghost use Rattle.std.specs.Prelude.{◌-◌, vec_len, vec_capacity};
    ghost use Rattle.notes_core.specs.World.{Parts, IsSound};

    ghost Value = { Parts };

    ghost view = { λ w. record { kept = w.kept.items; spare = vec_capacity w.kept - vec_len w.kept; cells = w.cells; last = w.last } };

    ghost invariant = { λ w. IsSound w.kept.items w.cells w.last };
}

impl NotesWorld {
    /// No notes. It takes no memory.
    pub fn empty(alloc: Global) -> NotesWorld
        ensures { state_of result ≡ empty }
    {
        NotesWorld {
            alloc,
            kept: Vec::new(alloc),
            cells: Grid::new(alloc),
            last: Stamp(0),
        }
    }

    /// The number that the next note gets.
    pub fn next_number(&self) -> u64
        ensures { result ≡ length (state_of self.now).notes + 1 }
    {
        self.kept.len() as u64 + 1
    }

    /// The notes by their cells.
    pub fn cells(&self) -> &Grid
        ensures { IsPlaced (places_of (state_of self.now).notes) result.now }
    {
        &self.cells
    }

    /// The stamp of the last entry, 0 before the first.
    pub fn last_stamp(&self) -> Stamp
        ensures value { result ≡ (state_of self.now).last }
        ensures timely { IsTimelyMoment result }
    {
        self.last
    }

    /// A law: the last stamp is bounded.
    fn laws(&self)
        ensures { IsTimelyMoment (state_of self.now).last }
    {
        let _ = &self.last;
    }

    /// One note: `None` where there never was one with this number.
    pub fn note(&self, id: u64) -> Option<&KeptNote>
        ensures { MatchOption result (note (state_of self.now) id ≡ None) (λ found. note (state_of self.now) id ≡ Some found.now.note) }
    {
        if id == 0 {
            None
        } else {
            self.kept.get(id as usize - 1)
        }
    }

    /// How many comments a note has: 0 where there is no such note.
    pub fn comments_of(&self, id: u64) -> u64
        ensures { result ≡ comments_of (state_of self.now) id }
    {
        match self.note(id) {
            Some(found) => found.count(),
            None => 0,
        }
    }

    /// A note that is there.
    pub fn known_note(&self, id: u64) -> &KeptNote
        requires counted { 0 < id }
        requires known { id ≤ length (state_of self.now).notes }
        ensures { note (state_of self.now) id ≡ Some result.now.note }
    {
        &self.kept[id as usize - 1]
    }

    /// A note, or why there is none.
    pub fn known(&self, id: u64) -> Result<&KeptNote, NoteRefusal>
        ensures value { MatchResult result (λ found. known (state_of self.now) id ≡ Ok found.now.note) (λ refusal. known (state_of self.now) id ≡ Err refusal) }
        ensures timely { IfErr result HasTimelyEnd }
    {
        match self.note(id) {
            Some(found) => Ok(found),
            None => Err(NoteRefusal::NoNote { id }),
        }
    }

    fn open_note(&self, id: u64) -> Result<&KeptNote, NoteRefusal>
        ensures value { MatchResult result (λ found. open_note (state_of self.now) id ≡ Ok found.now.note)
            (λ refusal. open_note (state_of self.now) id ≡ Err refusal) }
        ensures timely { IfErr result HasTimelyEnd }
    {
        let found = self.known(id)?;
        match found.closed() {
            Some(closed_at) => Err(NoteRefusal::NoteClosed { closed_at, id }),
            None => Ok(found),
        }
    }

    fn closed_note(&self, id: u64) -> Result<&KeptNote, NoteRefusal>
        ensures value { MatchResult result (λ found. closed_note (state_of self.now) id ≡ Ok found.now.note)
            (λ refusal. closed_note (state_of self.now) id ≡ Err refusal) }
        ensures timely { IfErr result HasTimelyEnd }
    {
        let found = self.known(id)?;
        match found.closed() {
            Some(_) => Ok(found),
            None => Err(NoteRefusal::NoteOpen { id }),
        }
    }

    /// Whether a command is accepted here, whoever asks it and whenever, or why it isn't. It takes
    /// no memory.
    pub fn judge(&self, command: &NoteCommand) -> Result<(), NoteRefusal>
        ensures value { (caller : Option Owner) (t : ℕ) → MatchResult result (λ _. IsOk (judge (state_of self.now) caller t command.now))
            (λ refusal. judge (state_of self.now) caller t command.now ≡ Err refusal) }
        ensures timely { IfErr result HasTimelyEnd }
    {
        match command {
            NoteCommand::OpenNote { .. } => Ok(()),
            NoteCommand::Comment { id, .. } => self.takes_comment(*id),
            NoteCommand::CloseNote { id, .. } => self.takes_closing(*id),
            NoteCommand::Reopen { id, .. } => self.takes_reopening(*id),
        }
    }

    fn takes_comment(&self, id: u64) -> Result<(), NoteRefusal>
        ensures value { MatchResult result (λ _. IsOk (commentable_note (state_of self.now) id))
            (λ refusal. commentable_note (state_of self.now) id ≡ Err refusal) }
        ensures timely { IfErr result HasTimelyEnd }
    {
        let found = self.open_note(id)?;
        has_room(id, found)
    }

    fn takes_closing(&self, id: u64) -> Result<(), NoteRefusal>
        ensures value { MatchResult result (λ _. IsOk (open_note (state_of self.now) id))
            (λ refusal. open_note (state_of self.now) id ≡ Err refusal) }
        ensures timely { IfErr result HasTimelyEnd }
    {
        self.open_note(id)?;
        Ok(())
    }

    fn takes_reopening(&self, id: u64) -> Result<(), NoteRefusal>
        ensures value { MatchResult result (λ _. IsOk (reopenable_note (state_of self.now) id))
            (λ refusal. reopenable_note (state_of self.now) id ≡ Err refusal) }
        ensures timely { IfErr result HasTimelyEnd }
    {
        let found = self.closed_note(id)?;
        has_room(id, found)
    }

    /// Whether an entry may come next: its command is accepted at its stamp, and that is no earlier
    /// than the last one. It takes no memory.
    pub fn takes(&self, entry: &NoteEntry) -> bool
        ensures { result ≡ takes (state_of self.now) entry.now }
    {
        if Stamp::after(self.last, entry.stamp.seconds()) != entry.stamp {
            return false;
        }
        match self.judge(&entry.command) {
            Ok(()) => true,
            Err(_) => false,
        }
    }
}

impl NotesWorld {
    /// Takes the memory that an entry needs. `Memory` leaves the notes as they were, and the call may
    /// be made again.
    pub fn make_room(&mut self, alloc: Global, entry: &NoteEntry) -> Result<(), Memory>
        ensures same { state_of self.new ≡ state_of self.old }
        ensures ok { OnOk result (takes (state_of self.old) entry.now ≡ true → HasRoomFor self.new entry.now.command) }
    {
        match entry.command.subject() {
            NoteSubject::New(at) => self.room_for_note(alloc, at),
            NoteSubject::Known(id) => self.room_for_comment(id),
        }
    }

    /// Room that was promised in the cell before, for an entry that then didn't come, is used again.
    fn room_for_note(&mut self, alloc: Global, at: Coord) -> Result<(), Memory>
        ensures same { state_of self.new ≡ state_of self.old }
        ensures ok { OnOk result ((0 < self.new.spare) × (0 < free_at self.new.cells at)) }
    {
        self.kept.reserve(1)?;
        self.cells.forget(at);
        self.cells.room(alloc, &[at])
    }

    fn room_for_comment(&mut self, id: u64) -> Result<(), Memory>
        ensures same { state_of self.new ≡ state_of self.old }
        ensures ok { OnOk result (0 < id → id ≤ length (state_of self.old).notes → HasCommentRoom self.new id) }
    {
        if id == 0 || id > self.kept.len() as u64 {
            return Ok(());
        }
        take_room(&mut self.kept, id as usize - 1)
    }

    /// Does an entry that is accepted here, on the room that was taken for it. It takes no memory.
    pub fn apply(&mut self, entry: NoteEntry)
        requires accepted { takes (state_of self.old) entry ≡ true }
        requires room { HasRoomFor self.old entry.command }
        ensures { state_of self.new ≡ after (state_of self.old) entry }
    {
        self.laws();
        match entry.command.subject() {
            NoteSubject::New(at) => self.open(at, comment_from(entry)),
            NoteSubject::Known(id) => self.add(id, comment_from(entry)),
        }
    }

    /// Adds a note with its first comment, whose stamp is the last one then.
    fn open(&mut self, at: Coord, first: NoteComment)
        requires room { (0 < self.old.spare) × (0 < free_at self.old.cells at) }
        requires timely { IsTimelyComment first }
        ensures { state_of self.new ≡ record { notes = (state_of self.old).notes ++ opened at first ∷ []; last = first.stamp } }
    {
        self.last = first.stamp;
        self.kept
            .push_reserved(KeptNote::open(self.alloc, at, first));
        self.cells.place(self.kept.len() as u64, at);
    }

    /// Adds a comment to a note. Its stamp is the last one then.
    fn add(&mut self, id: u64, comment: NoteComment)
        requires counted { 0 < id }
        requires known { id ≤ length (state_of self.old).notes }
        requires room { HasCommentRoom self.old id }
        requires timely { IsTimelyComment comment }
        ensures { (n : Note) → note (state_of self.old) id ≡ Some n
            → state_of self.new ≡ record { notes = slice_set (state_of self.old).notes (id - 1) (commented n comment); last = comment.stamp } }
    {
        self.last = comment.stamp;
        add_comment(&mut self.kept, id as usize - 1, comment);
    }
}

/// Whether there is room for one more comment of a note, or why there isn't.
fn has_room(id: u64, found: &KeptNote) -> Result<(), NoteRefusal>
    ensures value { MatchResult result (λ _. not_full id found.now.note ≡ Ok found.now.note) (λ refusal. not_full id found.now.note ≡ Err refusal) }
    ensures timely { IfErr result HasTimelyEnd }
{
    if found.count() < COMMENT_LIMIT as u64 {
        Ok(())
    } else {
        Err(NoteRefusal::NoteFull { id })
    }
}

/// The comment that an entry makes.
fn comment_from(entry: NoteEntry) -> NoteComment
    ensures { result ≡ comment_of entry.caller entry.stamp entry.command }
{
    let NoteEntry {
        caller,
        stamp,
        command,
        ..
    } = entry;
    let action = command.action();
    NoteComment {
        caller,
        stamp,
        action,
        text: command.into_text(),
    }
}

/// Takes the memory of one more comment of the note at a place.
fn take_room(kept: &mut Vec<KeptNote>, place: usize) -> Result<(), Memory>
    requires { place < length kept.old.items }
    ensures notes { notes_of kept.new.items ≡ notes_of kept.old.items }
    ensures ok { OnOk result (0 < slice_index (spares_of kept.new.items) place) }
{
    kept[place].room()
}

/// Adds a comment to the note at a place.
fn add_comment(kept: &mut Vec<KeptNote>, place: usize, comment: NoteComment)
    requires within { place < length kept.old.items }
    requires room { 0 < slice_index (spares_of kept.old.items) place }
    requires timely { IsTimelyComment comment }
    ensures { (n : Note) → slice_get (notes_of kept.old.items) place ≡ Some n
        → notes_of kept.new.items ≡ slice_set (notes_of kept.old.items) place (commented n comment) }
{
    kept[place].add(comment);
}
