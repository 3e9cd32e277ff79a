//! Marks, which are yes or no, as entries of a file: how they are written, and a list of them.
ghost use Rattle.std.specs.Prelude.{◌≡◌, ◌++◌, IfOk, OnOk};
ghost use Rattle.kept_rows.specs.Marks.{mark_line};

use durable_log::{Behind, Lines, Shelf, SourceFault, lines_law};
use journal_file::MemFile;
use osm_base::Memory;
use shared_front::{Front, HubName, Tail};
use std::alloc::Global;
use std::sync::{Mutex, Wait};

pub const HEADER: [u8; 2] = *b"m\n";

const YES: [u8; 4] = *b"{1}\n";

const NO: [u8; 4] = *b"{0}\n";

/// How many marks each thread makes.
pub const MARKS: usize = 20;

/// The most marks of a list.
const MOST: u64 = 1 << 61;

/// Writes a mark behind the others.
fn put(bytes: &mut Vec<u8>, mark: bool) -> Result<(), Memory>
    ensures { OnOk result (bytes.new.items ≡ bytes.old.items ++ mark_line mark) }
{
    bytes.extend_from_slice(if mark { &YES } else { &NO })?;
    Ok(())
}

/// How marks are written.
pub struct MarkLines;

impl Lines<bool> for MarkLines {
    ghost use Rattle.kept_rows.specs.Marks.{mark_lines, mark_text, marks_more};

    ghost lines = { mark_lines };

    ghost text = { mark_text };

    fn lines_behind(bytes: Vec<u8>, entries: &[bool]) -> Result<Vec<u8>, Memory> {
        lines_law::<bool>();
        let mut longer = bytes;
        'marks: for mark in entries {
            put(&mut longer, *mark)?;
        }
        Ok(longer)
    }

    ghost more = { marks_more };
}

pub type MarkShelf<N, K> = Shelf<N, K, bool, MarkLines, MemFile>;

/// A list of marks, and what it has.
#[derive(Drop)]
pub struct Marks<N: HubName> {
    pub tail: Tail<N, bool>,
    pub front: Front<N, bool>,
    pub marks: Vec<bool>,
    ghost all: { front ≡ marks.items },
}

impl<N: HubName> Marks<N> {
    /// Adds one, and says how many there are.
    pub fn add(&mut self, mark: bool) -> Result<u64, Memory> {
        let mut longer = self.front.again();
        if longer.len() >= MOST || !longer.add(&self.tail, &mark) {
            return Err(Memory);
        }
        self.marks.push(mark)?;
        let count = longer.len();
        self.front = longer;
        Ok(count)
    }

    /// Those behind this beginning, and all.
    fn behind(
        &self,
        alloc: Global,
        front: &Front<N, bool>,
    ) -> Result<(Vec<bool>, Front<N, bool>), SourceFault>
        ensures { IfOk result (λ r. r.1 ≡ front.now ++ r.0.items) }
    {
        if !front.begins(&self.front) {
            return Err(SourceFault::Mismatched);
        }
        let marks = self.marks[front.len() as usize..]
            .to_vec(alloc)
            .map_err(Memory::from)?;
        Ok((marks, self.front.again()))
    }
}

/// Who has the marks that the file lacks: the list, under its lock.
#[derive(Drop)]
pub struct Source<'a, N: HubName, R: Wait> {
    pub rt: &'a R,
    pub alloc: Global,
    pub marks: &'a Mutex<Marks<N>>,
}

impl<'a, N: HubName, R: Wait> Behind<N, bool> for Source<'a, N, R> {
    ghost use Rattle.std.specs.Prelude.{⊤};

    ghost becomes = { λ _ _. ⊤ };

    ghost stays = { λ _. tt };

    fn behind(
        &mut self,
        front: &Front<N, bool>,
    ) -> Result<(Vec<bool>, Front<N, bool>), SourceFault> {
        self.marks.lock(self.rt).behind(self.alloc, front)
    }
}

/// The text of marks.
pub fn text_of(alloc: Global, marks: &[bool]) -> Result<Vec<u8>, Memory> {
    MarkLines::lines_behind(HEADER.to_vec(alloc)?, marks)
}
