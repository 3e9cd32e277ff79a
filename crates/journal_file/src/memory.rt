//! A file in memory.
ghost use Rattle.std.specs.Prelude.{◌≡◌, ◌∷◌, ◌++◌, ◌+◌, ◌≤◌, length, take, drop, replicate, IfOk};
ghost use Rattle.journal_file.specs.History.{opened, called, seen_after, Wrote, TriedToWrite, LaidBy, TriedToLayBy, CutTo, TriedToCut, Synced, TriedToSync};

use crate::chronicle::Chronicle;
use crate::device::{Device, DeviceFailed};
use std::alloc::{AllocError, Global};
use std::marker::Model;

/// A call that a file in memory had, for tests.
#[derive(Drop)]
pub enum Deed {
    Wrote { at: usize, bytes: Vec<u8> },
    LaidBy { count: usize },
    CutTo { len: usize },
    Synced,
}

/// A file in memory, which keeps its calls, and fails from the call of a number on. Contracts see the
/// bytes that it had at first, and the calls since.
#[derive(Drop)]
pub struct MemFile {
    alloc: Global,
    bytes: Vec<u8>,
    deeds: Vec<Deed>,
    /// How many calls it still has done.
    left: u64,
    chronicle: Chronicle,
}

impl Model for MemFile {
    ghost use Rattle.std.specs.Prelude.{◌≡◌};
    ghost use Rattle.journal_file.specs.History.{History, seen_after};

    ghost Value = { History };

    ghost view = { λ m. m.chronicle.history };

    ghost invariant = { λ m. m.bytes.items ≡ seen_after m.chronicle.history.first m.chronicle.history.calls };
}

impl MemFile {
    /// A file with these bytes, which has so many calls done and then fails.
    pub fn new(alloc: Global, bytes: Vec<u8>, left: u64) -> MemFile
        ensures { result ≡ opened bytes.items }
    {
        let chronicle = Chronicle::new(&bytes);
        MemFile {
            alloc,
            bytes,
            deeds: Vec::new(alloc),
            left,
            chronicle,
        }
    }

    /// The bytes that it has now.
    pub fn bytes(&self) -> &[u8]
        ensures { result.now ≡ seen_after self.now.first self.now.calls }
    {
        &self.bytes
    }

    /// Its calls so far.
    pub fn deeds(&self) -> &[Deed] {
        &self.deeds
    }

    /// Whether one more call is done, which is kept.
    fn does(&mut self, deed: Deed) -> bool
        ensures { self.new ≡ self.old }
    {
        if self.left == 0 {
            return false;
        }
        self.left -= 1;
        self.deeds.push(deed).is_ok()
    }

    /// What stands there after one more write, which is kept.
    fn next_write(&mut self, at: usize, bytes: &[u8]) -> Result<Vec<u8>, AllocError>
        requires { at + length bytes.now ≤ length (seen_after self.old.first self.old.calls) }
        ensures same { self.new ≡ self.old }
        ensures next { IfOk result (λ v. v.items ≡ seen_after self.old.first (Wrote at bytes.now ∷ self.old.calls)) }
    {
        let next = written(self.alloc, &self.bytes, at, bytes)?;
        let bytes = bytes.to_vec(self.alloc)?;
        if self.does(Deed::Wrote { at, bytes }) {
            Ok(next)
        } else {
            Err(AllocError)
        }
    }

    /// What stands there with so many zeros more, which is kept.
    fn next_longer(&mut self, count: usize) -> Result<Vec<u8>, AllocError>
        ensures same { self.new ≡ self.old }
        ensures next { IfOk result (λ v. v.items ≡ seen_after self.old.first (LaidBy count ∷ self.old.calls)) }
    {
        let mut next = self.bytes.to_vec(self.alloc)?;
        let zeros = vec![in self.alloc; 0_u8; count]?;
        next.extend_from_slice(&zeros)?;
        if self.does(Deed::LaidBy { count }) {
            Ok(next)
        } else {
            Err(AllocError)
        }
    }
}

/// The bytes with others written over them from a place on.
fn written(alloc: Global, old: &[u8], at: usize, bytes: &[u8]) -> Result<Vec<u8>, AllocError>
    requires { at + length bytes.now ≤ length old.now }
    ensures { IfOk result (λ v. v.items ≡ take at old.now ++ bytes.now ++ drop (at + length bytes.now) old.now) }
{
    let mut next = old[..at].to_vec(alloc)?;
    next.extend_from_slice(bytes)?;
    next.extend_from_slice(&old[at + bytes.len()..])?;
    Ok(next)
}

impl Device for MemFile {
    ghost use Rattle.std.specs.Prelude.{length};
    ghost use Rattle.journal_file.specs.History.{seen_after, left_after, left_from, faults_in, counts_now, only_now};

    const ROOM: usize = 0;

    ghost seen = { λ h. seen_after h.first h.calls };

    ghost may_leave = { λ h c. left_after h.first h.calls c };

    ghost moment = { λ h. length h.calls };

    ghost left_since = { λ h t c. left_from h.first h.calls t c };

    ghost faults = { λ h. faults_in h.calls };

    fn write_at(&mut self, at: usize, bytes: &[u8]) -> Result<(), DeviceFailed> {
        match self.next_write(at, bytes) {
            Ok(next) => {
                self.bytes = next;
                self.chronicle = self.chronicle.wrote(at, bytes);
                Ok(())
            }
            Err(_) => {
                self.chronicle = self.chronicle.tried_to_write(at, bytes);
                Err(DeviceFailed)
            }
        }
    }

    fn lay_by(&mut self, _end: usize, count: usize) -> Result<(), DeviceFailed> {
        match self.next_longer(count) {
            Ok(next) => {
                self.bytes = next;
                self.chronicle = self.chronicle.laid_by(count);
                Ok(())
            }
            Err(_) => {
                self.chronicle = self.chronicle.tried_to_lay_by(count);
                Err(DeviceFailed)
            }
        }
    }

    fn cut(&mut self, len: usize) -> Result<(), DeviceFailed> {
        if self.does(Deed::CutTo { len }) {
            self.bytes.truncate(len);
            self.chronicle = self.chronicle.cut_to(len);
            Ok(())
        } else {
            self.chronicle = self.chronicle.tried_to_cut(len);
            Err(DeviceFailed)
        }
    }

    fn sync(&mut self) -> Result<(), DeviceFailed> {
        if self.does(Deed::Synced) {
            self.chronicle = self.chronicle.synced();
            Ok(())
        } else {
            self.chronicle = self.chronicle.tried_to_sync();
            Err(DeviceFailed)
        }
    }

    ghost counts_now = { λ h t c le left. counts_now h.first h.calls t c left };

    ghost only_now = { λ h c left. only_now h.first h.calls c left };
}
