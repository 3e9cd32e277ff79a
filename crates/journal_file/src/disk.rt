//! A file of the system, as a device.
ghost use Rattle.std.specs.Prelude.{◌≡◌, IfOk};
ghost use Rattle.journal_file.specs.History.{opened, called, Wrote, TriedToWrite, LaidBy, TriedToLayBy, CutTo, TriedToCut, Synced, TriedToSync};

use crate::chronicle::Chronicle;
use crate::device::{Device, DeviceFailed};
use std::alloc::{AllocError, Global};
use std::fs::{self, File, OpenOptions};
use std::io::{self, ErrorKind, Read, Write};
use std::marker::Model;
use std::os::fd::AsRawFd;
use std::os::unix::fs::FileExt;
use std::rt::Files;

/// Why a file of the system was not opened or made.
#[derive(Drop)]
pub enum DiskFault {
    /// No file has this name.
    Missing,
    /// What has this name is no plain file; or what has the name under which a new one is made was
    /// not left there by `create`.
    Unfit,
    /// Another process, or another device of this one, has it open.
    Busy,
    /// A call of the system failed.
    Failed,
    Memory,
}

impl From<AllocError> for DiskFault {
    fn from(_refused: AllocError) -> DiskFault {
        DiskFault::Memory
    }
}

impl From<io::Error> for DiskFault {
    fn from(why: io::Error) -> DiskFault {
        match why.kind() {
            ErrorKind::NotFound => DiskFault::Missing,
            ErrorKind::WouldBlock => DiskFault::Busy,
            ErrorKind::OutOfMemory => DiskFault::Memory,
            _ => DiskFault::Failed,
        }
    }
}

/// An open file of the system, locked for this device alone. Contracts see the bytes that it had when
/// it was opened, and the calls since.
#[derive(Drop)]
pub struct DiskFile {
    file: File,
    chronicle: Chronicle,
}

impl Model for DiskFile {
    ghost use Rattle.journal_file.specs.History.{History};

    ghost Value = { History };

    ghost view = { λ f. f.chronicle.history };
}

impl Device for DiskFile {
    ghost use Rattle.std.specs.Prelude.{length};
    ghost use Rattle.journal_file.specs.History.{seen_after, left_after, left_from, faults_in, counts_now, only_now};

    const ROOM: usize = 1 << 18;

    ghost seen = { λ h. seen_after h.first h.calls };

    ghost may_leave = { λ h c. left_after h.first h.calls c };

    ghost moment = { λ h. length h.calls };

    ghost left_since = { λ h t c. left_from h.first h.calls t c };

    ghost faults = { λ h. faults_in h.calls };

    fn write_at(&mut self, at: usize, bytes: &[u8]) -> Result<(), DeviceFailed> {
        match self.file.write_all_at(bytes, at as u64) {
            Ok(()) => {
                self.chronicle = self.chronicle.wrote(at, bytes);
                Ok(())
            }
            Err(_) => {
                self.chronicle = self.chronicle.tried_to_write(at, bytes);
                Err(DeviceFailed)
            }
        }
    }

    fn lay_by(&mut self, end: usize, count: usize) -> Result<(), DeviceFailed> {
        match write_zeros(&self.file, end, count) {
            Ok(()) => {
                self.chronicle = self.chronicle.laid_by(count);
                Ok(())
            }
            Err(_) => {
                self.chronicle = self.chronicle.tried_to_lay_by(count);
                Err(DeviceFailed)
            }
        }
    }

    fn cut(&mut self, len: usize) -> Result<(), DeviceFailed> {
        match self.file.set_len(len as u64) {
            Ok(()) => {
                self.chronicle = self.chronicle.cut_to(len);
                Ok(())
            }
            Err(_) => {
                self.chronicle = self.chronicle.tried_to_cut(len);
                Err(DeviceFailed)
            }
        }
    }

    fn sync(&mut self) -> Result<(), DeviceFailed> {
        match self.file.sync_data() {
            Ok(()) => {
                self.chronicle = self.chronicle.synced();
                Ok(())
            }
            Err(_) => {
                self.chronicle = self.chronicle.tried_to_sync();
                Err(DeviceFailed)
            }
        }
    }

    ghost counts_now = { λ h t c le left. counts_now h.first h.calls t c left };

    ghost only_now = { λ h c left. only_now h.first h.calls c left };
}

/// What is written in one call where zeros are laid by.
static ZEROS: [u8; 65_536] = [0; 65_536];

/// Writes so many zeros from a place on. A file that were only made longer would have its blocks given
/// by the syncs of later batches, which then cost as much as if it grew.
fn write_zeros(file: &File, from: usize, count: usize) -> Result<(), io::Error> {
    let mut at = from;
    let mut left = count;
    'laying: while left > 0 {
        let block = ZEROS.len().min(left);
        file.write_all_at(&ZEROS[..block], at as u64)?;
        at = at.saturating_add(block);
        left -= block;
    }
    Ok(())
}

/// Has what a read returns be what is on the disk: syncs the file, and drops the kernel's copies of
/// its pages, which a failed sync of an earlier process may have left other than the disk has them.
fn settle(file: &File) -> Result<(), DiskFault> {
    file.sync_all()?;
    let advised = libc::posix_fadvise(file.as_raw_fd(), 0, 0, libc::POSIX_FADV_DONTNEED);
    if advised == 0 {
        Ok(())
    } else {
        Err(DiskFault::Failed)
    }
}

/// Opens the file at this path, which is there, locks it, and reads it whole. Its name is on the disk
/// then too: whoever made it may have left that to chance, and so does a `create` that is cut short.
pub fn open<F: Files<File = File>>(
    files: &F,
    alloc: Global,
    path: &str,
) -> Result<(DiskFile, Vec<u8>), DiskFault>
    ensures { IfOk result (λ r. r.0 ≡ opened r.1.items) }
{
    if !fs::metadata(files, path)?.is_file() {
        return Err(DiskFault::Unfit);
    }
    let mut file = OpenOptions::new().read(true).write(true).open(files, path)?;
    file.try_lock().map_err(io::Error::from)?;
    settle(&file)?;
    sync_folder(files, alloc, path)?;
    let mut bytes = Vec::new(alloc);
    file.read_to_end(&mut bytes)?;
    let chronicle = Chronicle::new(&bytes);
    Ok((DiskFile { file, chronicle }, bytes))
}

/// Makes a file at this path, where there is none, with this header. It is written under another name,
/// with `.new` behind it, and gets its own once it is on the disk: a crash leaves a whole file or none.
/// A file that has the name already stays, and so it does where two make it at once: a link doesn't
/// replace a name, as renaming would.
pub fn create<F: Files<File = File>>(
    files: &F,
    alloc: Global,
    path: &str,
    header: &[u8],
) -> Result<(), DiskFault> {
    if fs::exists(files, path)? {
        return Ok(());
    }
    let mut new = String::from_str(alloc, path)?;
    new.push_str(".new")?;
    // Not cut to nothing before it is locked: another process may be at it.
    let mut file = OpenOptions::new()
        .read(true)
        .write(true)
        .create(true)
        .open(files, new.as_str())?;
    file.try_lock().map_err(io::Error::from)?;
    // Whoever had the lock before may have given this very file its name.
    if fs::exists(files, path)? {
        return leave(files, &file, new.as_str());
    }
    begin(&mut file, header)?;
    match fs::hard_link(files, new.as_str(), path) {
        Ok(()) => {}
        Err(why) if why.kind() == ErrorKind::AlreadyExists => {}
        Err(why) => return Err(DiskFault::from(why)),
    }
    fs::remove_file(files, new.as_str())?;
    sync_folder(files, alloc, path)
}

/// Takes the name away of a file that nothing was written into. Whoever is at it holds its lock, and
/// here that is the caller.
fn leave<F: Files<File = File>>(files: &F, file: &File, new: &str) -> Result<(), DiskFault> {
    if file.metadata()?.len() == 0 {
        fs::remove_file(files, new)?;
    }
    Ok(())
}

/// Writes the header in place of what a creation that was cut short left, and has it be on the disk.
fn begin(file: &mut File, header: &[u8]) -> Result<(), DiskFault> {
    // No such creation leaves more, and one of an older version a byte `#` more. It is somebody's file,
    // or the second name of a journal that was moved away.
    if file.metadata()?.len() > header.len() as u64 + 1 {
        return Err(DiskFault::Unfit);
    }
    file.set_len(0)?;
    file.write_all(header)?;
    file.sync_all()?;
    Ok(())
}

/// Has the names be on the disk that are in the folder of this file, or of the one that it links to.
fn sync_folder<F: Files<File = File>>(
    files: &F,
    alloc: Global,
    path: &str,
) -> Result<(), DiskFault> {
    let mut folder = files.canonicalize(alloc, path)?;
    folder.pop();
    File::open(files, folder.as_path())?.sync_all()?;
    Ok(())
}
