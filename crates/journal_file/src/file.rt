//! A file that is open to append.
ghost use Rattle.std.specs.Prelude.{◌≡◌, ◌⊎◌, ◌<◌, ◌≤◌, ◌^◌, ◌++◌, List, ℕ, true, false, length, Err, IfOk, IfErr, OnOk, IsErrOf};
ghost use Rattle.journal_file.specs.Device.{Only, LeavesOnly};
ghost use Rattle.journal_file.specs.Whole.{text_of, whole, IsText, IsBatch, BeginsWith};
ghost use Rattle.journal_file.specs.Settled.{HasSome, IsDamaged, IsSealed, Keeps, Stands, kept};
ghost use Rattle.journal_file.specs.declared.faults.AppendFault.{AppendFault};
ghost use Rattle.journal_file.specs.declared.faults.OpenFault.{OpenFault};

use crate::device::{Device, DeviceFailed};
use crate::faults::{AppendFault, OpenFault};
use crate::text::{begins_with, raw_len};
use crate::write::{add_batch, repair, seal_at};
use std::marker::Model;

/// The most bytes that stand for a text when more are added to them.
const MOST: usize = 1 << 62;

/// A file that is open to append. Contracts see it as its device, the text that it stands for, and
/// whether a call of the device has failed.
#[derive(Drop)]
pub struct JournalFile<D: Device> {
    device: D,
    /// Where the bytes end that stand for the text.
    end: usize,
    /// Where the zeros end that were laid by behind them: the length of the file.
    laid: usize,
    /// Whether a call of the device has failed. No call follows it: a sync that failed is never made
    /// again as if it could still succeed.
    broken: bool,
}

impl<D: Device> Model for JournalFile<D> {
    ghost use Rattle.std.specs.Prelude.{◌≡◌, ◌<◌, true, false, length};
    ghost use Rattle.journal_file.specs.Whole.{text_of};
    ghost use Rattle.journal_file.specs.Settled.{Kept, kept, IsSettled};

    ghost Value = { Kept D };

    ghost view = { λ f. kept f.device (text_of (D.seen f.device)) f.broken };

    ghost invariant = { λ f. (f.broken ≡ false → IsSettled (D.seen f.device) (D.may_leave f.device) f.end (text_of (D.seen f.device))
        × (f.laid ≡ length (D.seen f.device)) × (D.faults f.device ≡ 0))
        × (f.broken ≡ true → 0 < D.faults f.device) };
}

impl<D: Device> JournalFile<D> {
    /// Opens the file that these bytes were read from, as a crash may have left it, if it begins with
    /// this header. It may crash too, at any moment, and then the file stands for the same text, and
    /// isn't damaged where it wasn't before. An `Err` hands the device back.
    pub fn open(mut device: D, file: &[u8], header: &[u8]) -> Result<JournalFile<D>, (OpenFault, D)>
        requires read { file.now ≡ D.seen device }
        // After a restart, what is read is what is on the disk.
        requires durable { Only (D.seen device) (D.may_leave device) }
        requires fine { D.faults device ≡ 0 }
        requires header { IsText header.now }
        ensures ok { IfOk result (λ f. (f ≡ kept f.device (text_of file.now) false) × BeginsWith header.now file.now) }
        ensures any_moment { IfOk result (λ f. LeavesOnly D.moment D.left_since device f.device (Keeps file.now)) }
        ensures any_moment_err { IfErr result (λ e. LeavesOnly D.moment D.left_since device e.1 (Keeps file.now)) }
        ensures foreign { IfErr result (λ e. e.0 ≡ OpenFault.Foreign → (e.1 ≡ device) × (BeginsWith header.now file.now → ⊥)) }
        ensures failed { IfErr result (λ e. e.0 ≡ OpenFault.Failed → D.faults device < D.faults e.1) }
    {
        if !begins_with(file, header) {
            return Err((OpenFault::Foreign, device));
        }
        let end = raw_len(file);
        match repair(&mut device, file, end) {
            Ok(laid) => Ok(JournalFile {
                device,
                end,
                laid,
                broken: false,
            }),
            Err(DeviceFailed) => Err((OpenFault::Failed, device)),
        }
    }

    /// Adds a batch: whole lines, and an empty one that ends them. At `Ok` they stand: every crash from
    /// then on leaves them. A crash at any moment of the call leaves the text and a beginning of the
    /// lines, the first of them, each whole, in a file that isn't damaged. A batch of no lines is passed
    /// over.
    pub fn append(&mut self, batch: &[u8]) -> Result<(), AppendFault>
        requires { IsBatch batch.now }
        ensures ok { OnOk result ((self.new.text ≡ self.old.text ++ whole batch.now) × (self.new.broken ≡ false)) }
        ensures any_moment { self.old.broken ≡ false
            → LeavesOnly D.moment D.left_since self.old.device self.new.device (HasSome self.old.text (whole batch.now)) }
        ensures failed { IsErrOf result AppendFault.Failed → (self.new.broken ≡ true)
            × ((self.old.broken ≡ true) ⊎ (D.faults self.old.device < D.faults self.new.device)) }
        // Nothing is asked of a device that has failed.
        ensures broken { self.old.broken ≡ true → (result ≡ Err AppendFault.Failed) × (self.new ≡ self.old) }
        ensures full { IsErrOf result AppendFault.Full → (self.new ≡ self.old) × (2 ^ 62 ≤ length (D.seen self.old.device)) }
    {
        if self.broken {
            return Err(AppendFault::Failed);
        }
        if batch.len() < 2 {
            return Ok(());
        }
        if self.end >= MOST {
            return Err(AppendFault::Full);
        }
        match add_batch(&mut self.device, self.end, self.laid, batch) {
            Ok(laid) => {
                self.end += batch.len();
                self.laid = laid;
                Ok(())
            }
            Err(DeviceFailed) => {
                self.broken = true;
                Err(AppendFault::Failed)
            }
        }
    }

    /// Adds two empty lines, which don't count. Where a byte of the last batch is lost later, what stands
    /// behind it tells that now, and such a file is damaged. So a start does this before it goes on, and
    /// a stop does it as the last thing.
    pub fn seal(&mut self) -> Result<(), AppendFault>
        ensures ok { OnOk result ((self.new.text ≡ self.old.text) × (self.new.broken ≡ false)) }
        ensures sealed { OnOk result (IsSealed self.old.text (D.seen self.old.device) (D.seen self.new.device)) }
        ensures any_moment { self.old.broken ≡ false
            → LeavesOnly D.moment D.left_since self.old.device self.new.device (Stands self.old.text) }
        ensures failed { IsErrOf result AppendFault.Failed → (self.new.broken ≡ true)
            × ((self.old.broken ≡ true) ⊎ (D.faults self.old.device < D.faults self.new.device)) }
        ensures broken { self.old.broken ≡ true → (result ≡ Err AppendFault.Failed) × (self.new ≡ self.old) }
        ensures full { IsErrOf result AppendFault.Full → (self.new ≡ self.old) × (2 ^ 62 ≤ length (D.seen self.old.device)) }
    {
        if self.broken {
            return Err(AppendFault::Failed);
        }
        if self.end >= MOST {
            return Err(AppendFault::Full);
        }
        match seal_at(&mut self.device, self.end, self.laid) {
            Ok(laid) => {
                self.end += 2;
                self.laid = laid;
                Ok(())
            }
            Err(DeviceFailed) => {
                self.broken = true;
                Err(AppendFault::Failed)
            }
        }
    }

    /// Its device.
    pub fn device(&self) -> &D
        ensures { result.now ≡ self.now.device }
    {
        &self.device
    }

    /// Its device alone.
    pub fn into_device(self) -> D
        ensures { result ≡ self.device }
    {
        let JournalFile {
            device,
            end: _,
            laid: _,
            broken: _,
        } = self;
        device
    }

    /// Whether a call of the device has failed.
    pub fn is_broken(&self) -> bool
        ensures { result ≡ self.now.broken }
    {
        self.broken
    }

    /// A law: while no call of the device has failed, every crash leaves the text, in a file that isn't
    /// damaged. The file is broken just where one has.
    pub fn law(&self)
        ensures fine { self.now.broken ≡ false → D.faults self.now.device ≡ 0 }
        ensures failed { self.now.broken ≡ true → 0 < D.faults self.now.device }
        ensures stands { self.now.broken ≡ false → (c : List ℕ) → D.may_leave self.now.device c → text_of c ≡ self.now.text }
        ensures sound { self.now.broken ≡ false → (c : List ℕ) → D.may_leave self.now.device c → IsDamaged c → ⊥ }
        ensures text { self.now.broken ≡ false → IsText self.now.text }
    {
        let _end = self.end;
    }
}
