//! What is asked of the device, step by step.
ghost use Rattle.std.specs.Prelude.{◌≡◌, ◌+◌, ◌<◌, ◌≤◌, ◌^◌, ◌++◌, ◌∷◌, ℕ, length, take, replicate, IfOk, OnOk, IsErr};
ghost use Rattle.journal_file.specs.Device.{Only, LeavesOnly};
ghost use Rattle.journal_file.specs.Whole.{text_of, rest_of, whole, IsText, IsBatch};
ghost use Rattle.journal_file.specs.Settled.{IsSettled, HasSome, Stands, Keeps};

use crate::device::{Device, DeviceFailed};
use crate::text::are_zeros;

/// Writes the batch over zeros that were laid by behind the text, in one write, and has it be on the
/// disk.
fn put_batch<D: Device>(device: &mut D, end: usize, batch: &[u8]) -> Result<(), DeviceFailed>
    requires settled { IsSettled (D.seen device.old) (D.may_leave device.old) end (text_of (D.seen device.old)) }
    requires batch { IsBatch batch.now }
    requires room { end + length batch.now ≤ length (D.seen device.old) }
    requires fine { D.faults device.old ≡ 0 }
    ensures settled { OnOk result (IsSettled (D.seen device.new) (D.may_leave device.new) (end + length batch.now)
        (text_of (D.seen device.old) ++ whole batch.now)) }
    ensures written { OnOk result ((left : ℕ) × (D.seen device.new ≡ take end (D.seen device.old) ++ (batch.now ++ replicate left 0))) }
    ensures size { OnOk result (length (D.seen device.new) ≡ length (D.seen device.old)) }
    // A crash at any moment of the call leaves the text and a beginning of the lines.
    ensures any_moment { LeavesOnly D.moment D.left_since device.old device.new (HasSome (text_of (D.seen device.old)) (whole batch.now)) }
    ensures fine { OnOk result (D.faults device.new ≡ D.faults device.old) }
    ensures later { D.faults device.old ≤ D.faults device.new }
    ensures failed { IsErr result → D.faults device.old < D.faults device.new }
{
    device.write_at(end, batch)?;
    device.sync()?;
    Ok(())
}

/// Has room behind the text for so many bytes, and answers how long the file is then. Where there is too
/// little, zeros are laid by, and are on the disk before anything is written over them.
fn make_room<D: Device>(
    device: &mut D,
    end: usize,
    laid: usize,
    count: usize,
) -> Result<usize, DeviceFailed>
    requires settled { IsSettled (D.seen device.old) (D.may_leave device.old) end (text_of (D.seen device.old)) }
    requires size { laid ≡ length (D.seen device.old) }
    requires sum { end + count < 2 ^ 64 }
    requires fine { D.faults device.old ≡ 0 }
    ensures settled { OnOk result (IsSettled (D.seen device.new) (D.may_leave device.new) end (text_of (D.seen device.old))) }
    ensures front { OnOk result (take end (D.seen device.new) ≡ take end (D.seen device.old)) }
    ensures size { IfOk result (λ longer. longer ≡ length (D.seen device.new)) }
    ensures room { IfOk result (λ longer. end + count ≤ longer) }
    // A crash at any moment of the call leaves the same text.
    ensures any_moment { LeavesOnly D.moment D.left_since device.old device.new (Stands (text_of (D.seen device.old))) }
    ensures fine { OnOk result (D.faults device.new ≡ D.faults device.old) }
    ensures later { D.faults device.old ≤ D.faults device.new }
    ensures failed { IsErr result → D.faults device.old < D.faults device.new }
{
    let needed = end + count;
    if needed <= laid {
        return Ok(laid);
    }
    let longer = needed.saturating_add(D::ROOM);
    device.lay_by(laid, longer - laid)?;
    // On the disk, before a batch is written there.
    device.sync()?;
    Ok(longer)
}

/// Adds the batch, with room for it, and answers how long the file is then.
pub(crate) fn add_batch<D: Device>(
    device: &mut D,
    end: usize,
    laid: usize,
    batch: &[u8],
) -> Result<usize, DeviceFailed>
    requires settled { IsSettled (D.seen device.old) (D.may_leave device.old) end (text_of (D.seen device.old)) }
    requires size { laid ≡ length (D.seen device.old) }
    requires batch { IsBatch batch.now }
    requires short { end ≤ 2 ^ 62 }
    requires fine { D.faults device.old ≡ 0 }
    ensures settled { OnOk result (IsSettled (D.seen device.new) (D.may_leave device.new) (end + length batch.now)
        (text_of (D.seen device.old) ++ whole batch.now)) }
    ensures written { OnOk result ((left : ℕ) × (D.seen device.new ≡ take end (D.seen device.old) ++ (batch.now ++ replicate left 0))) }
    ensures size { IfOk result (λ longer. longer ≡ length (D.seen device.new)) }
    ensures any_moment { LeavesOnly D.moment D.left_since device.old device.new (HasSome (text_of (D.seen device.old)) (whole batch.now)) }
    ensures fine { OnOk result (D.faults device.new ≡ D.faults device.old) }
    ensures later { D.faults device.old ≤ D.faults device.new }
    ensures failed { IsErr result → D.faults device.old < D.faults device.new }
{
    let longer = make_room(device, end, laid, batch.len())?;
    put_batch(device, end, batch)?;
    Ok(longer)
}

/// Adds two empty lines, one after another, and answers how long the file is then.
pub(crate) fn seal_at<D: Device>(
    device: &mut D,
    end: usize,
    laid: usize,
) -> Result<usize, DeviceFailed>
    requires settled { IsSettled (D.seen device.old) (D.may_leave device.old) end (text_of (D.seen device.old)) }
    requires size { laid ≡ length (D.seen device.old) }
    requires short { end < 2 ^ 62 }
    requires fine { D.faults device.old ≡ 0 }
    ensures settled { OnOk result (IsSettled (D.seen device.new) (D.may_leave device.new) (end + 2) (text_of (D.seen device.old))) }
    ensures written { OnOk result ((left : ℕ) × (D.seen device.new ≡ take end (D.seen device.old) ++ 10 ∷ 10 ∷ replicate left 0)) }
    ensures size { IfOk result (λ longer. longer ≡ length (D.seen device.new)) }
    ensures any_moment { LeavesOnly D.moment D.left_since device.old device.new (Stands (text_of (D.seen device.old))) }
    ensures fine { OnOk result (D.faults device.new ≡ D.faults device.old) }
    ensures later { D.faults device.old ≤ D.faults device.new }
    ensures failed { IsErr result → D.faults device.old < D.faults device.new }
{
    let longer = add_batch(device, end, laid, b"\n")?;
    let sealed = add_batch(device, end + 1, longer, b"\n")?;
    Ok(sealed)
}

/// Has nothing but zeros stand behind the text of a file that a crash may have left, and answers how long
/// the file is then. Where that is so already, nothing is asked of the device.
pub(crate) fn repair<D: Device>(
    device: &mut D,
    file: &[u8],
    end: usize,
) -> Result<usize, DeviceFailed>
    requires read { file.now ≡ D.seen device.old }
    requires durable { Only (D.seen device.old) (D.may_leave device.old) }
    requires text { IsText (text_of file.now) }
    requires place { end + length (rest_of file.now) ≡ length file.now }
    requires fine { D.faults device.old ≡ 0 }
    ensures settled { OnOk result (IsSettled (D.seen device.new) (D.may_leave device.new) end (text_of file.now)) }
    ensures size { IfOk result (λ laid. laid ≡ length (D.seen device.new)) }
    // A crash at any moment of the call leaves the same text, and no damage that wasn't there.
    ensures any_moment { LeavesOnly D.moment D.left_since device.old device.new (Keeps file.now) }
    ensures fine { OnOk result (D.faults device.new ≡ D.faults device.old) }
    ensures later { D.faults device.old ≤ D.faults device.new }
    ensures failed { IsErr result → D.faults device.old < D.faults device.new }
{
    if are_zeros(&file[end..]) {
        return Ok(file.len());
    }
    device.cut(end)?;
    // On the disk, before zeros are laid by there.
    device.sync()?;
    Ok(end)
}
