//! A file as its writer sees it: what a read would return, and what a crash may leave.
ghost use Rattle.std.specs.Prelude.{◌≡◌, ◌≤◌, ◌+◌, ◌++◌, List, ℕ, length, take, replicate, OnOk};
ghost use Rattle.journal_file.specs.Device.{Only, Follows, Mixed, Laid, Cut, Holds, Elapses, HasCause};

/// A call of the device failed. What it did to the file is unknown.
#[derive(Clone, Copy, PartialEq, Eq)]
pub struct DeviceFailed;

/// A file that one writer has open. Its calls change it at once for readers, and for good with the
/// next `sync`; until then a crash may leave of each what its clause `crash` says.
pub trait Device {
    /// How many zeros are laid by at once beyond what is asked for. Where a write goes past the end of a
    /// file, each sync has to put its new length on the disk too.
    const ROOM: usize;

    // The bytes that a read would return.
    ghost seen: { Self → List ℕ };

    // What a crash at this moment may leave.
    ghost may_leave: { Self → List ℕ → Type 0 };

    // The moment, as a number that doesn't fall.
    ghost moment: { Self → ℕ };

    // What a crash at some moment from that one on might have left, during a call or between two.
    ghost left_since: { Self → ℕ → List ℕ → Type 0 };

    // How often a call has failed.
    ghost faults: { Self → ℕ };

    /// Writes over what is there. Until a sync, a crash may leave at each place of the range the byte that
    /// was there or the one that was written, in any mixture, and the same bytes before and behind it,
    /// also where they share a sector. Nothing is said of a write past what each crash leaves.
    fn write_at(&mut self, at: usize, bytes: &[u8]) -> Result<(), DeviceFailed>
        requires inside { at + length bytes.now ≤ length (seen self.old) }
        requires on_disk { (c : List ℕ) → may_leave self.old c → at + length bytes.now ≤ length c }
        ensures written { OnOk result (Holds (seen self.old) at bytes.now (seen self.new)) }
        ensures crash { Follows (Mixed at bytes.now) (may_leave self.old) (may_leave self.new) }
        ensures time { Elapses (moment self.old) (moment self.new) (left_since self.old) (left_since self.new) (may_leave self.new) }
        ensures cause { HasCause (faults self.old) (faults self.new) result };

    /// Lays by so many zeros behind the end. Until a sync, a crash may leave some of them: the file has any
    /// length between, and zeros where it is longer.
    fn lay_by(&mut self, end: usize, count: usize) -> Result<(), DeviceFailed>
        requires { end ≡ length (seen self.old) }
        ensures laid { OnOk result (seen self.new ≡ seen self.old ++ replicate count 0) }
        ensures crash { Follows (Laid count) (may_leave self.old) (may_leave self.new) }
        ensures time { Elapses (moment self.old) (moment self.new) (left_since self.old) (left_since self.new) (may_leave self.new) }
        ensures cause { HasCause (faults self.old) (faults self.new) result };

    /// Cuts the file to a length.
    fn cut(&mut self, len: usize) -> Result<(), DeviceFailed>
        requires { len ≤ length (seen self.old) }
        ensures cut { OnOk result (seen self.new ≡ take len (seen self.old)) }
        ensures crash { Follows (Cut len) (may_leave self.old) (may_leave self.new) }
        ensures time { Elapses (moment self.old) (moment self.new) (left_since self.old) (left_since self.new) (may_leave self.new) }
        ensures cause { HasCause (faults self.old) (faults self.new) result };

    /// After it, a crash leaves what a read would return, if no call had failed before. After one that
    /// failed nothing is known: the system may have dropped what was written, and report success next.
    fn sync(&mut self) -> Result<(), DeviceFailed>
        ensures durable { OnOk result (faults self.old ≡ 0 → Only (seen self.old) (may_leave self.new)) }
        ensures seen { OnOk result (seen self.new ≡ seen self.old) }
        ensures crash { (c : List ℕ) → may_leave self.new c → may_leave self.old c }
        ensures time { Elapses (moment self.old) (moment self.new) (left_since self.old) (left_since self.new) (may_leave self.new) }
        ensures cause { HasCause (faults self.old) (faults self.new) result };

    // This moment is one of those since an earlier one.
    ghost counts_now: { (file : Self) (t : ℕ) (c : List ℕ) → t ≤ moment file → may_leave file c → left_since file t c };

    // Since this moment there is no other.
    ghost only_now: { (file : Self) (c : List ℕ) → left_since file (moment file) c → may_leave file c };
}
