//! A moment of a device, for contracts alone.
ghost use Rattle.std.specs.Prelude.{◌≡◌, ℕ};
ghost use Rattle.std.specs.Borrow.{ftrue};

use journal_file::Device;
use std::marker::{Model, Send};

/// A moment of a device. Only proofs read it, and it takes no bytes.
#[derive(Drop)]
pub struct Moment {
    pub ghost at: { ℕ },
}

impl Model for Moment {
    ghost also_owns = { λ _. ftrue };
}

// It has no bytes, so any thread may have it.
unsafe impl Send for Moment {}

impl Moment {
    /// Whatever moment.
    fn of() -> Moment
        ghost at: { ℕ }
        ensures { result.at ≡ at }
    {
        Moment {}
    }

    /// Whatever moment, made where the device is known.
    fn beside<D: Device>(_device: &D) -> Moment
        ghost at: { ℕ }
        ensures { result.at ≡ at }
    {
        Moment::of()
    }

    /// The moment that it is.
    pub fn now<D: Device>(device: &D) -> Moment
        ensures { result.at ≡ D.moment device.now }
    {
        Moment::beside(device)
    }
}
