//! Why a row can't be played.
use osm_base::Memory;
use std::alloc::{AllocError, AllocFailed};
use std::fmt;

#[derive(Clone, Copy)]
pub enum RowFault {
    /// A line isn't written as it must be.
    Unread,
    Memory,
}

impl fmt::Display for RowFault {
    fn fmt<W: fmt::Write>(&self, f: &mut fmt::Formatter<W>) -> fmt::Result {
        f.write_str(match self {
            RowFault::Unread => "a line isn't of the format",
            RowFault::Memory => "there is no memory",
        })
    }
}

impl From<AllocError> for RowFault {
    fn from(_: AllocError) -> RowFault {
        RowFault::Memory
    }
}

impl<T: Drop> From<AllocFailed<T>> for RowFault {
    fn from(_: AllocFailed<T>) -> RowFault {
        RowFault::Memory
    }
}

impl From<Memory> for RowFault {
    fn from(_: Memory) -> RowFault {
        RowFault::Memory
    }
}
