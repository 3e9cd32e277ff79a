//! Why a row ends early.
use osm_base::Memory;
use row_lines::RowFault;
use std::io;

#[derive(Clone, Copy)]
pub enum Fault {
    Memory,
    /// A line isn't of the format.
    Line,
    /// The users text isn't one.
    Users,
    /// A line wasn't written.
    Print,
}

impl Fault {
    pub fn name(&self) -> &'static str {
        match self {
            Fault::Memory => "memory ran out",
            Fault::Line => "a line isn't of the format",
            Fault::Users => "the users text isn't one",
            Fault::Print => "a line wasn't written",
        }
    }
}

impl From<Memory> for Fault {
    fn from(_: Memory) -> Fault {
        Fault::Memory
    }
}

impl From<RowFault> for Fault {
    fn from(why: RowFault) -> Fault {
        match why {
            RowFault::Unread => Fault::Line,
            RowFault::Memory => Fault::Memory,
        }
    }
}

impl From<io::Error> for Fault {
    fn from(_: io::Error) -> Fault {
        Fault::Print
    }
}
