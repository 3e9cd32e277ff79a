//! How a program ends.
ghost use Rattle.std.specs.Prelude.{◌≡◌};
ghost use Rattle.server_frame.specs.Exit.{status_of_exit};
ghost use Rattle.server_frame.specs.declared.exit.Exit.{Exit};

/// How a program ends. Its status is the number of that.
#[derive(Clone, Copy)]
pub enum Exit {
    /// The input or the links were served to their end, or what was asked for was written whole.
    Done,
    /// The words of the command line have no reading.
    NoReading,
    /// The users text is refused.
    UsersRefused,
    /// The users text, a journal's file or the input couldn't be read, or that file wasn't given.
    NotRead,
    /// The output couldn't be written.
    NotWritten,
    /// There was no memory, outside an answer.
    NoMemory,
    /// Links couldn't be taken: listening or accepting failed.
    NoLinks,
    /// What came on the link was refused.
    MessageRefused,
    /// A journal's text or its file was refused.
    JournalRefused,
    /// A journal couldn't be kept.
    NotKept,
}

impl Exit {
    /// The number that tells it to who began the program.
    pub fn status(self) -> u8
        ensures { result ≡ status_of_exit self }
    {
        match self {
            Exit::Done => 0,
            Exit::NoReading => 1,
            Exit::UsersRefused => 2,
            Exit::NotRead => 3,
            Exit::NotWritten => 4,
            Exit::NoMemory => 5,
            Exit::NoLinks => 6,
            Exit::MessageRefused => 7,
            Exit::JournalRefused => 8,
            Exit::NotKept => 9,
        }
    }
}

/// No two ways to end have the same status.
pub fn statuses_differ()
    ensures { (one other : Exit) → status_of_exit one ≡ status_of_exit other → one ≡ other }
{}
