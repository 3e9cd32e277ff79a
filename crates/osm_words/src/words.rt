//! What the words of the command line ask for.
use osm_base::SESSION_LIMIT;
use std::alloc::AllocError;

/// The most uploads of a generated load for each of its sessions. An upload has eleven changes, so
/// no changeset of a load is filled.
pub const UPLOADS_A_SESSION: u32 = 909;

/// The most uploads of a generated load.
pub const UPLOAD_LIMIT: u32 = 58_176;

/// The most seconds for which a mirror counts as level without a word: a day.
pub const LEVEL_LIMIT: u32 = 86_400;

// A limit that is changed by mistake is refused here.
const _: () = prove!(LEVEL_LIMIT == 86_400);

const _: () = prove!(UPLOADS_A_SESSION == 909);

const _: () = prove!(UPLOAD_LIMIT == SESSION_LIMIT * UPLOADS_A_SESSION);

/// A generated load: what its positions begin with, how many sessions send it, and how many uploads
/// they send in all, at most `UPLOADS_A_SESSION` for each session.
#[derive(Clone, Copy)]
pub struct LoadOptions {
    pub seed: u64,
    pub sessions: u32,
    pub uploads: u32,
}

/// A command of the program, with its options.
#[derive(Clone, Copy)]
pub enum Words<'a> {
    /// To serve the standard link, with the users of the text at that path, and with the clock fixed
    /// at that moment where one is given, in seconds since 1970.
    Pipe {
        users: &'a str,
        at: Option<u64>,
    },
    /// To serve the links that come to an address, as the host reads it, with the users of the text
    /// at that path and with so many workers, from 1 to `SESSION_LIMIT`. Where there is a path of a
    /// journal, what is served is what this file tells of, and each change is kept there.
    Serve {
        users: &'a str,
        listen: &'a str,
        workers: u32,
        journal: Option<&'a str>,
    },
    /// To send a load and tell what came of it.
    Measure(LoadOptions),
    /// To send a load and write the journal's text.
    Export(LoadOptions),
    /// To read a journal's text and tell of its map.
    Replay,
    /// As `Pipe`, for the server of notes.
    Notes {
        users: &'a str,
        at: Option<u64>,
    },
    /// As `Serve`, for the server of notes.
    ServeNotes {
        users: &'a str,
        listen: &'a str,
        workers: u32,
        journal: Option<&'a str>,
    },
}

/// What a mirror is to do. Where it is given for how many seconds it counts as level, from 1 to
/// `LEVEL_LIMIT`, reads are answered only from the moment on that it is said to be level, and as long
/// as no more seconds go by without a word of whoever may post pieces.
#[derive(Clone, Copy)]
pub enum MirrorWords<'a> {
    /// To serve the standard link, as `Words::Pipe`.
    Standard {
        users: &'a str,
        at: Option<u64>,
        until_level: Option<u32>,
    },
    /// To serve the links that come to an address, as `Words::Serve`. Where there is a path of a
    /// journal, the mirror goes on from the entries that this file tells of, and each entry that it
    /// takes is kept there.
    Listen {
        users: &'a str,
        listen: &'a str,
        workers: u32,
        journal: Option<&'a str>,
        until_level: Option<u32>,
    },
}

/// Why words give no command.
#[derive(Clone, Copy)]
pub enum WordsFault {
    /// The words have no reading.
    NoReading,
    /// Memory ran out.
    Memory,
}

impl From<AllocError> for WordsFault {
    ghost use Rattle.std.specs.Prelude.{◌≡◌};
    ghost use Rattle.osm_words.specs.declared.words.WordsFault.{WordsFault};

    ghost from_gives = { λ _ fault. fault ≡ WordsFault.Memory };

    fn from(_: AllocError) -> WordsFault {
        WordsFault::Memory
    }
}
