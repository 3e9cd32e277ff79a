//! A run, and what came of it.
use crate::given::Given;
use crate::ports::ports_of;
use journal_file::{MemFile, raw_text};
use journal_host::MemJournals;
use mirror_serve::mirror;
use osm_base::{Bytes, Memory};
use osm_outside::{MemHost, MemLink, MemPort};
use osm_serve::run;
use std::alloc::Global;
use std::sync::Wait;
use std::thread::Threads;

/// The first word of a mirror.
const MIRROR: &str = "osm_mirror";

/// What stands on the standard link, which a run that listens doesn't read.
const STANDARD: &[u8] = b"GET /api/0.6/changeset/1 HTTP/1.1\r\n\r\n";

/// The room of the standard link for what is written, in bytes.
const ROOM: usize = 1_000;

/// What came of a run.
#[derive(Drop)]
pub struct Came {
    pub status: u8,
    host: MemHost,
    journals: MemJournals,
    /// Whether nothing was read from the standard link or written to it.
    pub is_unused: bool,
}

/// The host of a run: its users text, its ports, and its calls that fail: that for the users is 0,
/// that for the ports 1.
fn host_of(alloc: Global, given: &Given) -> Result<MemHost, Memory> {
    let users = Bytes::of(alloc, given.users.as_slice())?;
    let bad_calls = given.bad_calls.as_slice().to_vec(alloc)?;
    let ports = ports_of(alloc, given.ports.as_slice())?;
    MemHost::new(alloc, users, ports, bad_calls)
}

fn journals_of(alloc: Global, given: &Given) -> Result<MemJournals, Memory> {
    let file = match &given.file {
        Some(bytes) => Some(bytes.as_slice().to_vec(alloc)?),
        None => None,
    };
    Ok(MemJournals::new(file, given.left))
}

fn standard_link(alloc: Global) -> Result<MemLink, Memory> {
    let input = Bytes::of(alloc, STANDARD)?;
    MemLink::new(
        alloc,
        input,
        Vec::new(alloc),
        Vec::new(alloc),
        Vec::new(alloc),
        Vec::new(alloc),
        ROOM,
    )
}

fn is_of_mirror(words: &[String]) -> bool {
    match words.first() {
        Some(name) => name.as_str() == MIRROR,
        None => false,
    }
}

/// The status of the program that the words name.
fn status_of<R: Threads + Wait + Sync>(
    rt: &R,
    alloc: Global,
    words: &[String],
    host: &mut MemHost,
    journals: &mut MemJournals,
    standard: &mut MemLink,
) -> u8 {
    if is_of_mirror(words) {
        mirror(rt, alloc, words, host, journals, standard)
    } else {
        run(rt, alloc, words, host, journals, standard)
    }
}

/// Runs the program on these.
fn run_on<R: Threads + Wait + Sync>(
    rt: &R,
    alloc: Global,
    words: &[String],
    mut host: MemHost,
    mut journals: MemJournals,
    mut standard: MemLink,
) -> Came {
    let status = status_of(rt, alloc, words, &mut host, &mut journals, &mut standard);
    let is_unused = standard.left() == STANDARD && standard.written().is_empty();
    Came {
        status,
        host,
        journals,
        is_unused,
    }
}

/// Runs the program that the words name on what it is given.
pub fn came_of<R: Threads + Wait + Sync>(
    rt: &R,
    alloc: Global,
    words: &[String],
    given: &Given,
) -> Result<Came, Memory> {
    let standard = standard_link(alloc)?;
    let journals = journals_of(alloc, given)?;
    let host = host_of(alloc, given)?;
    Ok(run_on(rt, alloc, words, host, journals, standard))
}

impl Came {
    /// The ports that came back. None did where none was taken.
    pub fn ports(&self) -> &[MemPort] {
        self.host.returned()
    }

    fn returned(&self) -> Option<&MemFile> {
        self.journals.returned()
    }

    /// The bytes of the file that came back, and none where no file did.
    pub fn file(&self) -> &[u8] {
        match self.returned() {
            Some(file) => file.bytes(),
            None => b"",
        }
    }

    /// What the file holds that came back, without the empty lines among its lines.
    pub fn text(&self, alloc: Global) -> Result<Vec<u8>, Memory> {
        let mut text = Vec::new(alloc);
        let mut before = b'\n';
        for byte in raw_text(self.file()) {
            if *byte != b'\n' || before != b'\n' {
                text.push(*byte)?;
            }
            before = *byte;
        }
        Ok(text)
    }

    /// Whether two empty lines stand behind what it holds, and nothing but zeros behind those.
    pub fn is_sealed(&self) -> bool {
        let raw = raw_text(self.file());
        let behind = self.file().get(raw.len()..).unwrap_or(&[]);
        raw.ends_with(b"\n\n\n") && behind.iter().all(|byte| *byte == 0)
    }

    /// Whether a file came back that had no call.
    pub fn is_untouched(&self) -> bool {
        match self.returned() {
            Some(file) => file.deeds().is_empty(),
            None => false,
        }
    }

    /// Whether no file came back, so that none was given.
    pub fn is_ungiven(&self) -> bool {
        self.returned().is_none()
    }
}
