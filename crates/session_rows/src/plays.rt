//! One run of the server or of a mirror for a row, and whether what came is what must come.
use crate::rows::Row;
use journal_host::MemJournals;
use mirror_serve::mirror;
use osm_base::Bytes;
use osm_outside::{MemHost, MemLink};
use osm_serve::run;
use row_lines::RowFault;
use std::alloc::Global;
use std::io;
use std::sync::Wait;
use std::thread::Threads;

/// The room for what is written, in bytes, where a row's sweeps don't take less.
const ROOM: usize = 4_000_000;

/// How much is shown of what was wanted and of what came: so many bytes before the first that
/// differs, and so many in all.
const SHOWN_BEFORE: usize = 120;

const SHOWN: usize = 600;

/// A run of a row: what its link is given beside the row's own, and what must come.
#[derive(Clone, Copy)]
pub struct Play<'a> {
    /// What is special about it, and the number of the byte, read or write where it is so.
    pub way: &'static str,
    pub number: usize,
    pub input: &'a [u8],
    /// The most bytes that each of so many reads gives, past these any number.
    pub cut: usize,
    pub cut_count: usize,
    /// The only read and the only write that fails, where these aren't the row's own.
    pub bad_read: Option<u64>,
    pub bad_write: Option<u64>,
    pub room: usize,
    pub wanted: &'a [u8],
    pub status: u64,
}

impl<'a> Play<'a> {
    /// A run with the row's input in any pieces, with the row's failing calls.
    pub fn whole(row: &'a Row) -> Play<'a> {
        Play {
            way: "as it is",
            number: 0,
            input: row.requests.all(),
            cut: 0,
            cut_count: 0,
            bad_read: None,
            bad_write: None,
            room: ROOM,
            wanted: row.replies.all(),
            status: row.status,
        }
    }

    /// Runs the program, and answers whether what came is what must come. Tells what was wrong.
    pub fn run<R: Print + Threads + Wait + Sync>(
        &self,
        rt: &R,
        alloc: Global,
        name: &str,
        row: &Row,
    ) -> io::Result<bool> {
        match link_of(alloc, row, self) {
            Ok(mut link) => self.run_on(rt, alloc, name, row, &mut link),
            Err(why) => self.tell_fault(rt, name, why),
        }
    }

    fn run_on<R: Print + Threads + Wait + Sync>(
        &self,
        rt: &R,
        alloc: Global,
        name: &str,
        row: &Row,
        link: &mut MemLink,
    ) -> io::Result<bool> {
        match served(rt, alloc, row, link) {
            Ok(status) => self.judge(rt, name, u64::from(status), link.written()),
            Err(why) => self.tell_fault(rt, name, why),
        }
    }

    fn tell_fault<R: Print>(&self, rt: &R, name: &str, why: RowFault) -> io::Result<bool> {
        println!(rt; "wrong: {name}: {} {}: {why}", self.way, self.number)?;
        Ok(false)
    }

    /// Whether what came is what was wanted. Tells both where it isn't.
    fn judge<R: Print>(&self, rt: &R, name: &str, status: u64, came: &[u8]) -> io::Result<bool> {
        if status == self.status && came == self.wanted {
            return Ok(true);
        }
        self.tell_difference(rt, name, status, came)?;
        Ok(false)
    }

    /// Tells what was wanted and what came, from shortly before the first byte that differs.
    fn tell_difference<R: Print>(
        &self,
        rt: &R,
        name: &str,
        status: u64,
        came: &[u8],
    ) -> io::Result<()> {
        let start = same(self.wanted, came).saturating_sub(SHOWN_BEFORE);
        println!(rt; "wrong: {name}: {} {}", self.way, self.number)?;
        show(rt, "wanted", self.status, shown(self.wanted, start))?;
        show(rt, "came", status, shown(came, start))
    }
}

fn show<R: Print>(rt: &R, what: &str, status: u64, bytes: &[u8]) -> io::Result<()> {
    println!(rt; "    {what}: status {status}, {}", bytes.escape_ascii())
}

/// The numbers of the calls that fail: the one that does in a play, or else the row's.
fn bad(alloc: Global, usual: &[u64], number: Option<u64>) -> Result<Vec<u64>, RowFault> {
    match number {
        Some(number) => Ok(Vec::from_elem(alloc, number, 1)?),
        None => Ok(usual.to_vec(alloc)?),
    }
}

/// The link of a run, with the row's clock.
fn link_of(alloc: Global, row: &Row, play: &Play<'_>) -> Result<MemLink, RowFault> {
    let input = Bytes::of(alloc, play.input)?;
    let cuts = Vec::from_elem(alloc, play.cut, play.cut_count)?;
    let moments = row.moments.as_slice().to_vec(alloc)?;
    let bad_reads = bad(alloc, row.bad_reads.as_slice(), play.bad_read)?;
    let bad_writes = bad(alloc, row.bad_writes.as_slice(), play.bad_write)?;
    Ok(MemLink::new(
        alloc, input, cuts, moments, bad_reads, bad_writes, play.room,
    )?)
}

/// Runs the program that the row's words name on the link, with the row's host, and gives its status.
fn served<R: Threads + Wait + Sync>(
    rt: &R,
    alloc: Global,
    row: &Row,
    link: &mut MemLink,
) -> Result<u8, RowFault> {
    let users = Bytes::of(alloc, row.users.as_slice())?;
    let bad_calls = row.bad_calls.as_slice().to_vec(alloc)?;
    let mut host = MemHost::new(alloc, users, Vec::new(alloc), bad_calls)?;
    let words = row.words.as_slice();
    let mut journals = MemJournals::new(None, u64::MAX);
    if row.is_of_mirror() {
        Ok(mirror(rt, alloc, words, &mut host, &mut journals, link))
    } else {
        Ok(run(rt, alloc, words, &mut host, &mut journals, link))
    }
}

/// How many bytes are the same at the front of both.
fn same(wanted: &[u8], came: &[u8]) -> usize {
    let mut count = 0_usize;
    for (wanted, came) in wanted.iter().zip(came.iter()) {
        if wanted != came {
            break;
        }
        count = count.saturating_add(1);
    }
    count
}

/// As many bytes from there on as are shown.
fn shown(bytes: &[u8], start: usize) -> &[u8] {
    let rest = bytes.get(start..).unwrap_or(&[]);
    rest.get(..SHOWN).unwrap_or(rest)
}
