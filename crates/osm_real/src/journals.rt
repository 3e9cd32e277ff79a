//! The files of journals, on the system's disk, and their copies elsewhere.
ghost use Rattle.std.specs.Prelude.{◌≡◌, IfOk, IsSome};
ghost use Rattle.copied_file.specs.Copied.{HasJustOpened};
ghost use Rattle.journal_file.specs.History.{opened};
ghost use Rattle.osm_real.specs.Keeper.{NamesKeeper, IsGivenFor};

use crate::given::GivenTrace;
use crate::named_file::NamedFile;
use crate::older_file::has_lost_lines;
use crate::stop::Stop;
use crate::stopping_file::StoppingFile;
use copied_file::{CopiedFile, CopyFault, CopyLink};
use journal_file::{DiskFault, DiskFile, create, open};
use journal_host::Journals;
use std::alloc::Global;
use std::fs::File;
use std::io::{self, ErrorKind};
use std::net::{Net, OpenStream, TcpStream, ToSocketAddrs};
use std::rt::{Clock, Files};
use std::time::Duration;

/// Stands between the path of a file and the address of the keeper of its copy.
const COPY_AT: &str = "+tcp://";

/// How long a keeper may take to answer a connection, and each read and write behind that, in seconds.
const REACH_LIMIT: u64 = 10;

const ANSWER_LIMIT: u64 = 30;

/// What gives the files of a system, each with a copy where its path names a keeper, as
/// `map.journal+tcp://127.0.0.1:7011` does. A file asks for the stop at its first call that fails, and
/// where another one has its path.
#[derive(Drop)]
pub struct FileJournals<'a, F> {
    system: F,
    stop: &'a Stop,
    trace: GivenTrace,
}

impl<'a, F> FileJournals<'a, F> {
    /// The files of this system, of which none was given yet.
    pub fn new(system: F, stop: &'a Stop) -> FileJournals<'a, F> {
        FileJournals {
            system,
            stop,
            trace: GivenTrace::new(),
        }
    }
}

impl<'a, F: Files<File = File> + Net + Clock + Copy + Send> Journals for FileJournals<'a, F>
where
    F::Stream: Send,
{
    ghost use Rattle.osm_real.specs.Keeper.{IsGivenFor};

    type File = StoppingFile<'a, F>;

    ghost told = { λ j. j.trace.told };

    ghost given = { IsGivenFor };

    fn lend(
        &mut self,
        alloc: Global,
        path: &str,
        header: &[u8],
    ) -> Result<(StoppingFile<'a, F>, Vec<u8>), DiskFault> {
        match open_copied(&self.system, alloc, path, header) {
            Ok((file, named, bytes)) => {
                self.trace = self.trace.lent(path, &bytes);
                let file = StoppingFile::new(file, named, self.system, self.stop);
                Ok((file, bytes))
            }
            Err(why) => {
                self.trace = self.trace.asked(path);
                Err(why)
            }
        }
    }

    /// Closes the file, and lets its lock and its keeper go.
    fn back(&mut self, file: StoppingFile<'a, F>) {
        let file = file.into_inner();
        self.trace = self.trace.back(&file);
        drop(file);
    }
}

/// The path of the file, and the address of its copy's keeper, if the path names one.
fn parts_of(path: &str) -> (&str, Option<&str>)
    ensures { NamesKeeper path.now → IsSome result.1 }
{
    match path.split_once(COPY_AT) {
        Some((path, keeper)) => (path, Some(keeper)),
        None => (path, None),
    }
}

/// The file at that path and its copy, if the path names a keeper.
fn open_copied<F: Files<File = File> + Net>(
    system: &F,
    alloc: Global,
    path: &str,
    header: &[u8],
) -> Result<(CopiedFile<F::Stream>, NamedFile, Vec<u8>), DiskFault>
    ensures opened { IfOk result (λ r. HasJustOpened r.2.items r.0) }
    ensures given { IfOk result (λ r. IsGivenFor path.now r.0) }
{
    let (path, keeper) = parts_of(path);
    let (file, named, bytes) = open_named(system, alloc, path, header)?;
    let copy = match keeper {
        Some(keeper) => Some(copy_at(system, keeper, &bytes)?),
        None => None,
    };
    Ok((CopiedFile::new(file, &bytes, copy), named, bytes))
}

/// The copy of these bytes that the keeper at this address has now. `Unfit` where it refuses them, and
/// `Failed` where it isn't to be reached.
fn copy_at<N: Net>(net: &N, keeper: &str, bytes: &[u8]) -> Result<CopyLink<N::Stream>, DiskFault> {
    match CopyLink::begin(reach(net, keeper)?, bytes) {
        Ok(copy) => Ok(copy),
        Err(CopyFault::Refused) => Err(DiskFault::Unfit),
        Err(CopyFault::Failed) => Err(DiskFault::Failed),
    }
}

/// A connection to the first of a keeper's addresses that answers. Its writes don't wait for one another.
fn reach<N: Net>(net: &N, keeper: &str) -> io::Result<N::Stream> {
    for address in keeper.to_socket_addrs(net)? {
        let limit = Duration::from_secs(REACH_LIMIT);
        if let Ok(stream) = TcpStream::connect_timeout(net, &address, limit) {
            let wait = Some(Duration::from_secs(ANSWER_LIMIT));
            stream.set_nodelay(true)?;
            stream.set_read_timeout(wait)?;
            stream.set_write_timeout(wait)?;
            return Ok(stream);
        }
    }
    Err(io::Error::from(ErrorKind::NotConnected))
}

/// The file at that path, by its name too. `Failed` where fewer bytes were read than it has, and `Unfit`
/// where it is of an older version and has lost lines.
fn open_named<F: Files<File = File>>(
    files: &F,
    alloc: Global,
    path: &str,
    header: &[u8],
) -> Result<(DiskFile, NamedFile, Vec<u8>), DiskFault>
    ensures { IfOk result (λ r. r.0 ≡ opened r.2.items) }
{
    let name = String::from_str(alloc, path)?;
    let (file, bytes) = open_or_create(files, alloc, path, header)?;
    let named = NamedFile::of(files, name);
    if !named.was_read(files, bytes.len()) {
        return Err(DiskFault::Failed);
    }
    if has_lost_lines(&bytes, header) {
        return Err(DiskFault::Unfit);
    }
    Ok((file, named, bytes))
}

/// The file at that path, which is made first where there is none.
fn open_or_create<F: Files<File = File>>(
    files: &F,
    alloc: Global,
    path: &str,
    header: &[u8],
) -> Result<(DiskFile, Vec<u8>), DiskFault>
    ensures { IfOk result (λ r. r.0 ≡ opened r.1.items) }
{
    match open(files, alloc, path) {
        Err(DiskFault::Missing) => {
            create(files, alloc, path, header)?;
            open(files, alloc, path)
        }
        result => result,
    }
}
