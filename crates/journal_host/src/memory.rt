//! Files in memory, for tests of all that stands above.
ghost use Rattle.std.specs.Prelude.{◌≡◌, IfOk};
ghost use Rattle.journal_file.specs.History.{opened};
ghost use Rattle.journal_host.specs.Told.{none_lent};

use crate::journals::Journals;
use crate::trace::JournalTrace;
use journal_file::{DiskFault, MemFile};
use std::alloc::Global;

/// What gives files in memory. Whatever the path, each has the same bytes, or is a new one where there
/// are none, and fails after so many calls. The last that came back is kept.
#[derive(Drop)]
pub struct MemJournals {
    file: Option<Vec<u8>>,
    left: u64,
    returned: Option<MemFile>,
    trace: JournalTrace,
}

impl MemJournals {
    /// Files with these bytes, of which each has so many calls done and then fails.
    pub fn new(file: Option<Vec<u8>>, left: u64) -> MemJournals {
        MemJournals {
            file,
            left,
            returned: None,
            trace: JournalTrace::new(),
        }
    }

    /// The last file that came back.
    pub fn returned(&self) -> Option<&MemFile> {
        self.returned.as_ref()
    }

    /// The bytes of a file that is to be given.
    fn bytes(&self, alloc: Global, header: &[u8]) -> Result<Vec<u8>, DiskFault> {
        match &self.file {
            Some(file) => Ok(file.to_vec(alloc)?),
            None => Ok(header.to_vec(alloc)?),
        }
    }

    /// A file that is to be given, and its bytes.
    fn file(&self, alloc: Global, header: &[u8]) -> Result<(MemFile, Vec<u8>), DiskFault>
        ensures { IfOk result (λ r. r.0 ≡ opened r.1.items) }
    {
        let bytes = self.bytes(alloc, header)?;
        let read = bytes.to_vec(alloc)?;
        Ok((MemFile::new(alloc, bytes, self.left), read))
    }
}

impl Journals for MemJournals {
    ghost use Rattle.std.specs.Prelude.{⊤};

    type File = MemFile;

    ghost told = { λ j. j.trace.told };

    ghost given = { λ _ _. ⊤ };

    fn lend(
        &mut self,
        alloc: Global,
        path: &str,
        header: &[u8],
    ) -> Result<(MemFile, Vec<u8>), DiskFault> {
        match self.file(alloc, header) {
            Ok((file, bytes)) => {
                self.trace = self.trace.lent(path, &bytes);
                Ok((file, bytes))
            }
            Err(why) => {
                self.trace = self.trace.asked(path);
                Err(why)
            }
        }
    }

    fn back(&mut self, file: MemFile) {
        self.trace = self.trace.back_of_memory(&file);
        self.returned = Some(file);
    }
}
