//! Which file has a path.

use std::fs;
use std::os::unix::fs::MetadataExt;
use std::rt::Files;

/// A path, and the file that had it when this was made, by its device and its number there.
#[derive(Drop)]
pub struct NamedFile {
    path: String,
    file: Option<(u64, u64)>,
}

impl NamedFile {
    /// The file that has this path now.
    pub fn of<F: Files>(files: &F, path: String) -> NamedFile {
        let file = file_at(files, path.as_str());
        NamedFile { path, file }
    }

    /// Whether these many bytes are all that the file at this path has. Where that can't be told, they are.
    pub fn was_read<F: Files>(&self, files: &F, count: usize) -> bool {
        match fs::metadata(files, self.path.as_str()) {
            Ok(found) => found.len() == count as u64,
            Err(_) => true,
        }
    }

    /// Whether another file has the path by now. Where none has it any more, or that can't be told,
    /// there is no other.
    pub fn is_another<F: Files>(&self, files: &F) -> bool {
        match (self.file, file_at(files, self.path.as_str())) {
            (Some(before), Some(now)) => before != now,
            _ => false,
        }
    }
}

fn file_at<F: Files>(files: &F, path: &str) -> Option<(u64, u64)> {
    match fs::metadata(files, path) {
        Ok(found) => Some((found.dev(), found.ino())),
        Err(_) => None,
    }
}
