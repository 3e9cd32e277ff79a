//! The link to a copy's keeper.

use std::io::{Read, Write};

/// Names the protocol and its version.
const GREETING: &[u8] = b"hegunsap-copy-1\n";

/// The keeper has on its disk what it was sent.
const DONE: u8 = b'+';

/// It has not, and closes.
const REFUSED: u8 = b'-';

/// Why no copy was begun.
#[derive(Clone, Copy, PartialEq, Eq)]
pub enum CopyFault {
    /// The connection failed or ended, or the keeper answered something else.
    Failed,
    /// The keeper refused: what its copy holds is no beginning of the file, say.
    Refused,
}

/// A connection to the keeper of a copy that has all the file's bytes. Calls are sent and not waited for;
/// a sync reads their answers.
#[derive(Drop)]
pub struct CopyLink<S> {
    stream: S,
    owed: usize,
}

/// The first bytes of a call: its kind and two numbers.
fn head_of(kind: u8, first: usize, second: usize) -> [u8; 17] {
    let mut head = [kind; 17];
    head[1..9].copy_from_slice(&(first as u64).to_be_bytes());
    head[9..17].copy_from_slice(&(second as u64).to_be_bytes());
    head
}

/// The keeper's next answer, if it gives one.
fn answer<S: Read>(stream: &mut S) -> Option<u8> {
    let mut answer = [0; 1];
    match stream.read_exact(&mut answer) {
        Ok(()) => Some(answer[0]),
        Err(_) => None,
    }
}

impl<S: Read + Write> CopyLink<S> {
    /// Has the copy be these bytes, on the keeper's disk.
    pub fn begin(stream: S, bytes: &[u8]) -> Result<CopyLink<S>, CopyFault>
    where
        S: Drop,
    {
        let mut link = CopyLink { stream, owed: 0 };
        let length = (bytes.len() as u64).to_be_bytes();
        if !(link.send(GREETING) && link.send(&length) && link.send(bytes)) {
            return Err(CopyFault::Failed);
        }
        match answer(&mut link.stream) {
            Some(DONE) => Ok(link),
            Some(REFUSED) => Err(CopyFault::Refused),
            _ => Err(CopyFault::Failed),
        }
    }

    /// Sends these, and says whether that could be done.
    fn send(&mut self, bytes: &[u8]) -> bool {
        self.stream.write_all(bytes).is_ok()
    }

    /// Sends a call, which the keeper will answer.
    fn call(&mut self, head: &[u8], bytes: &[u8]) -> bool {
        self.owed = self.owed.saturating_add(1);
        self.send(head) && self.send(bytes)
    }

    /// Writes over what the copy has from that place on.
    pub fn write_at(&mut self, at: usize, bytes: &[u8]) -> bool {
        self.call(&head_of(b'W', at, bytes.len()), bytes)
    }

    /// Lays by so many zeros behind the copy's end.
    pub fn lay_by(&mut self, end: usize, count: usize) -> bool {
        self.call(&head_of(b'Z', end, count), &[])
    }

    /// Cuts the copy to a length.
    pub fn cut(&mut self, len: usize) -> bool {
        self.call(&head_of(b'C', len, 0)[..9], &[])
    }

    /// Whether all that was sent is on the keeper's disk, which is waited for.
    pub fn sync(&mut self) -> bool {
        for _ in 0..self.owed {
            if answer(&mut self.stream) != Some(DONE) {
                return false;
            }
        }
        self.owed = 0;
        true
    }
}
