//! Pieces of bytes.
use row_lines::{RowFault, add_unescaped};
use std::alloc::Global;

/// Pieces behind each other, and where each ends.
#[derive(Drop)]
pub struct Pieces {
    bytes: Vec<u8>,
    ends: Vec<usize>,
}

impl Pieces {
    pub fn none(alloc: Global) -> Pieces {
        Pieces {
            bytes: Vec::new(alloc),
            ends: Vec::new(alloc),
        }
    }

    /// Where the next piece is put.
    pub fn bytes(&mut self) -> &mut Vec<u8> {
        &mut self.bytes
    }

    /// Ends a piece.
    pub fn end(&mut self) -> Result<(), RowFault> {
        self.ends.push(self.bytes.len())?;
        Ok(())
    }

    /// Adds the bytes of a text with escapes as a piece.
    pub fn add_unescaped(&mut self, text: &str) -> Result<(), RowFault> {
        add_unescaped(&mut self.bytes, text)?;
        self.end()
    }

    /// How many there are.
    pub fn len(&self) -> usize {
        self.ends.len()
    }

    /// All of them.
    pub fn all(&self) -> &[u8] {
        self.bytes.as_slice()
    }

    /// So many from the first on.
    pub fn first(&self, count: usize) -> &[u8] {
        let end = match count {
            0 => 0,
            _ => self
                .ends
                .get(count - 1)
                .copied()
                .unwrap_or(self.bytes.len()),
        };
        self.bytes.get(..end).unwrap_or(&[])
    }

    /// How many are whole in so many bytes, and whether the last of them ends there.
    pub fn whole_in(&self, bytes: usize) -> (usize, bool) {
        let mut count = 0_usize;
        let mut last = 0;
        for end in &self.ends {
            if *end > bytes {
                break;
            }
            count = count.saturating_add(1);
            last = *end;
        }
        (count, last == bytes)
    }
}
