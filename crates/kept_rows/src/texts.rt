//! A header and batches, as a journal's file has them.
use journal_file::raw_text;
use std::alloc::{AllocError, Global};

pub const HEADER: &[u8] = b"osm-journal 2\n";

pub const FIRST: &[u8] = b"{\"a\":1}\n\n";

pub const SECOND: &[u8] = b"{\"b\":[]}\n{\"c\":{}}\n{}\n\n";

pub const THIRD: &[u8] = b"{\"d\":\"#\"}\n\n";

/// What is no journal.
pub const SCRIPT: &[u8] = b"#!/bin/sh\n";

/// The parts, one behind another.
pub fn joined(alloc: Global, parts: &[&[u8]]) -> Result<Vec<u8>, AllocError> {
    let mut all = Vec::new(alloc);
    for part in parts {
        all.extend_from_slice(part)?;
    }
    Ok(all)
}

/// The lines without the empty ones among them.
pub fn packed(alloc: Global, raw: &[u8]) -> Result<Vec<u8>, AllocError> {
    let mut all = Vec::new(alloc);
    let mut before = b'\n';
    for byte in raw {
        if *byte != b'\n' || before != b'\n' {
            all.push(*byte)?;
        }
        before = *byte;
    }
    Ok(all)
}

/// The text that a file stands for.
pub fn text_in(alloc: Global, file: &[u8]) -> Result<Vec<u8>, AllocError> {
    packed(alloc, raw_text(file))
}
