//! What a crash may leave, drawn by a seed.
use journal_file::Deed;
use std::alloc::{AllocError, Global};

/// The number behind this one, where numbers are drawn.
fn drawn(seed: u64) -> u64 {
    let x = seed.wrapping_add(0x9e37_79b9_7f4a_7c15);
    let x = (x ^ (x >> 30)).wrapping_mul(0xbf58_476d_1ce4_e5b9);
    let x = (x ^ (x >> 27)).wrapping_mul(0x94d0_49bb_1331_11eb);
    x ^ (x >> 31)
}

/// What a write that a crash cuts short may leave: at each place the byte that was there or the one that
/// was written, by a share that is drawn too.
fn mixed(
    alloc: Global,
    old: &[u8],
    at: usize,
    bytes: &[u8],
    seed: u64,
) -> Result<Vec<u8>, AllocError> {
    let share = drawn(seed) % 9;
    let mut left = Vec::new(alloc);
    for (i, was) in old.iter().enumerate() {
        let draw = drawn(seed.wrapping_add(i as u64).wrapping_mul(7)) % 8;
        let byte = match bytes.get(i.saturating_sub(at)).copied() {
            Some(new) if i >= at && draw < share => new,
            _ => *was,
        };
        left.push(byte)?;
    }
    Ok(left)
}

/// What stands there after a whole write.
fn put(alloc: Global, old: &[u8], at: usize, bytes: &[u8]) -> Result<Vec<u8>, AllocError> {
    let end = at.saturating_add(bytes.len()).max(old.len());
    let mut left = Vec::new(alloc);
    for i in 0..end {
        let byte = match bytes.get(i.saturating_sub(at)).copied() {
            Some(new) if i >= at => new,
            _ => old.get(i).copied().unwrap_or(0),
        };
        left.push(byte)?;
    }
    Ok(left)
}

/// How many calls there are up to the last sync.
fn settled(deeds: &[Deed]) -> usize {
    let mut last = 0;
    for (i, deed) in deeds.iter().enumerate() {
        if matches!(deed, Deed::Synced) {
            last = i;
        }
    }
    last
}

/// What a crash may leave after these calls: what was synced, and of the rest what the device allows.
pub fn left_by(
    alloc: Global,
    first: &[u8],
    deeds: &[Deed],
    seed: u64,
) -> Result<Vec<u8>, AllocError> {
    let sure = settled(deeds);
    let mut file = first.to_vec(alloc)?;
    for (i, deed) in deeds.iter().enumerate() {
        let draw = drawn(seed.wrapping_add(i as u64));
        match deed {
            Deed::Wrote { at, bytes } => {
                file = if i < sure || draw % 5 == 0 {
                    put(alloc, &file, *at, bytes)?
                } else {
                    mixed(alloc, &file, *at, bytes, draw)?
                };
            }
            Deed::LaidBy { count } => {
                let more = if i < sure {
                    *count
                } else {
                    (draw % (*count as u64).saturating_add(1)) as usize
                };
                for _ in 0..more {
                    file.push(0)?;
                }
            }
            Deed::CutTo { len } => {
                let more = file.len().saturating_sub(*len) as u64;
                let kept = if i < sure {
                    0
                } else {
                    draw % more.saturating_add(1)
                };
                file.truncate(len.saturating_add(kept as usize));
            }
            Deed::Synced => {}
        }
    }
    Ok(file)
}
