//! The bytes that were read and aren't used yet.
ghost use Rattle.std.specs.Prelude.{◌≡◌, ◌≤◌, ◌<◌, ◌+◌, ◌-◌, [], List, ℕ, length, take, drop, IfOk, OnErr, IsErr, vec_len};
ghost use Rattle.http_wire.specs.Received.{Fills, Taken};
ghost use Rattle.osm_base.specs.declared.limits.TheConstants.{HEAD_LIMIT};
ghost use Rattle.osm_outside.specs.Told.{Rose};

use osm_base::{HEAD_LIMIT, Memory};
use osm_outside::{Failed, Outside, Source};
use std::alloc::Global;
use std::marker::Model;

/// At most as many bytes as a head may have. Contracts see them as the list.
#[derive(Drop)]
pub struct Buffer {
    bytes: Vec<u8>,
    start: usize,
    end: usize,
}

impl Model for Buffer {
    ghost Value = { List ℕ };

    ghost view = { λ b. drop b.start (take b.end b.bytes.items) };

    ghost invariant = { λ b. (b.start ≤ b.end) × (b.end ≤ HEAD_LIMIT) × (vec_len b.bytes ≡ HEAD_LIMIT) };
}

impl Buffer {
    /// A buffer with nothing in it, and room for a head.
    pub fn new(alloc: Global) -> Result<Buffer, Memory>
        ensures { IfOk result (λ buffer. buffer ≡ []) }
    {
        Ok(Buffer {
            bytes: Vec::from_elem(alloc, 0, HEAD_LIMIT)?,
            start: 0,
            end: 0,
        })
    }

    /// The bytes.
    pub fn as_slice(&self) -> &[u8]
        ensures bytes { result.now ≡ self.now }
        ensures limit { length self.now ≤ HEAD_LIMIT }
    {
        &self.bytes[self.start..self.end]
    }

    /// Lets the first bytes go.
    pub fn drop_front(&mut self, count: usize)
        requires { count ≤ length self.old }
        ensures { self.new ≡ drop count self.old }
    {
        self.start += count;
    }

    /// Reads some bytes to the end, if there are some. Those that are there move to the front first. A caller reads more only
    /// where they aren't a whole message, so each byte moves once at most.
    pub fn fill<S: Source>(&mut self, source: &mut S) -> Result<usize, Failed>
        requires { length self.old < HEAD_LIMIT }
        ensures filled { IfOk result (Fills (S.told source.old) (S.told source.new) self.old self.new) }
        ensures err { OnErr result (self.new ≡ self.old) }
        ensures nothing_read { OnErr result (Taken (S.told source.old) (S.told source.new) []) }
        ensures failed { IsErr result → Rose (S.told source.old).read_faults (S.told source.new).read_faults }
    {
        let len = self.end - self.start;
        move_to_front(self.bytes.as_mut_slice(), self.start, self.end);
        self.start = 0;
        self.end = len;
        let count = read_behind(self.bytes.as_mut_slice(), len, source)?;
        self.end += count;
        Ok(count)
    }
}

/// Moves a part of the bytes to the front.
fn move_to_front(bytes: &mut [u8], start: usize, end: usize)
    requires ordered { start ≤ end }
    requires in_range { end ≤ length bytes.old }
    ensures front { take (end - start) bytes.new ≡ drop start (take end bytes.old) }
    ensures len { length bytes.new ≡ length bytes.old }
{
    if start > 0 {
        bytes.copy_within(start..end, 0);
    }
}

/// Reads some bytes to the places from `len` on.
fn read_behind<S: Source>(bytes: &mut [u8], len: usize, source: &mut S) -> Result<usize, Failed>
    requires { len < length bytes.old }
    ensures count { IfOk result (λ n. len + n ≤ length bytes.new) }
    ensures len { length bytes.new ≡ length bytes.old }
    ensures filled { IfOk result (λ n. Fills (S.told source.old) (S.told source.new)
        (take len bytes.old) (take (len + n) bytes.new) n) }
    ensures unchanged { OnErr result (take len bytes.new ≡ take len bytes.old) }
    ensures nothing_read { OnErr result (Taken (S.told source.old) (S.told source.new) []) }
    ensures failed { IsErr result → Rose (S.told source.old).read_faults (S.told source.new).read_faults }
{
    source.read(&mut bytes[len..])
}
