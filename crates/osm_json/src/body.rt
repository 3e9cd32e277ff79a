//! The bytes of a body, written a piece at a time.
ghost use Rattle.std.specs.Prelude.{◌≡◌, ◌+◌, ◌<◌, ◌≤◌, [], ◌∷◌, ◌++◌, length, take, vec_len, OnOk};
ghost use Rattle.std.specs.Fmt.{decimal, signed_decimal};
ghost use Rattle.json.specs.Filled.{Placed};
ghost use Rattle.json.specs.Print.{quoted};
ghost use Rattle.osm_json.specs.Added.{Adds};

use crate::escapes::is_plain;
use itoa::write_digits;
use json::Writer;
use std::alloc::{AllocError, Global};
use std::marker::Model;

/// The bytes up to `len` count. What lies behind them is there already, so that a piece is stored with one test.
#[derive(Drop)]
pub(crate) struct Body {
    bytes: Vec<u8>,
    len: usize,
}

impl Model for Body {
    ghost use Rattle.std.specs.Prelude.{ℕ, List, ◌≤◌, length, take};

    ghost Value = { List ℕ };

    ghost view = { λ b. take b.len b.bytes.items };

    ghost invariant = { λ b. b.len ≤ length b.bytes.items };
}

/// How much longer the bytes are made at a time.
pub(crate) const STEP: usize = 1024;

static ZEROS: [u8; STEP] = [0; STEP];

#[cold]
#[inline(never)]
fn lengthen(bytes: &mut Vec<u8>, len: usize, more: usize) -> Result<(), AllocError>
    requires { len ≤ vec_len bytes.old }
    ensures front { take (vec_len bytes.old) bytes.new.items ≡ bytes.old.items }
    ensures longer { vec_len bytes.old ≤ length bytes.new.items }
    ensures reached { OnOk result (len + more ≤ length bytes.new.items) }
{
    while bytes.len() - len < more {
        bytes.extend_from_slice(&ZEROS)?;
    }
    Ok(())
}

/// Has the bytes reach so far behind the first `len`.
#[inline(always)]
fn reach(bytes: &mut Vec<u8>, len: usize, more: usize) -> Result<(), AllocError>
    requires { len ≤ vec_len bytes.old }
    ensures front { take (vec_len bytes.old) bytes.new.items ≡ bytes.old.items }
    ensures longer { vec_len bytes.old ≤ length bytes.new.items }
    ensures reached { OnOk result (len + more ≤ length bytes.new.items) }
{
    if more <= bytes.len() - len {
        return Ok(());
    }
    lengthen(bytes, len, more)
}

#[inline(always)]
fn place(buf: &mut [u8], at: usize, text: &[u8]) -> usize
    requires { at + length text.now ≤ length buf.old }
    ensures { Placed buf.old buf.new at text.now result }
{
    let end = at + text.len();
    buf[at..end].copy_from_slice(text);
    end
}

#[inline(always)]
fn place_digits(buf: &mut [u8], at: usize, n: u64, count: usize) -> usize
    requires fits { at + count ≤ length buf.old }
    requires count { count ≡ length (decimal n) }
    ensures { Placed buf.old buf.new at (decimal n) result }
{
    let end = at + count;
    write_digits(n, buf, end);
    end
}

#[inline(always)]
#[tactic(auto, using(itoa::proofs::Decimal::length_one, itoa::proofs::Decimal::length_two, itoa::proofs::Decimal::length_pair))]
fn few_digits(n: u64) -> usize
    requires { n < 10000 }
    ensures { result ≡ length (decimal n) }
{
    if n < 100 {
        if n < 10 { 1 } else { 2 }
    } else if n < 1000 {
        3
    } else {
        4
    }
}

/// How many digits a number has.
#[inline(always)]
fn digit_count(n: u64) -> usize
    ensures value { result ≡ length (decimal n) }
    ensures few { result ≤ 20 }
{
    let mut left = n;
    let mut more = 0;
    while left >= 10_000 {
        left /= 10_000;
        more += 4;
    }
    more + few_digits(left)
}

impl Body {
    /// It goes on behind the bytes that are there.
    pub(crate) fn new(bytes: Vec<u8>) -> Body
        ensures { result ≡ bytes.items }
    {
        let len = bytes.len();
        Body { bytes, len }
    }

    /// No bytes, and no memory yet.
    pub(crate) fn none(alloc: Global) -> Body
        ensures { result ≡ [] }
    {
        Body::new(Vec::new(alloc))
    }

    pub(crate) fn into_bytes(self) -> Vec<u8>
        ensures { result.items ≡ self }
    {
        let Body { mut bytes, len } = self;
        bytes.truncate(len);
        bytes
    }

    pub(crate) fn allocator(&self) -> Global {
        *self.bytes.allocator()
    }

    pub(crate) fn bytes(&self) -> &[u8]
        ensures { result.now ≡ self.now }
    {
        &self.bytes[..self.len]
    }

    pub(crate) fn clear(&mut self)
        ensures { self.new ≡ [] }
    {
        self.len = 0;
    }

    #[inline(always)]
    pub(crate) fn piece(&mut self, text: &[u8]) -> Result<(), AllocError>
        ensures { Adds result self.old self.new text.now }
    {
        reach(&mut self.bytes, self.len, text.len())?;
        let buf = self.bytes.as_mut_slice();
        self.len = place(buf, self.len, text);
        Ok(())
    }

    /// A name, or other text of a few bytes, and a number.
    #[inline(always)]
    pub(crate) fn natural(&mut self, name: &[u8], n: u64) -> Result<(), AllocError>
        requires { length name.now ≤ 64 }
        ensures { Adds result self.old self.new (name.now ++ decimal n) }
    {
        let count = digit_count(n);
        reach(&mut self.bytes, self.len, name.len() + count)?;
        let buf = self.bytes.as_mut_slice();
        let at = place(buf, self.len, name);
        self.len = place_digits(buf, at, n, count);
        Ok(())
    }

    #[inline(always)]
    pub(crate) fn integer(&mut self, name: &[u8], n: i32) -> Result<(), AllocError>
        requires { length name.now ≤ 64 }
        ensures { Adds result self.old self.new (name.now ++ signed_decimal n) }
    {
        self.long(name, n as i64)
    }

    /// The same of a number of 64 bits.
    #[inline(always)]
    pub(crate) fn long(&mut self, name: &[u8], n: i64) -> Result<(), AllocError>
        requires { length name.now ≤ 64 }
        ensures { Adds result self.old self.new (name.now ++ signed_decimal n) }
    {
        if n >= 0 {
            self.natural(name, n as u64)?;
            return Ok(());
        }
        self.piece(name)?;
        self.natural(b"-", n.unsigned_abs())?;
        Ok(())
    }

    /// A name and a text.
    #[inline(always)]
    pub(crate) fn text(&mut self, name: &[u8], text: &str) -> Result<(), AllocError>
        requires { length name.now ≤ 64 }
        ensures { Adds result self.old self.new (name.now ++ quoted text.now) }
    {
        if is_plain(text.as_bytes()) {
            self.plain(name, text.as_bytes())?;
        } else {
            self.escaped(name, text)?;
        }
        Ok(())
    }

    #[inline(always)]
    fn plain(&mut self, name: &[u8], text: &[u8]) -> Result<(), AllocError>
        requires { length name.now ≤ 64 }
        ensures { Adds result self.old self.new (name.now ++ 34 ∷ (text.now ++ 34 ∷ [])) }
    {
        reach(&mut self.bytes, self.len, name.len() + text.len() + 2)?;
        let buf = self.bytes.as_mut_slice();
        let at = place(buf, self.len, name);
        let at = place(buf, at, b"\"");
        let at = place(buf, at, text);
        self.len = place(buf, at, b"\"");
        Ok(())
    }

    /// The library escapes, into bytes of their own: few texts need it.
    #[cold]
    #[inline(never)]
    fn escaped(&mut self, name: &[u8], text: &str) -> Result<(), AllocError>
        requires { length name.now ≤ 64 }
        ensures { Adds result self.old self.new (name.now ++ quoted text.now) }
    {
        let mut out = Writer::new(Vec::new(self.allocator()));
        out.string(text)?;
        let escaped = out.into_inner();
        self.piece(name)?;
        self.piece(escaped.as_slice())?;
        Ok(())
    }
}
