//! Keys whose ids need more than 32 bits, and room for those that may come.
ghost use Rattle.std.specs.Prelude.{◌≡◌, ◌++◌, ◌∷◌, ◌+◌, ◌-◌, ◌<◌, [], length, OnOk, OnErr};
ghost use Rattle.reverse_refs.specs.Held.{key_at};

use osm_base::{Key, Memory};
use std::alloc::Global;
use std::marker::Model;

/// The most keys, those that are awaited among them: each place fits 32 bits.
const MOST: usize = 1 << 32;

/// Keys that stay where they stand, and how many more need no memory.
#[derive(Drop)]
pub struct WideKeys {
    keys: Vec<Key>,
    awaited: usize,
}

impl Model for WideKeys {
    ghost use Rattle.std.specs.Prelude.{◌+◌, ◌^◌, ◌≤◌, vec_len, vec_capacity};
    ghost use Rattle.reverse_refs.specs.Users.{WideList};

    ghost Value = { WideList };

    ghost view = { λ w. record { keys = w.keys.items; awaited = w.awaited } };

    ghost invariant = { λ w. (vec_len w.keys + w.awaited ≤ vec_capacity w.keys) × (vec_len w.keys + w.awaited ≤ 2 ^ 32) };
}

impl WideKeys {
    /// No keys, and none awaited. It takes no memory.
    pub fn none(alloc: Global) -> WideKeys
        ensures { result ≡ record { keys = []; awaited = 0 } }
    {
        WideKeys {
            keys: Vec::new(alloc),
            awaited: 0,
        }
    }

    /// The key at a place.
    pub fn key(&self, place: u32) -> Key
        requires { place < length self.now.keys }
        ensures { result ≡ key_at self.now.keys place }
    {
        self.keys[place as usize]
    }

    /// Promises room for one more key.
    pub fn await_one(&mut self) -> Result<(), Memory>
        ensures keys { self.new.keys ≡ self.old.keys }
        ensures ok { OnOk result (self.new.awaited ≡ self.old.awaited + 1) }
        ensures err { OnErr result (self.new.awaited ≡ self.old.awaited) }
    {
        if self.keys.len() + self.awaited == MOST {
            return Err(Memory);
        }
        self.keys.reserve(self.awaited + 1)?;
        self.awaited += 1;
        Ok(())
    }

    /// Takes one promise back.
    pub fn release(&mut self)
        requires { 0 < self.old.awaited }
        ensures keys { self.new.keys ≡ self.old.keys }
        ensures awaited { self.new.awaited ≡ self.old.awaited - 1 }
    {
        self.awaited -= 1;
    }

    /// Adds a key on promised room, and gives its place.
    pub fn put(&mut self, key: Key) -> u32
        requires { 0 < self.old.awaited }
        ensures keys { self.new ≡ record { keys = self.old.keys ++ key ∷ []; awaited = self.old.awaited - 1 } }
        ensures place { result ≡ length self.old.keys }
    {
        let place = self.keys.len() as u32;
        let _always = self.keys.push(key).is_ok();
        self.awaited -= 1;
        place
    }
}
