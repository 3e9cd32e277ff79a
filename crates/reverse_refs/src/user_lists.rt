//! The users of an element, borrowed from where they stand.
ghost use Rattle.std.specs.Prelude.{◌≡◌, [], ◌∷◌};
ghost use Rattle.osm_base.specs.Key.{IsRising};

use osm_base::Key;
use std::marker::Model;
use std::slice;

/// What is lent: one key by value, since its parts stand apart where it is kept, or a list.
#[derive(Drop)]
enum Lent<'a> {
    One(Key),
    Listed(&'a [Key]),
}

/// Keys in order, each once, borrowed from what has them.
#[derive(Drop)]
pub struct UserList<'a> {
    lent: Lent<'a>,
}

impl<'a> Model for UserList<'a> {
    ghost use Rattle.std.specs.Prelude.{List};
    ghost use Rattle.osm_base.specs.Key.{IsRising};
    ghost use Rattle.osm_base.specs.declared.keys.Key.{Key};
    ghost use Rattle.reverse_refs.specs.Lent.{keys_lent};

    ghost Value = { List Key };

    ghost view = { λ l. keys_lent l.lent };

    ghost invariant = { λ l. IsRising (keys_lent l.lent) };
}

impl<'a> UserList<'a> {
    /// No keys.
    pub(crate) fn none() -> UserList<'a>
        ensures keys { result ≡ [] }
        ensures rising { IsRising result }
    {
        UserList {
            lent: Lent::Listed(&[]),
        }
    }

    /// One key.
    pub(crate) fn one(key: Key) -> UserList<'a>
        ensures keys { result ≡ key ∷ [] }
        ensures rising { IsRising result }
    {
        UserList {
            lent: Lent::One(key),
        }
    }

    /// The keys of a list.
    pub(crate) fn listed(keys: &'a [Key]) -> UserList<'a>
        requires { IsRising keys.now }
        ensures keys { result ≡ keys.now }
        ensures rising { IsRising result }
    {
        UserList {
            lent: Lent::Listed(keys),
        }
    }

    /// The keys, in order.
    pub fn items(&self) -> &[Key]
        ensures keys { result.now ≡ self.now }
        ensures rising { IsRising result.now }
    {
        match &self.lent {
            Lent::One(key) => slice::from_ref(key),
            Lent::Listed(keys) => *keys,
        }
    }
}
