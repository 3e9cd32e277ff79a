//! Lookup of a key in a list that is in order.
ghost use Rattle.std.specs.Prelude.{◌≡◌};
ghost use Rattle.osm_base.specs.Key.{lists_key, IsRising};

use crate::keys::Key;

/// Whether a key is in a list that is in order, found by halving.
pub fn is_listed(sorted: &[Key], key: Key) -> bool
    requires { IsRising sorted.now }
    ensures { result ≡ lists_key sorted.now key }
{
    let mut low = 0;
    let mut high = sorted.len();
    'halving: while low < high {
        let middle = low + (high - low) / 2;
        if sorted[middle].is_before(key) {
            low = middle + 1;
        } else {
            high = middle;
        }
    }
    low < sorted.len() && sorted[low].is(key)
}
