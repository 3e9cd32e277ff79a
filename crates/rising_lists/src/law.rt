//! The law that lists of ids in rising order are told by which ids they list.
ghost use Rattle.std.specs.Prelude.{◌≡◌, ◌<◌, ◌≤◌, ℕ, Bool, true, List, filter};
ghost use Rattle.std.specs.List.Sorted.{IsStrictlyIncreasing};
ghost use Rattle.rising_lists.specs.Ids.{lists_id, ids_to};

/// Two lists in rising order with the same ids are the same. So a list that has just the ids which
/// pass a test, where only ids from 1 up to a number pass, is the filter of these by the test.
pub fn rising_ids_are_told()
    ensures same { (ids others : List ℕ) → IsStrictlyIncreasing ids → IsStrictlyIncreasing others
        → ((id : ℕ) → lists_id ids id ≡ lists_id others id) → ids ≡ others }
    ensures passing { (n : ℕ) (p : ℕ → Bool) (ids : List ℕ) → ((id : ℕ) → p id ≡ true → (0 < id) × (id ≤ n))
        → IsStrictlyIncreasing ids → ((id : ℕ) → lists_id ids id ≡ p id) → ids ≡ filter p (ids_to n) }
    ensures listed { (n : ℕ) (p : ℕ → Bool) → ((id : ℕ) → p id ≡ true → (0 < id) × (id ≤ n)) → (id : ℕ)
        → lists_id (filter p (ids_to n)) id ≡ p id }
    ensures rising { (n : ℕ) (p : ℕ → Bool) → IsStrictlyIncreasing (filter p (ids_to n)) }
{}
