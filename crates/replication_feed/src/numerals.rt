//! The number of a piece, as its text has it: digits without a zero before them.
ghost use Rattle.std.specs.Prelude.{◌≡◌, ℕ, ◌-◌, ◌≤◌, ◌<◌, ◌^◌, ◌∷◌, [], ◌++◌, List, length, true, false, decimal, IfSome, Some, slice_index};
ghost use Rattle.std.specs.List.{list_all};
ghost use Rattle.std.specs.Char.{is_ascii_digit};

use itoa::Buffer;

/// The number whose digits these are, from 1 on.
pub(crate) fn read_number(digits: &[u8]) -> Option<u64>
    ensures some { IfSome result (λ n. (1 ≤ n) × (digits.now ≡ decimal n)) }
    ensures all { (n : ℕ) → 1 ≤ n → n < 2 ^ 64 → digits.now ≡ decimal n → result ≡ Some n }
{
    let text = str::from_utf8(digits).ok()?;
    let number = text.parse::<u64>().ok()?;
    if number > 0 && is_written(number, digits) {
        Some(number)
    } else {
        None
    }
}

/// Whether these are the digits of the number. Others may have its value, with a zero or a sign
/// before them.
fn is_written(number: u64, digits: &[u8]) -> bool
    ensures yes { result ≡ true → digits.now ≡ decimal number }
    ensures no { result ≡ false → digits.now ≡ decimal number → ⊥ }
{
    let mut buffer = Buffer::new();
    buffer.format(number).as_bytes() == digits
}

/// What stands before the digits at the end of a text, and these digits.
pub(crate) fn split_digits(text: &[u8]) -> (&[u8], &[u8])
    ensures whole { text.now ≡ result.0.now ++ result.1.now }
    ensures last { (front digits : List ℕ) (byte : ℕ) → is_ascii_digit byte ≡ false → list_all is_ascii_digit digits ≡ true
        → text.now ≡ (front ++ byte ∷ []) ++ digits → (result.0.now ≡ front ++ byte ∷ []) × (result.1.now ≡ digits) }
{
    text.split_at(digits_start(text))
}

/// Where the digits at the end of a text begin.
fn digits_start(text: &[u8]) -> usize
    ensures within { result ≤ length text.now }
    ensures digits { (k : ℕ) → result ≤ k → k < length text.now → is_ascii_digit (slice_index text.now k) ≡ true }
    ensures before { 1 ≤ result → is_ascii_digit (slice_index text.now (result - 1)) ≡ false }
{
    let mut start = text.len();
    while start > 0 && text[start - 1].is_ascii_digit() {
        start -= 1;
    }
    start
}
