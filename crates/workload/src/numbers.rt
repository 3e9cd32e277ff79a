//! The numbers of a load.
ghost use Rattle.std.specs.Prelude.{◌≡◌};
ghost use Rattle.workload.specs.Numbers.{next_number, lat7_of, lon7_of};

/// The factor of the linear congruential generator MMIX (D. Knuth), and what it adds.
const FACTOR: u64 = 6_364_136_223_846_793_005;

const ADDEND: u64 = 1_442_695_040_888_963_407;

pub fn next_number(number: u64) -> u64
    ensures { result ≡ next_number number }
{
    number.wrapping_mul(FACTOR).wrapping_add(ADDEND)
}

pub fn lat7_of(number: u64) -> u32
    ensures { result ≡ lat7_of number }
{
    480_000_000 + ((number >> 40) % 1_000_000) as u32
}

pub fn lon7_of(number: u64) -> u32
    ensures { result ≡ lon7_of number }
{
    110_000_000 + ((number >> 20) % 1_000_000) as u32
}
