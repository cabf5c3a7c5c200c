// The minutes of the exchange's funding methodology (document 001): spread test, futures price, basis and weighted sum, in
// whole numbers. A price is in cents, a basis in nano (10^-9).
#![tactic(auto)]

pub mod market;

ghost use Rattle.std.specs.Prelude.{◌≡◌, ◌<◌, ◌≤◌};
ghost use Rattle.funding.specs.Minute.{basis_of, Accrues, accrued, weighted_limit, most_minutes};

// The minutes of the longest day.
pub const MOST_MINUTES: u32 = 1_320;
// What the basis of a minute may come to.
const MOST_BASIS: u64 = 9_999_000_000_000;
// One, as a rate.
const NANO: i64 = 1_000_000_000;

// What the exchange sets for a product: the clamp's size below zero and above it, in nano, and the spread limit in units of
// 0.0001.
#[derive(Clone, Copy)]
pub struct Terms {
    pub below: u32,
    pub above: u32,
    pub spread: u16,
}

// The basis of a futures price against an index. An index of 0 means no sample (market.rt), which has no basis: callers test it
// first.
pub fn basis(futures: u32, index: u32) -> i64
    requires { 0 < index }
    ensures { result ≡ basis_of futures index }
{
    let u = i64::from(index);
    integers::half_even((i64::from(futures) - u) * NANO, u)
}

// The weighted sum with one more valid minute after the first `count`. Sum and count are two numbers here and in settlement: `Minutes`
// of crate day holds them, with the other two that a minute end sets. A 64-bit number holds the sum of a whole day, and no
// more, so the day's limits are required.
pub fn accrue(sum: i64, count: u32, basis: i64) -> i64
    requires { Accrues sum count basis }
    ensures { result ≡ accrued sum count basis }
{
    sum + (i64::from(count) + 1) * basis
}

// The most that the weighted sum of so many valid minutes comes to, in size. The minutes of a day are required, so that it fits.
pub fn weighted_limit(count: u32) -> u64
    requires { count ≤ most_minutes }
    ensures { result ≡ weighted_limit count }
{
    let k = u64::from(count);
    MOST_BASIS * (k * (k + 1) / 2)
}
