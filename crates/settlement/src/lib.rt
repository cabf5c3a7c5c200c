// The fix of the exchange's funding methodology (document 001): rate, clamp, amount and settlement price, in whole numbers.
// A price is in cents, a rate in nano (10^-9), an amount in whole cents per contract, a size in hundredths of a coin. A price or an
// index of 0 is none and no Option, as a market's sides are. `as` turns what is shown to fit: `From` doesn't narrow, and `TryFrom`
// would have a branch that never comes.
#![tactic(auto)]

ghost use Rattle.std.specs.Prelude.{◌≡◌, ◌*◌, ◌<◌, ◌≤◌, ◌^◌, nat_abs};
ghost use Rattle.integers.specs.Rounding.{nearest};
ghost use Rattle.integers.specs.declared.Tie.TheVariants.{Even};
ghost use Rattle.prices.specs.Price.{largest_price};
ghost use Rattle.settlement.specs.Fixing.{rate_of, clamped_to, amount_of, index_price, settlement_price, dime_price};

use funding::Terms;
use integers::Tie;
use prices::is_price;

// A rate in nano times a size in hundredths of a coin, as a number.
const AMOUNT_SCALE: i64 = 100_000_000_000;

// Ten cents, to which the settlement price of a final date is rounded.
const DIME: u32 = 10;

// The kind 0 trades of a day's last minute: document 01's n, their contracts, and gross, quantity × price added up.
#[derive(Clone, Copy, Default)]
pub struct FinalMinute {
    pub contracts: u32,
    pub gross: u64,
}

// The midpoints of the markets of a day's last minute: the milliseconds that these stood, document 02's total, and
// midpoint × milliseconds added up, its sum.
#[derive(Clone, Copy, Default)]
pub struct Midpoints {
    pub total: u32,
    pub sum: u64,
}

// The settlement price and the index of the closed day before, 0 without one.
#[derive(Clone, Copy, Default)]
pub struct Previous {
    pub price: u32,
    pub index: u32,
}

// The rate of `count` valid minutes with this weighted sum.
pub fn rate(count: u32, sum: i64) -> i64
    ensures { result ≡ rate_of count sum }
{
    if count == 0 {
        return 0;
    }
    let k = u64::from(count);
    integers::half_even(sum, (k * (k + 1) / 2) as i64)
}

// The rate within the clamp.
pub fn clamp(rate: i64, terms: Terms) -> i64
    ensures { result ≡ clamped_to terms rate }
{
    let least = -i64::from(terms.below);
    let largest = i64::from(terms.above);
    rate.clamp(least, largest)
}

// The amount of one contract. The product has to fit 64 bits, and at the rate 0 price × size too: at the largest clamp of
// 10,000,000 nano, the largest price and size 10 it is below 10^16.
pub fn amount(rate: i64, price: u32, size: u32, tie: Tie) -> i64
    requires { (nat_abs rate * (price * size) < 2 ^ 63) × (price * size < 2 ^ 63) }
    ensures { result ≡ amount_of tie rate price size }
{
    let scale = i64::from(price) * i64::from(size);
    integers::rounded(-(rate * scale), AMOUNT_SCALE, tie)
}

// Day's index + previous price − previous index where it is a price, or 0.
fn index_price(index: u32, previous: Previous) -> u32
    ensures { result ≡ index_price index previous }
{
    let given = (index != 0) & (previous.price != 0) & (previous.index != 0);
    let sum = u64::from(index) + u64::from(previous.price);
    match u32::try_from(sum.saturating_sub(u64::from(previous.index))) {
        Ok(price) if given & is_price(price) => price,
        _ => 0,
    }
}

// The average of so many prices, of contracts or of milliseconds, that add up to this sum. The sum has to be at most what it is at the
// largest price: the average is then no larger than a price.
fn average(sum: u64, count: u32) -> u32
    requires { (0 < count) × (sum ≤ largest_price * count) }
    ensures { result ≡ nearest Even sum count }
{
    integers::half_even(sum as i64, i64::from(count)) as u32
}

// The settlement price by its four rules in order, or 0 where none gives one: no Option, since an average below a half is 0 too,
// and refusal 9 is of both.
pub fn settlement_price(
    set: u32,
    traded: FinalMinute,
    midpoints: Midpoints,
    index: u32,
    previous: Previous,
) -> u32
    requires { (traded.gross ≤ largest_price * traded.contracts) × (midpoints.sum ≤ largest_price * midpoints.total) }
    ensures { result ≡ settlement_price set traded midpoints index previous }
{
    if set != 0 {
        return set;
    }
    if traded.contracts != 0 {
        return average(traded.gross, traded.contracts);
    }
    if midpoints.total != 0 {
        return average(midpoints.sum, midpoints.total);
    }
    index_price(index, previous)
}

// The settlement price of a final date, by its hourly index value. A value that is no larger than a price is required, so that its dimes fit.
pub fn dime_price(value: u32) -> u32
    requires { value ≤ largest_price }
    ensures { result ≡ dime_price value }
{
    // An average is a quotient, half-even, and so are the dimes of a value.
    average(u64::from(value), DIME) * DIME
}
