// Prices, in cents.
#![tactic(auto)]

ghost use Rattle.std.specs.Prelude.{◌≡◌};
ghost use Rattle.prices.specs.Price.{is_price, is_ticked, none_or_price, none_or_ticked, is_price_sum};

pub const LEAST_PRICE: u32 = 5_000;

pub const LARGEST_PRICE: u32 = 50_000_000;

pub const TICK: u32 = 10;

pub fn is_price(p: u32) -> bool
    ensures { result ≡ is_price p }
{
    (LEAST_PRICE..=LARGEST_PRICE).contains(&p)
}

pub fn is_ticked(p: u32) -> bool
    ensures { result ≡ is_ticked p }
{
    is_price(p) & (p % TICK == 0)
}

// Here and below, one function that is given the test would say no more than these two.
pub fn none_or_price(p: u32) -> bool
    ensures { result ≡ none_or_price p }
{
    (p == 0) | is_price(p)
}

pub fn none_or_ticked(p: u32) -> bool
    ensures { result ≡ none_or_ticked p }
{
    (p == 0) | is_ticked(p)
}

// Whether so many prices can add up to this sum.
pub fn is_price_sum(count: u32, sum: u64) -> bool
    ensures { result ≡ is_price_sum count sum }
{
    let n = u64::from(count);
    (u64::from(LEAST_PRICE) * n..=u64::from(LARGEST_PRICE) * n).contains(&sum)
}
