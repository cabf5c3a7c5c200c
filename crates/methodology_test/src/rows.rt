// The rows of the table: each is worked out by the library's crates and printed with what it is worked out from.
ghost use Rattle.std.specs.Prelude.{◌≡◌, ◌<◌, ◌≤◌, nat_abs};
ghost use Rattle.prices.specs.Price.{largest_price};
ghost use Rattle.funding.specs.Terms.{clamp};

use figures::product::Product;
use integers::Tie;
use methodology::sample::Sample;
use std::fmt;
use std::fmt::{Display, Formatter};

// A minute's spread, rounded to some places.
#[derive(Clone, Copy)]
pub struct Spread {
    sample: Sample,
    places: u32,
    ghost bid_present: { 0 < sample.market.bid },
    ghost few_places: { places ≤ 7 },
}

impl Spread {
    pub fn new(sample: Sample, places: u32) -> Self
        requires { (0 < sample.market.bid) × (places ≤ 7) }
        ensures { (result.sample ≡ sample) × (result.places ≡ places) }
    {
        Spread { sample, places }
    }
}

// The minute; whether it is valid, its futures price, for which the table has 0 where it isn't, its spread, and the places.
impl Display for Spread {
    fn fmt<W: fmt::Write>(&self, f: &mut Formatter<W>) -> fmt::Result {
        let sample = self.sample;
        let places = self.places;
        let price = sample.futures_price();
        let is_valid = u8::from(price.is_some());
        let futures = price.unwrap_or(0);
        let spread = sample.normalized_spread(10u32.pow(places));
        write!(f, "spread {sample} {is_valid} {futures} {spread} {places}")
    }
}

// The basis of a futures price against an index.
#[derive(Clone, Copy)]
pub struct Basis {
    futures: u32,
    index: u32,
    ghost index_present: { 0 < index },
}

impl Basis {
    pub fn new(futures: u32, index: u32) -> Self
        requires { 0 < index }
        ensures { (result.futures ≡ futures) × (result.index ≡ index) }
    {
        Basis { futures, index }
    }
}

// Futures price and index; basis, and the basis in millionths, as document 001 prints it.
impl Display for Basis {
    fn fmt<W: fmt::Write>(&self, f: &mut Formatter<W>) -> fmt::Result {
        let nano = funding::basis(self.futures, self.index);
        let micro = integers::half_even(nano, 1_000);
        write!(f, "basis {} {} {nano} {micro}", self.futures, self.index)
    }
}

// A minute with the weight that it has where it is valid.
#[derive(Clone, Copy)]
pub struct WeightedMinute {
    sample: Sample,
    weight: u32,
    ghost index_present: { 0 < sample.index },
}

impl WeightedMinute {
    pub fn new(sample: Sample, weight: u32) -> Self
        requires { 0 < sample.index }
        ensures { (result.sample ≡ sample) × (result.weight ≡ weight) }
    {
        WeightedMinute { sample, weight }
    }
}

// The minute; its weight and basis, both 0 where it is not valid.
impl Display for WeightedMinute {
    fn fmt<W: fmt::Write>(&self, f: &mut Formatter<W>) -> fmt::Result {
        let sample = self.sample;
        match sample.futures_price() {
            Some(futures) => {
                let basis = funding::basis(futures, sample.index);
                write!(f, "minute {sample} {} {basis}", self.weight)
            }
            None => write!(f, "minute {sample} 0 0"),
        }
    }
}

// A rate before the clamp.
#[derive(Clone, Copy)]
pub struct Clamp(pub i64);

// Rate; the rate within the clamp.
impl Display for Clamp {
    fn fmt<W: fmt::Write>(&self, f: &mut Formatter<W>) -> fmt::Result {
        let rate = self.0;
        let clamped = settlement::clamp(rate, Product::terms());
        write!(f, "clamp {rate} {clamped}")
    }
}

// Contracts of the smaller product at a clamped rate and a price.
#[derive(Clone, Copy)]
pub struct Amount {
    rate: i64,
    price: u32,
    contracts: i64,
    ghost rate_clamped: { nat_abs rate ≤ clamp },
    ghost price_bounded: { price ≤ largest_price },
    ghost few_contracts: { nat_abs contracts ≤ 25 },
}

impl Amount {
    pub fn new(rate: i64, price: u32, contracts: i64) -> Self
        requires { (nat_abs rate ≤ clamp) × (price ≤ largest_price) × (nat_abs contracts ≤ 25) }
        ensures { (result.rate ≡ rate) × (result.price ≡ price) × (result.contracts ≡ contracts) }
    {
        Amount {
            rate,
            price,
            contracts,
        }
    }
}

// Clamped rate, price, size, contracts; the amount of one, and what all of them are paid, or pay where it is negative.
impl Display for Amount {
    fn fmt<W: fmt::Write>(&self, f: &mut Formatter<W>) -> fmt::Result {
        let Amount {
            rate,
            price,
            contracts,
        } = *self;
        let size = Product::hundredth().size;
        let amount = settlement::amount(rate, price, size, Tie::Even);
        let all = contracts * amount;
        write!(f, "amount {rate} {price} {size} {contracts} {amount} {all}")
    }
}
