// A minute of the examples.
ghost use Rattle.std.specs.Prelude.{◌≡◌, true, ◌≤◌, ◌<◌, ◌+◌, ◌↔◌, ◌++◌, pos, ◌-ℤ◌, ◌*ℤ◌, IsTrue, IsSome, IfSome, Some, codes};
ghost use Rattle.std.specs.Fmt.{decimal};
ghost use Rattle.integers.specs.Rounding.{half_even};
ghost use Rattle.prices.specs.Price.{is_price};
ghost use Rattle.funding.specs.Terms.{standard_terms};
ghost use Rattle.funding.specs.Minute.{within_spread, futures_price};

use figures::product::Product;
use funding::market::Market;
use std::fmt;
use std::fmt::{Display, Formatter};

// The market of a minute, the day's last trade and the index.
#[derive(Clone, Copy)]
pub struct Sample {
    pub market: Market,
    pub last: u32,
    pub index: u32,
}

impl Sample {
    // Four numbers, as a row of the table has them.
    pub fn new(bid: u32, offer: u32, last: u32, index: u32) -> Self
        ensures { result ≡ record { market = record { bid = bid; offer = offer }; last = last; index = index } }
    {
        let market = Market { bid, offer };
        Sample {
            market,
            last,
            index,
        }
    }

    // The futures price of a valid minute, whose market is narrow enough.
    pub fn futures_price(self) -> Option<u32>
        ensures valid { IsSome result ↔ IsTrue (within_spread standard_terms self.market.bid self.market.offer) }
        ensures value { IfSome result (λ price. price ≡ futures_price self.market.bid self.market.offer self.last) }
    {
        if self.market.is_within_spread(Product::terms()) {
            Some(self.market.futures_price(self.last))
        } else {
            None
        }
    }

    // The spread over the midpoint, in units of 1 / scale.
    pub fn normalized_spread(self, scale: u32) -> i64
        requires { (0 < self.market.bid) × (scale ≤ 10000000) }
        ensures { result ≡ half_even ((pos self.market.offer -ℤ pos self.market.bid) *ℤ pos 2 *ℤ pos scale) (self.market.bid + self.market.offer) }
    {
        let bid = i64::from(self.market.bid);
        let offer = i64::from(self.market.offer);
        integers::half_even((offer - bid) * 2 * i64::from(scale), bid + offer)
    }
}

// Bid, offer, last and index.
impl Display for Sample {
    ghost output = { λ s. Some (decimal s.market.bid ++ codes " " ++ decimal s.market.offer ++ codes " " ++ decimal s.last ++ codes " " ++ decimal s.index) };

    fn fmt<W: fmt::Write>(&self, f: &mut Formatter<W>) -> fmt::Result {
        let Market { bid, offer } = self.market;
        write!(f, "{bid} {offer} {} {}", self.last, self.index)
    }
}

// A minute all of whose numbers are prices, so that it can be weighed.
#[derive(Clone, Copy)]
pub struct Priced {
    pub sample: Sample,
    ghost bid_is_price: { is_price sample.market.bid ≡ true },
    ghost offer_is_price: { is_price sample.market.offer ≡ true },
    ghost last_is_price: { is_price sample.last ≡ true },
    ghost index_is_price: { is_price sample.index ≡ true },
}

impl Priced {
    pub fn new(sample: Sample) -> Self
        requires { (is_price sample.market.bid ≡ true) × (is_price sample.market.offer ≡ true)
            × (is_price sample.last ≡ true) × (is_price sample.index ≡ true) }
        ensures { result.sample ≡ sample }
    {
        Priced { sample }
    }
}
