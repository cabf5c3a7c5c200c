// A market: its limits, and the minutes that end with it.
ghost use Rattle.std.specs.Prelude.{◌≡◌};
ghost use Rattle.funding.specs.Minute.{within_spread, futures_price};
ghost use Rattle.funding.specs.Market.{two_sided, midpoint, uncrossed, as_minute, is_valid, market_holds, minute_market_holds};

use crate::Terms;
use prices::none_or_ticked;

// A market, or one side of it. A side that doesn't stand is 0 and no Option: the bytes of a quote and document 01's limits have that
// number, and an Option would be made and taken apart at each of them.
#[derive(Clone, Copy, Default, PartialEq, Eq)]
pub struct Market {
    pub bid: u32,
    pub offer: u32,
}

impl Market {
    pub fn is_two_sided(self) -> bool
        ensures { result ≡ two_sided self }
    {
        (self.bid != 0) & (self.offer != 0)
    }

    pub fn midpoint(self) -> u32
        ensures { result ≡ midpoint self }
    {
        self.bid.midpoint(self.offer)
    }

    pub fn is_uncrossed(self) -> bool
        ensures { result ≡ uncrossed self }
    {
        !self.is_two_sided() | (self.bid < self.offer)
    }

    // This market where both its sides stand, else the other.
    pub fn as_minute(self, otherwise: Market) -> Market
        ensures { result ≡ as_minute self otherwise }
    {
        if self.is_two_sided() { self } else { otherwise }
    }

    // The spread test. Sides that cross, which any two numbers may, differ by nothing.
    pub fn is_within_spread(self, terms: Terms) -> bool
        ensures { result ≡ within_spread terms self.bid self.offer }
    {
        let spread = u64::from(self.offer.saturating_sub(self.bid));
        let sum = u64::from(self.bid) + u64::from(self.offer);
        20_000 * spread <= u64::from(terms.spread) * sum
    }

    // The futures price F of a minute that ends with this market, after this last trade. It is 0 for none, as a side is.
    pub fn futures_price(self, last: u32) -> u32
        ensures { result ≡ futures_price self.bid self.offer last }
    {
        let stands = (last != 0) & (self.bid..=self.offer).contains(&last);
        std::hint::select_unpredictable(stands, last, self.midpoint())
    }

    // Whether the minute that ends with this market and this index is valid. An index is 0 for none, as a side is.
    pub fn is_valid(self, halted: bool, index: u32, terms: Terms) -> bool
        ensures { result ≡ is_valid terms halted self index }
    {
        if halted {
            return false;
        }
        if !self.is_two_sided() {
            return false;
        }
        if index == 0 {
            return false;
        }
        self.is_within_spread(terms)
    }

    pub fn holds(self) -> bool
        ensures { result ≡ market_holds self }
    {
        none_or_ticked(self.bid) & none_or_ticked(self.offer) & self.is_uncrossed()
    }

    pub fn holds_minute(self) -> bool
        ensures { result ≡ minute_market_holds self }
    {
        self.holds() & (self.is_two_sided() | (self == Market::default()))
    }
}
