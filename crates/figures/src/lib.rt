// The figures of a book: all that it holds beside its account columns.
#![tactic(auto)]

ghost use Rattle.std.specs.Prelude.{◌≡◌, ◌≤◌};
ghost use Rattle.prices.specs.Price.{largest_price};
ghost use Rattle.figures.specs.Figures.{terms_on, tie_on, tenth, fresh_figures, is_over, fixing_found, friday_found, figures_hold};
ghost use Rattle.figures.specs.Fixing.{fixing_at, ordinary_fixing, final_fixing, Fixable};

use day::Day;
use funding::Terms;
use integers::Tie;
use prices::none_or_price;
use product::Product;
use refusals::{MOST_DAYS, Refusal};
use settlement::Previous;

pub mod product;

// All that a book holds beside its account columns. Here and in the structs of `day` the order of the fields was chosen by timing
// runs (`benchmarks/field-orders`).
#[derive(Clone, Copy)]
pub struct Figures {
    pub size: u32,
    // whether the contract has ended, which the close of a final date sets for good
    pub expired: bool,
    // closed days
    pub closed: u32,
    pub day: Day,
    pub previous: Previous,
    pub halted: bool,
}

// What a fix finds and prints.
#[derive(Clone, Copy, Debug, PartialEq, Eq)]
pub struct Fixing {
    // the settlement price, 0 where refusal 9 comes
    pub price: u32,
    // the clamped rate
    pub rate: i64,
    pub amount: i64,
    // valid count k
    pub valid: u32,
}

// What an accepted call finds, and prints.
#[derive(Clone, Copy, Debug, PartialEq, Eq)]
pub enum Found {
    Nothing,
    Fixing(Fixing),
    // the day of the month of the last Friday of a contract's month
    Friday(u8),
}

// What a call comes to: a refusal, or what it found.
pub type Outcome = Result<Found, Refusal>;

impl Found {
    // What a fix found.
    pub fn fixing(self) -> Option<Fixing>
        ensures { result ≡ fixing_found self }
    {
        match self {
            Found::Fixing(fixing) => Some(fixing),
            _ => None,
        }
    }

    // The day of the month that a final date prints.
    pub fn friday(self) -> Option<u8>
        ensures { result ≡ friday_found self }
    {
        match self {
            Found::Friday(day) => Some(day),
            _ => None,
        }
    }
}

impl Figures {
    // The figures of a fresh book of this size.
    pub fn fresh(size: u32) -> Self
        ensures { result ≡ fresh_figures size }
    {
        Self {
            size,
            closed: 0,
            halted: false,
            expired: false,
            previous: Previous::default(),
            day: Day::empty(),
        }
    }

    // Whether no call is allowed any more: all the closed days that a book may have are there, or the contract has ended.
    pub fn is_over(self) -> bool
        ensures { result ≡ is_over self }
    {
        (MOST_DAYS <= self.closed) | self.expired
    }

    // The terms and the rule for ties in force on the open day.
    pub fn terms(self) -> Terms
        ensures { result ≡ terms_on self }
    {
        Product::terms()
    }

    fn tie(self) -> Tie
        ensures { result ≡ tie_on self }
    {
        Tie::Even
    }

    // Whether the figures are within their limits.
    pub fn holds(self) -> bool
        ensures { result ≡ figures_hold self }
    {
        Product::is_size(self.size)
            & (self.closed <= MOST_DAYS)
            & none_or_price(self.previous.price)
            & none_or_price(self.previous.index)
            & self.day.holds()
    }

    // What a fix at this settlement price finds. A size within its limits is required, so that the amount fits.
    fn fixing_at(self, price: u32) -> Fixing
        requires { self.size ≤ tenth }
        ensures { result ≡ fixing_at self price }
    {
        let minutes = self.day.minutes;
        let rate = settlement::rate(minutes.valid, minutes.weighted);
        let clamped = settlement::clamp(rate, self.terms());
        Fixing {
            price,
            rate: clamped,
            amount: settlement::amount(clamped, price, self.size, self.tie()),
            valid: minutes.valid,
        }
    }

    // What a fix with this set price, 0 for none as in its call, finds. A gross and a sum of midpoints within their limits are
    // required too.
    pub fn fixing(self, set: u32) -> Fixing
        requires { Fixable self }
        ensures { result ≡ ordinary_fixing self set }
    {
        let price = settlement::settlement_price(
            set,
            self.day.trades.settling,
            self.day.timing.midpoints,
            self.day.minutes.index,
            self.previous,
        );
        self.fixing_at(price)
    }

    // What the fix of a final date with this hourly index value finds. A value that is no larger than a price is required.
    pub fn final_fixing(self, value: u32) -> Fixing
        requires { (self.size ≤ tenth) × (value ≤ largest_price) }
        ensures { result ≡ final_fixing self value }
    {
        self.fixing_at(settlement::dime_price(value))
    }
}
