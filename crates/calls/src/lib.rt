// The calls of a trade date, with the trades, timed quotes, lengths of day and months that they bring.
#![tactic(auto)]

ghost use Rattle.std.specs.Prelude.{◌≡◌};
ghost use Rattle.calls.specs.Trade.{kind_of, trade_outside, is_set_length};
ghost use Rattle.calls.specs.Length.{is_ordinary_length, is_length};

use expiry::Month;
use funding::MOST_MINUTES;
use funding::market::Market;

pub const MOST_QUANTITY: u32 = 100_000;

pub const LEAST_BLOCK: u32 = 250;
// The most trades that a set may have.
pub const MOST_TRADES: usize = 500;
// The lengths of a day, in minutes: a full one, one that ends early before a holiday, and a contract's final date.
pub const FULL_DAY: u32 = MOST_MINUTES;

pub const SHORT_DAY: u32 = 1_140;

pub const FINAL_DAY: u32 = 1_020;
// The milliseconds of a minute, and the latest time that a quote can give.
pub const MINUTE_LENGTH: u32 = 60_000;

pub const MOST_TIME: u32 = 59_999;

// The kind of a trade.
#[derive(Clone, Copy, Debug, PartialEq, Eq)]
pub enum Kind {
    Simple,
    // spread against spread
    Spread,
    Block,
    // A number that stands for no kind. It is no Option: a body with such a number is a trade as well, which refusal 5 meets in its
    // place among the refusals.
    Other(u8),
}

impl From<u8> for Kind {
    ghost from_gives = { λ number kind. kind ≡ kind_of number };

    fn from(number: u8) -> Kind {
        match number {
            0 => Kind::Simple,
            1 => Kind::Spread,
            2 => Kind::Block,
            other => Kind::Other(other),
        }
    }
}

// A trade. An account is any number of two bytes, as in a body: refusal 12 meets one that isn't there, in its place among the
// refusals.
#[derive(Clone, Copy)]
pub struct Trade {
    pub buyer: u16,
    pub seller: u16,
    pub kind: Kind,
    pub quantity: u32,
    pub price: u32,
}

// A quote with its time, in milliseconds into the minute.
#[derive(Clone, Copy)]
pub struct TimedQuote {
    pub time: u32,
    pub market: Market,
}

#[derive(Clone, Copy)]
pub enum Call {
    Quote(Market),
    Trade(Trade),
    Halt,
    Resume,
    // The index of the minute, and the set price: 0 for none and no Option, as a market's sides are.
    MinuteEnd(u32),
    Fix(u32),
    Close,
    // the minutes of the day
    DayLength(u32),
    TimedQuote(TimedQuote),
    // the month in which the contract ends: the date is its last
    FinalDate(Month),
    // the hourly index value, by which a final date settles
    FinalFix(u32),
}

// Whether a set may have so many trades.
pub fn is_set_length(trades: usize) -> bool
    ensures { result ≡ is_set_length trades }
{
    (trades != 0) & (trades <= MOST_TRADES)
}

// Whether a length of day may set so many minutes.
pub fn is_ordinary_length(minutes: u32) -> bool
    ensures { result ≡ is_ordinary_length minutes }
{
    (minutes == FULL_DAY) | (minutes == SHORT_DAY)
}

// Whether a day may have so many.
pub fn is_length(minutes: u32) -> bool
    ensures { result ≡ is_length minutes }
{
    is_ordinary_length(minutes) | (minutes == FINAL_DAY)
}

impl Trade {
    // Whether a value other than an account is outside its field.
    pub fn is_outside(self) -> bool
        ensures { result ≡ trade_outside self }
    {
        if (self.quantity == 0) | (MOST_QUANTITY < self.quantity) {
            return true;
        }
        if !prices::is_price(self.price) {
            return true;
        }
        match self.kind {
            Kind::Simple => !prices::is_ticked(self.price),
            Kind::Spread => false,
            Kind::Block => self.quantity < LEAST_BLOCK,
            Kind::Other(_) => true,
        }
    }
}
