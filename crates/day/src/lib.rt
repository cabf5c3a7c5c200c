// One trade date of a contract by its parts: a new one, its limits, and what it forbids.
#![tactic(auto)]

ghost use Rattle.std.specs.Prelude.{◌≡◌};
ghost use Rattle.day.specs.Day.{day_length, is_final_date, no_markets, empty_day, in_last_minute, forbids_minute_end, forbids_any_fix, forbids_fix, forbids_final_fix};
ghost use Rattle.day.specs.Limits.{markets_hold, minutes_hold, final_holds, most_total, timing_holds, day_holds};

use calls::{FINAL_DAY, FULL_DAY, MINUTE_LENGTH, MOST_TIME, is_length};
use funding::market::Market;
use integers::is_within;
use prices::{is_price_sum, none_or_price};
use settlement::{FinalMinute, Midpoints};

pub const MOST_AMOUNT: u64 = 10_000;

// What minute ends set.
#[derive(Clone, Copy, Default)]
pub struct Minutes {
    // ended minutes
    pub ended: u32,
    // valid count k, and weighted sum S
    pub valid: u32,
    // the u of the last minute
    pub index: u32,
    pub weighted: i64,
}

// What quotes and halts set: the standing market and the minute's market.
#[derive(Clone, Copy, Default)]
pub struct Markets {
    pub minute: Market,
    pub standing: Market,
}

// What trades set.
#[derive(Clone, Copy, Default)]
pub struct Trades {
    // n and gross
    pub settling: FinalMinute,
    // the last trade
    pub last: u32,
}

// What a fix sets. A price of 0 means that the day isn't fixed, as `Day` says.
#[derive(Clone, Copy, Default)]
pub struct Fixed {
    pub price: u32,
    pub amount: i64,
}

// What the first call of a date sets.
#[derive(Clone, Copy)]
pub struct Session {
    // whether the date has accepted a quote, trade, halt, resume, minute end or length of day, or was made final
    pub begun: bool,
    // the minutes of the day, by which a final date is known
    pub length: u32,
}

// The latest time, and the midpoints of the last minute so far.
#[derive(Clone, Copy, Default)]
pub struct Timing {
    pub midpoints: Midpoints,
    // given in the minute, in milliseconds
    pub latest: u32,
}

// The day's figures, which a close empties. A price, an index or a side is 0 for none and no Option, as a market's sides are.
#[derive(Clone, Copy)]
pub struct Day {
    pub trades: Trades,
    pub minutes: Minutes,
    pub timing: Timing,
    pub session: Session,
    pub fixed: Fixed,
    pub markets: Markets,
}

impl Markets {
    pub fn none() -> Self
        ensures { result ≡ no_markets }
    {
        Self::default()
    }

    // Whether both are within their limits.
    pub(crate) fn holds(self) -> bool
        ensures { result ≡ markets_hold self }
    {
        self.standing.holds() & self.minute.holds_minute()
    }
}

impl Trades {
    // Whether those of the final minute are within their limits, where the v of all accounts add up to so much.
    pub fn final_holds(self, v: u64) -> bool
        ensures { result ≡ final_holds self.settling v }
    {
        let FinalMinute { contracts, gross } = self.settling;
        (2 * u64::from(contracts) <= v) & is_price_sum(contracts, gross)
    }
}

impl Day {
    pub fn empty() -> Self
        ensures { result ≡ empty_day }
    {
        Self {
            fixed: Fixed::default(),
            trades: Trades::default(),
            markets: Markets::none(),
            session: Session {
                length: FULL_DAY,
                begun: false,
            },
            minutes: Minutes::default(),
            timing: Timing::default(),
        }
    }

    pub fn is_in_last_minute(self) -> bool
        ensures { result ≡ in_last_minute (day_length self) self.minutes.ended }
    {
        u64::from(self.minutes.ended) + 1 == u64::from(self.session.length)
    }

    pub fn is_final_date(self) -> bool
        ensures { result ≡ is_final_date self }
    {
        self.session.length == FINAL_DAY
    }

    fn minutes_hold(self) -> bool
        ensures { result ≡ minutes_hold self }
    {
        let minutes = self.minutes;
        let length = self.session.length;
        if is_length(length) & (minutes.ended <= length) & (minutes.valid <= minutes.ended) {
            is_within(minutes.weighted, funding::weighted_limit(minutes.valid))
        } else {
            false
        }
    }

    // The most that the total of the midpoints may be.
    fn most_total(self) -> u32
        ensures { result ≡ most_total self }
    {
        if u64::from(self.minutes.ended) + 1 < u64::from(self.session.length) {
            return 0;
        }
        if self.is_in_last_minute() {
            return self.timing.latest;
        }
        MINUTE_LENGTH
    }

    fn timing_holds(self) -> bool
        ensures { result ≡ timing_holds self }
    {
        let Midpoints { total, sum } = self.timing.midpoints;
        (self.timing.latest <= MOST_TIME) & (total <= self.most_total()) & is_price_sum(total, sum)
    }

    // Whether the day is within its limits.
    #[tactic(auto, unfolding(crate::specs::Limits::day_holds))]
    pub fn holds(self) -> bool
        ensures { result ≡ day_holds self }
    {
        let prices = none_or_price(self.trades.last)
            & none_or_price(self.minutes.index)
            & none_or_price(self.fixed.price)
            & is_within(self.fixed.amount, MOST_AMOUNT);
        let fix = (self.fixed.price == 0) | (self.minutes.ended == self.session.length);
        let start = self.session.begun
            | ((self.session.length == FULL_DAY) & (self.minutes.ended == 0));
        self.minutes_hold() & self.markets.holds() & prices & fix & start & self.timing_holds()
    }

    // 3: whether a minute end, or a fix of either kind, comes at a time that the day doesn't allow.
    pub fn forbids_minute_end(self) -> bool
        ensures { result ≡ forbids_minute_end self }
    {
        (self.session.length <= self.minutes.ended) | (self.fixed.price != 0)
    }

    fn forbids_any_fix(self) -> bool
        ensures { result ≡ forbids_any_fix self }
    {
        (self.minutes.ended < self.session.length) | (self.fixed.price != 0)
    }

    // And whether it is a fix of the other kind.
    pub fn forbids_fix(self) -> bool
        ensures { result ≡ forbids_fix self }
    {
        self.is_final_date() | self.forbids_any_fix()
    }

    pub fn forbids_final_fix(self) -> bool
        ensures { result ≡ forbids_final_fix self }
    {
        !self.is_final_date() | self.forbids_any_fix()
    }
}
