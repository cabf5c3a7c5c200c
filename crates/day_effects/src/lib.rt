// What quotes, timed or not, trades and minute ends leave of a day, which they change where it lies.
#![tactic(auto)]

ghost use Rattle.std.specs.Prelude.{◌≡◌, ◌-◌};
ghost use Rattle.day.specs.Day.{with_market};
ghost use Rattle.day_effects.specs.Effects.{with_markets, with_minutes, with_trades, with_timing, stood_until, timing_after_quote, timing_after_minute, weighted_after, minute_ended, next_minute};
ghost use Rattle.day_effects.specs.Effects.{quoted as Effects·quoted};
ghost use Rattle.day_effects.specs.Effects.{traded as Effects·traded};
ghost use Rattle.calls.specs.Time.{minute_length};
ghost use Rattle.day_effects.specs.Inner.{RoomForTrade, RoomForTime, Endable, at_minute_end};

use calls::{Kind, MINUTE_LENGTH, TimedQuote, Trade};
use day::{Day, Markets, Timing};
use funding::market::Market;
use settlement::Midpoints;

fn quoted_markets(markets: Markets, market: Market) -> Markets
    ensures { result ≡ Effects·quoted markets market }
{
    Markets {
        standing: market,
        minute: market.as_minute(markets.minute),
    }
}

fn next_minute(markets: Markets) -> Markets
    ensures { result ≡ next_minute markets }
{
    let mut after = markets;
    after.minute = markets.standing.as_minute(Market::default());
    after
}

pub fn quoted(day: &mut Day, market: Market)
    ensures { day.new ≡ with_markets day.old (Effects·quoted day.old.markets market) }
{
    day.markets = quoted_markets(day.markets, market);
}

// The midpoints with that of the standing market, which has stood up to this time of the last minute.
fn weighed(day: Day, time: u32) -> Midpoints
    requires { RoomForTime day time }
    ensures { result ≡ with_market day.timing.midpoints day.markets.standing (time - day.timing.latest) }
{
    let mut midpoints = day.timing.midpoints;
    if day.markets.standing.is_two_sided() {
        let milliseconds = time - day.timing.latest;
        midpoints.total += milliseconds;
        midpoints.sum += u64::from(day.markets.standing.midpoint()) * u64::from(milliseconds);
    }
    midpoints
}

// The midpoints at this time of the minute, the last one or not.
fn stood_until(day: Day, time: u32) -> Midpoints
    requires { RoomForTime day time }
    ensures { result ≡ stood_until day time }
{
    if !day.is_in_last_minute() {
        return day.timing.midpoints;
    }
    weighed(day, time)
}

// A time that is no earlier than the latest, and room for it, are required.
pub fn timed_quoted(day: &mut Day, quote: TimedQuote)
    requires { RoomForTime day.old quote.time }
    ensures { day.new ≡ with_timing (with_markets day.old (Effects·quoted day.old.markets quote.market)) (timing_after_quote day.old quote.time) }
{
    day.timing = Timing {
        latest: quote.time,
        midpoints: stood_until(*day, quote.time),
    };
    quoted(day, quote.market);
}

// Room for the trade in n and in the gross is required.
pub fn traded(day: &mut Day, t: Trade)
    requires { RoomForTrade day.old.trades.settling t }
    ensures { day.new ≡ with_trades day.old (Effects·traded day.old t) }
{
    if t.kind != Kind::Simple {
        return;
    }
    day.trades.last = t.price;
    if day.is_in_last_minute() {
        day.trades.settling.contracts += t.quantity;
        day.trades.settling.gross += u64::from(t.quantity) * u64::from(t.price);
    }
}

// Here and below the index of a minute stands beside whether the minute is valid: it may be the day's index either way, so that a
// minute end has both, and an Option would be made for one function alone.
// The weighted sum after a minute, valid or not.
fn weighted_after(day: Day, valid: bool, index: u32) -> i64
    requires { Endable day valid index }
    ensures { result ≡ weighted_after day valid index }
{
    if valid {
        let futures = day.markets.minute.futures_price(day.trades.last);
        let basis = funding::basis(futures, index);
        funding::accrue(day.minutes.weighted, day.minutes.valid, basis)
    } else {
        day.minutes.weighted
    }
}

// The day at the end of a minute: of the last one, this is the day's index, and the standing market stood up to its end.
fn at_minute_end(day: &mut Day, index: u32)
    requires { RoomForTime day.old minute_length }
    ensures { day.new ≡ at_minute_end day.old index }
{
    let last = day.is_in_last_minute();
    if last {
        day.minutes.index = index;
        day.timing.midpoints = weighed(*day, MINUTE_LENGTH);
    }
}

pub fn minute_ended(day: &mut Day, valid: bool, index: u32)
    requires { Endable day.old valid index }
    ensures { day.new
        ≡ with_timing (with_minutes (with_markets day.old (next_minute day.old.markets)) (minute_ended day.old valid index)) (timing_after_minute day.old) }
{
    let weighted = weighted_after(*day, valid, index);
    at_minute_end(day, index);
    day.timing.latest = 0;
    day.minutes.weighted = weighted;
    day.minutes.valid += u32::from(valid);
    day.minutes.ended += 1;
    day.markets = next_minute(day.markets);
}
