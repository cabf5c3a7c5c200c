// What each call makes of the figures where it looks at no account. A refused call leaves them as they are.
#![tactic(auto, unfolding(crate::specs::Effects::figures_after, crate::specs::Effects::fixing_of))]

ghost use Rattle.std.specs.Prelude.{◌≡◌, true, ◌≤◌};
ghost use Rattle.refusals.specs.Refusals.{most_days};
ghost use Rattle.day_effects.specs.Inner.{RoomForTrade};
ghost use Rattle.figures.specs.Figures.{tenth, outcome_of, figures_hold};
ghost use Rattle.figures.specs.Fixing.{Fixable};
ghost use Rattle.day_effects.specs.Effects.{with_fixed, with_length};
ghost use Rattle.outcomes.specs.Effects.{with_day, with_begun_day, fixed_at, figures_after};
ghost use Rattle.outcomes.specs.Outcome.{outcome};

use calls::{Call, FINAL_DAY, TimedQuote, Trade};
use day::{Day, Fixed, Markets};
use expiry::Month;
use figures::{Figures, Fixing, Found, Outcome};
use funding::market::Market;
use settlement::Previous;

// The date has begun with this call.
fn begin(figures: &mut Figures)
    ensures { figures.new ≡ with_begun_day figures.old figures.old.halted figures.old.day }
{
    figures.day.session.begun = true;
}

pub fn quote(figures: &mut Figures, market: Market) -> Outcome
    ensures { outcome_of result figures.new ≡ outcome figures.old (Call.Quote market) }
{
    refusals::quote(figures.is_over(), figures.halted, market)?;
    day_effects::quoted(&mut figures.day, market);
    begin(figures);
    Ok(Found::Nothing)
}

// Figures within their limits are required, so that the time has room.
pub fn timed_quote(figures: &mut Figures, quote: TimedQuote) -> Outcome
    requires { figures_hold figures.old ≡ true }
    ensures { outcome_of result figures.new ≡ outcome figures.old (Call.TimedQuote quote) }
{
    refusals::timed_quote(
        figures.is_over(),
        figures.halted,
        figures.day.timing.latest,
        quote,
    )?;
    day_effects::timed_quoted(&mut figures.day, quote);
    begin(figures);
    Ok(Found::Nothing)
}

// An accepted trade. Room for it in n and in the gross is required.
pub fn traded(figures: &mut Figures, t: Trade)
    requires { RoomForTrade figures.old.day.trades.settling t }
    ensures { figures.new ≡ figures_after figures.old (Call.Trade t) }
{
    day_effects::traded(&mut figures.day, t);
    begin(figures);
}

pub fn halt(figures: &mut Figures) -> Outcome
    ensures { outcome_of result figures.new ≡ outcome figures.old Call.Halt }
{
    refusals::halt(figures.is_over(), figures.halted)?;
    figures.halted = true;
    figures.day.markets = Markets::none();
    begin(figures);
    Ok(Found::Nothing)
}

pub fn resume(figures: &mut Figures) -> Outcome
    ensures { outcome_of result figures.new ≡ outcome figures.old Call.Resume }
{
    refusals::resume(figures.is_over(), figures.halted)?;
    figures.halted = false;
    begin(figures);
    Ok(Found::Nothing)
}

// The day has so many minutes, and the date has begun.
fn set_length(figures: &mut Figures, minutes: u32)
    ensures { figures.new ≡ with_begun_day figures.old figures.old.halted (with_length figures.old.day minutes) }
{
    figures.day.session.length = minutes;
    begin(figures);
}

pub fn day_length(figures: &mut Figures, minutes: u32) -> Outcome
    ensures { outcome_of result figures.new ≡ outcome figures.old (Call.DayLength minutes) }
{
    refusals::day_length(figures.day.session.begun | figures.is_over(), minutes)?;
    set_length(figures, minutes);
    Ok(Found::Nothing)
}

// Figures within their limits are required, so that the weighted sum fits.
pub fn minute_end(figures: &mut Figures, index: u32) -> Outcome
    requires { figures_hold figures.old ≡ true }
    ensures { outcome_of result figures.new ≡ outcome figures.old (Call.MinuteEnd index) }
{
    let day = figures.day;
    refusals::minute_end(day.forbids_minute_end() | figures.is_over(), index)?;
    let valid = day
        .markets
        .minute
        .is_valid(figures.halted, index, figures.terms());
    day_effects::minute_ended(&mut figures.day, valid, index);
    begin(figures);
    Ok(Found::Nothing)
}

// The day is fixed by what a fix found.
fn set_fixed(figures: &mut Figures, fixing: Fixing)
    ensures { figures.new ≡ with_day figures.old figures.old.halted (with_fixed figures.old.day (fixed_at fixing)) }
{
    let Fixing { price, amount, .. } = fixing;
    figures.day.fixed = Fixed { price, amount };
}

pub fn fix(figures: &mut Figures, set: u32) -> Outcome
    requires { Fixable figures.old }
    ensures { outcome_of result figures.new ≡ outcome figures.old (Call.Fix set) }
{
    let day = figures.day;
    let fixing = figures.fixing(set);
    refusals::fix(day.forbids_fix() | figures.is_over(), set, fixing.price)?;
    set_fixed(figures, fixing);
    Ok(Found::Fixing(fixing))
}

// The date becomes the contract's last one.
pub fn final_date(figures: &mut Figures, month: Month) -> Outcome
    ensures { outcome_of result figures.new ≡ outcome figures.old (Call.FinalDate month) }
{
    refusals::final_date(figures.day.session.begun | figures.is_over(), month)?;
    set_length(figures, FINAL_DAY);
    Ok(Found::Friday(month.last_friday()))
}

// A size within its limits is required, so that the amount fits.
pub fn final_fix(figures: &mut Figures, value: u32) -> Outcome
    requires { figures.old.size ≤ tenth }
    ensures { outcome_of result figures.new ≡ outcome figures.old (Call.FinalFix value) }
{
    let day = figures.day;
    refusals::final_fix(day.forbids_final_fix() | figures.is_over(), value)?;
    let fixing = figures.final_fixing(value);
    set_fixed(figures, fixing);
    Ok(Found::Fixing(fixing))
}

// An accepted close. Here and in the columns' limits closed days within their own are required: a book may have any number of them
// until its limits are looked at.
pub fn closed_day(figures: &mut Figures)
    requires { figures.old.closed ≤ most_days }
    ensures { figures.new ≡ figures_after figures.old Call.Close }
{
    figures.previous = Previous {
        price: figures.day.fixed.price,
        index: figures.day.minutes.index,
    };
    figures.closed += 1;
    figures.expired = figures.day.is_final_date();
    figures.day = Day::empty();
}
