// Which refusal a call or a set of trades meets, by its values and what the book says of it: refusals 3 to 9 and 11 to 14, where its accounts
// give none.
#![tactic(auto)]

ghost use Rattle.std.specs.Prelude.{◌≡◌, false, cond, Ok, Err};
ghost use Rattle.refusals.specs.Refusals.{number_of, sides_outside, timed_quote_outside, refusal_by, first_met};
ghost use Rattle.refusals.specs.Sets.{set_sentences};
ghost use Rattle.refusals.specs.Refusals.{first_sentences as Refusals·first_sentences};
ghost use Rattle.refusals.specs.Refusals.{number as Refusals·number};

use calls::{Call, MOST_TIME, TimedQuote, Trade, is_ordinary_length, is_set_length};
use expiry::Month;
use funding::market::Market;
use prices::{is_price, none_or_price, none_or_ticked};

pub const MOST_DAYS: u32 = 2_600;

// Why a record, a call, an opening or a report is refused, by their numbers.
#[derive(Clone, Copy, Debug, PartialEq, Eq)]
pub enum Refusal {
    Record,
    Limits,
    Day,
    Halt,
    Field,
    Crossed,
    Volume,
    Position,
    Unpriced,
    Lists,
    Time,
    Account,
    SetLength,
    Month,
}

// Documents 01 and 02's number.
impl From<Refusal> for u8 {
    ghost from_gives = { λ refusal n. n ≡ Refusals·number refusal };

    fn from(refusal: Refusal) -> u8 {
        match refusal {
            Refusal::Record => 1,
            Refusal::Limits => 2,
            Refusal::Day => 3,
            Refusal::Halt => 4,
            Refusal::Field => 5,
            Refusal::Crossed => 6,
            Refusal::Volume => 7,
            Refusal::Position => 8,
            Refusal::Unpriced => 9,
            Refusal::Lists => 10,
            Refusal::Time => 11,
            Refusal::Account => 12,
            Refusal::SetLength => 13,
            Refusal::Month => 14,
        }
    }
}

impl Refusal {
    // This refusal, where its sentence is met.
    pub fn when(self, met: bool) -> Result<(), Refusal>
        ensures { result ≡ cond met (Err self) (Ok tt) }
    {
        if met { Err(self) } else { Ok(()) }
    }
}

// Here and below what the day and the halt say of a call are values beside one another: the figures that have both stand in a crate
// above. `forbidden` says that the day doesn't allow the call.
// The sentences that calls of most kinds can meet, in their order: 3 where the day doesn't allow the call, 4 where the halt
// doesn't, or its absence, and 5 where a value is outside its field.
fn first_sentences(forbidden: bool, stopped: bool, outside: bool) -> Result<(), Refusal>
    ensures { result ≡ Refusals·first_sentences forbidden stopped outside }
{
    Refusal::Day.when(forbidden)?;
    Refusal::Halt.when(stopped)?;
    Refusal::Field.when(outside)
}

fn sides_outside(market: Market) -> bool
    ensures { result ≡ sides_outside market }
{
    !(none_or_ticked(market.bid) & none_or_ticked(market.offer))
}

fn timed_quote_outside(quote: TimedQuote) -> bool
    ensures { result ≡ timed_quote_outside quote }
{
    (MOST_TIME < quote.time) | sides_outside(quote.market)
}

pub fn quote(forbidden: bool, halted: bool, market: Market) -> Result<(), Refusal>
    ensures { number_of result ≡ refusal_by forbidden halted 0 0 (Call.Quote market) }
{
    first_sentences(forbidden, halted, sides_outside(market))?;
    Refusal::Crossed.when(!market.is_uncrossed())
}

// The refusal of a timed quote where this is the latest time given in its minute.
pub fn timed_quote(
    forbidden: bool,
    halted: bool,
    latest: u32,
    quote: TimedQuote,
) -> Result<(), Refusal>
    ensures { number_of result ≡ refusal_by forbidden halted latest 0 (Call.TimedQuote quote) }
{
    first_sentences(forbidden, halted, timed_quote_outside(quote))?;
    Refusal::Time.when(quote.time < latest)?;
    Refusal::Crossed.when(!quote.market.is_uncrossed())
}

pub fn trade(forbidden: bool, halted: bool, t: Trade) -> Result<(), Refusal>
    ensures { number_of result ≡ refusal_by forbidden halted 0 0 (Call.Trade t) }
{
    first_sentences(forbidden, halted, t.is_outside())
}

// The refusal of a set of so many trades, before any of them is looked at.
pub fn trade_set(over: bool, halted: bool, trades: usize) -> Result<(), Refusal>
    ensures { number_of result ≡ first_met (set_sentences over halted trades) }
{
    first_sentences(over, halted, false)?;
    Refusal::SetLength.when(!is_set_length(trades))
}

pub fn halt(forbidden: bool, halted: bool) -> Result<(), Refusal>
    ensures { number_of result ≡ refusal_by forbidden halted 0 0 Call.Halt }
{
    first_sentences(forbidden, halted, false)
}

pub fn resume(forbidden: bool, halted: bool) -> Result<(), Refusal>
    ensures { number_of result ≡ refusal_by forbidden halted 0 0 Call.Resume }
{
    first_sentences(forbidden, !halted, false)
}

pub fn minute_end(forbidden: bool, index: u32) -> Result<(), Refusal>
    ensures { number_of result ≡ refusal_by forbidden false 0 0 (Call.MinuteEnd index) }
{
    first_sentences(forbidden, false, !none_or_price(index))
}

// Refusal 4 doesn't name a length of day, so that a halt doesn't stop it.
pub fn day_length(forbidden: bool, minutes: u32) -> Result<(), Refusal>
    ensures { number_of result ≡ refusal_by forbidden false 0 0 (Call.DayLength minutes) }
{
    first_sentences(forbidden, false, !is_ordinary_length(minutes))
}

// Nor does it name a final date.
pub fn final_date(forbidden: bool, month: Month) -> Result<(), Refusal>
    ensures { number_of result ≡ refusal_by forbidden false 0 0 (Call.FinalDate month) }
{
    Refusal::Day.when(forbidden)?;
    Refusal::Month.when(!month.is_in_table())
}

pub fn final_fix(forbidden: bool, value: u32) -> Result<(), Refusal>
    ensures { number_of result ≡ refusal_by forbidden false 0 0 (Call.FinalFix value) }
{
    first_sentences(forbidden, false, !is_price(value))
}

// The refusal of a fix where the price that it finds is this one. The set price is 0 for none, as in its call, and the other one 0
// where refusal 9 comes.
pub fn fix(forbidden: bool, set: u32, price: u32) -> Result<(), Refusal>
    ensures { number_of result ≡ refusal_by forbidden false 0 price (Call.Fix set) }
{
    first_sentences(forbidden, false, !none_or_price(set))?;
    Refusal::Unpriced.when(price == 0)
}

pub fn close(forbidden: bool) -> Result<(), Refusal>
    ensures { number_of result ≡ refusal_by forbidden false 0 0 Call.Close }
{
    first_sentences(forbidden, false, false)
}
