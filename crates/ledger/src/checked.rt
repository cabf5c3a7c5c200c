// A book that is within its limits, which calls change in place.
ghost use Rattle.std.specs.Prelude.{◌≡◌};
ghost use Rattle.columns.specs.Columns.{accounts};
ghost use Rattle.ledger.specs.Step.{answer_of, step};
ghost use Rattle.ledger.specs.Inner.{WithinLimits};

use crate::Book;
use calls::{Call, TimedQuote, Trade};
use figures::Outcome;
use figures::product::Product;
use funding::market::Market;
use refusals::Refusal;

// Any call on a book within its limits. It is compiled by itself: a run calls it for rare records, and the loops over the frequent
// ones have fewer numbers to keep without it.
#[inline(never)]
pub fn step(book: &mut Book, call: Call) -> Outcome
    requires { WithinLimits accounts book.old }
    ensures { answer_of result book.new ≡ step accounts book.old call }
{
    let figures = &mut book.figures;
    match call {
        Call::Quote(market) => outcomes::quote(figures, market),
        Call::Trade(trade) => trading::trade(figures, &mut book.columns, trade),
        Call::Halt => outcomes::halt(figures),
        Call::Resume => outcomes::resume(figures),
        Call::MinuteEnd(index) => outcomes::minute_end(figures, index),
        Call::Fix(set) => outcomes::fix(figures, set),
        Call::Close => closing::close(figures, &mut book.columns),
        Call::DayLength(minutes) => outcomes::day_length(figures, minutes),
        Call::TimedQuote(quote) => outcomes::timed_quote(figures, quote),
        Call::FinalDate(month) => outcomes::final_date(figures, month),
        Call::FinalFix(value) => outcomes::final_fix(figures, value),
    }
}

// Refusal 2 never comes of such a book: a run uses it, so that it neither copies the book nor looks at its limits at every call.
// What a call leaves is within its limits again (specs/Keeping.antt).
#[derive(Clone, Copy)]
pub struct CheckedBook {
    pub book: Book,
    pub ghost within: { WithinLimits accounts book },
}

impl CheckedBook {
    ghost use Rattle.ledger.specs.Step.{opening as Step·opening};
    ghost use Rattle.ledger.specs.Checked.{checked_opening};

    // A fresh book of this size, or refusal 5.
    pub fn opening(size: u32) -> Result<Self, Refusal>
        ensures { checked_opening result ≡ Step·opening accounts size }
    {
        let figures = Product::opening(size)?;
        Ok(CheckedBook {
            book: Book::empty(figures),
        })
    }

    // Any call.
    pub fn step(&mut self, call: Call) -> Outcome
        ensures { answer_of result self.new.book ≡ step accounts self.old.book call }
    {
        step(&mut self.book, call)
    }

    // Four of them by themselves, which most records of a file are.
    pub fn quote(&mut self, market: Market) -> Outcome
        ensures { answer_of result self.new.book ≡ step accounts self.old.book (Call.Quote market) }
    {
        outcomes::quote(&mut self.book.figures, market)
    }

    pub fn timed_quote(&mut self, quote: TimedQuote) -> Outcome
        ensures { answer_of result self.new.book ≡ step accounts self.old.book (Call.TimedQuote quote) }
    {
        outcomes::timed_quote(&mut self.book.figures, quote)
    }

    pub fn minute_end(&mut self, index: u32) -> Outcome
        ensures { answer_of result self.new.book ≡ step accounts self.old.book (Call.MinuteEnd index) }
    {
        outcomes::minute_end(&mut self.book.figures, index)
    }

    pub fn trade(&mut self, trade: Trade) -> Outcome
        ensures { answer_of result self.new.book ≡ step accounts self.old.book (Call.Trade trade) }
    {
        trading::trade(&mut self.book.figures, &mut self.book.columns, trade)
    }
}
