// The ledger of one contract, from the first quote of a trade date to the cash posted at its close.
#![tactic(auto)]

ghost use Rattle.std.specs.Prelude.{◌≡◌, length};
ghost use Rattle.columns.specs.Columns.{accounts};
ghost use Rattle.refusals.specs.Refusals.{number_of};
ghost use Rattle.ledger.specs.Refusals.{within_limits};
ghost use Rattle.ledger.specs.Step.{answer_of, empty_book, report_refusal, reported};
ghost use Rattle.ledger.specs.Step.{opening as Step·opening};
ghost use Rattle.ledger.specs.Step.{step as Step·step};
ghost use Rattle.ledger.specs.Sets.{trade_set as Sets·trade_set};

use calls::{Call, TimedQuote, Trade};
use checked::step;
use columns::{ACCOUNTS, Columns};
use expiry::Month;
use figures::product::Product;
use figures::{Figures, Found, Outcome};
use funding::market::Market;
use refusals::Refusal;

pub mod checked;
mod set;

// A contract's book.
#[derive(Clone, Copy)]
pub struct Book {
    pub figures: Figures,
    pub columns: Columns,
}

// What a call comes to, with the same book where it is refused, or else the new one.
#[derive(Clone, Copy)]
pub struct Answer {
    pub outcome: Outcome,
    pub book: Book,
}

impl Book {
    // A book with these figures, and zeros in every column.
    pub(crate) fn empty(figures: Figures) -> Self
        ensures { result ≡ empty_book accounts figures }
    {
        Book {
            figures,
            columns: Columns::zeros(),
        }
    }

    // A fresh book of this size, or refusal 5 with an empty book of size 0, as document 01 has it.
    pub fn opening(size: u32) -> Answer
        ensures { answer_of result.outcome result.book ≡ Step·opening accounts size }
    {
        match Product::opening(size) {
            Ok(figures) => Answer {
                outcome: Ok(Found::Nothing),
                book: Book::empty(figures),
            },
            Err(refusal) => Answer {
                outcome: Err(refusal),
                book: Book::empty(Figures::fresh(0)),
            },
        }
    }

    // The accounts are looked at where the figures hold, and what they traded where the accounts do.
    pub fn is_within_limits(&self) -> bool
        ensures { result ≡ within_limits accounts self.now }
    {
        if !self.figures.holds() {
            return false;
        }
        if !self.columns.hold(self.figures.closed) {
            return false;
        }
        let volume = self.columns.total_volume();
        self.figures.day.trades.final_holds(volume)
    }

    // Any call.
    pub fn step(mut self, call: Call) -> Answer
        ensures { answer_of result.outcome result.book ≡ Step·step accounts self call }
    {
        if !self.is_within_limits() {
            return Answer {
                outcome: Err(Refusal::Limits),
                book: self,
            };
        }
        let outcome = step(&mut self, call);
        Answer {
            outcome,
            book: self,
        }
    }

    // Two numbers and no market: document 01's quote is (bid, offer).
    pub fn quote(self, bid: u32, offer: u32) -> Answer
        ensures { answer_of result.outcome result.book
            ≡ Step·step accounts self (Call.Quote (record { bid = bid; offer = offer })) }
    {
        self.step(Call::Quote(Market { bid, offer }))
    }

    pub fn trade(self, trade: Trade) -> Answer
        ensures { answer_of result.outcome result.book ≡ Step·step accounts self (Call.Trade trade) }
    {
        self.step(Call::Trade(trade))
    }

    pub fn halt(self) -> Answer
        ensures { answer_of result.outcome result.book ≡ Step·step accounts self Call.Halt }
    {
        self.step(Call::Halt)
    }

    pub fn resume(self) -> Answer
        ensures { answer_of result.outcome result.book ≡ Step·step accounts self Call.Resume }
    {
        self.step(Call::Resume)
    }

    pub fn minute_end(self, index: u32) -> Answer
        ensures { answer_of result.outcome result.book ≡ Step·step accounts self (Call.MinuteEnd index) }
    {
        self.step(Call::MinuteEnd(index))
    }

    pub fn fix(self, set: u32) -> Answer
        ensures { answer_of result.outcome result.book ≡ Step·step accounts self (Call.Fix set) }
    {
        self.step(Call::Fix(set))
    }

    pub fn close(self) -> Answer
        ensures { answer_of result.outcome result.book ≡ Step·step accounts self Call.Close }
    {
        self.step(Call::Close)
    }

    pub fn day_length(self, minutes: u32) -> Answer
        ensures { answer_of result.outcome result.book ≡ Step·step accounts self (Call.DayLength minutes) }
    {
        self.step(Call::DayLength(minutes))
    }

    pub fn timed_quote(self, quote: TimedQuote) -> Answer
        ensures { answer_of result.outcome result.book ≡ Step·step accounts self (Call.TimedQuote quote) }
    {
        self.step(Call::TimedQuote(quote))
    }

    pub fn final_date(self, month: Month) -> Answer
        ensures { answer_of result.outcome result.book ≡ Step·step accounts self (Call.FinalDate month) }
    {
        self.step(Call::FinalDate(month))
    }

    pub fn final_fix(self, value: u32) -> Answer
        ensures { answer_of result.outcome result.book ≡ Step·step accounts self (Call.FinalFix value) }
    {
        self.step(Call::FinalFix(value))
    }

    // A list of trades, accepted whole or not at all. The trades change a copy of the book, so that a refused set hands back the first one.
    pub fn trade_set(self, trades: &[Trade]) -> Answer
        ensures { answer_of result.outcome result.book ≡ Sets·trade_set accounts self trades.now }
    {
        match set::book_with(self, trades) {
            Ok(book) => Answer {
                outcome: Ok(Found::Nothing),
                book,
            },
            Err(refusal) => Answer {
                outcome: Err(refusal),
                book: self,
            },
        }
    }

    // Entry j of the lists becomes account j's position and cash. Refusals 2 and 10 leave the lists as they are. They are two, which
    // document 01 names, and which the caller lends.
    pub fn report(&self, positions: &mut [i64], cash: &mut [i64]) -> Result<(), Refusal>
        ensures number { number_of result ≡ report_refusal accounts self.now (length positions.old) (length cash.old) }
        ensures positions { positions.new ≡ reported (number_of result) self.now.columns.position positions.old }
        ensures cash { cash.new ≡ reported (number_of result) self.now.columns.cash cash.old }
    {
        Refusal::Limits.when(!self.is_within_limits())?;
        Refusal::Lists.when((positions.len() != ACCOUNTS) | (cash.len() != ACCOUNTS))?;
        positions.copy_from_slice(&self.columns.position);
        cash.copy_from_slice(&self.columns.cash);
        Ok(())
    }
}
