// The ledger's methods, and what they answer.
use calls::Call;
use figures::Found;
use funding::market::Market;
use ledger::{Answer, Book};
use refusals::Refusal;
use std::fmt;

// A call's outcome, as it is printed.
#[derive(Clone, Copy)]
pub struct Outcome(pub figures::Outcome);

impl Outcome {
    // The refusal's number; 0 where there is none, as a row of the printout has it.
    pub fn number(&self) -> u8 {
        self.0.err().map_or(0, u8::from)
    }

    pub fn is_refused(&self) -> bool {
        self.0.is_err()
    }
}

impl fmt::Display for Outcome {
    fn fmt<W: fmt::Write>(&self, f: &mut fmt::Formatter<W>) -> fmt::Result {
        match self.0 {
            Ok(Found::Nothing) => write!(f, "accepted"),
            Ok(Found::Fixing(fixing)) => write!(
                f,
                "accepted, price {} rate {} amount {} valid {}",
                fixing.price, fixing.rate, fixing.amount, fixing.valid
            ),
            Ok(Found::Friday(day)) => write!(f, "accepted, Friday {day}"),
            Err(refusal) => write!(f, "refused {}", u8::from(refusal)),
        }
    }
}

// A call, by its own method.
pub fn answer_to(book: Book, call: Call) -> Answer {
    match call {
        Call::Quote(Market { bid, offer }) => book.quote(bid, offer),
        Call::Trade(trade) => book.trade(trade),
        Call::Halt => book.halt(),
        Call::Resume => book.resume(),
        Call::MinuteEnd(index) => book.minute_end(index),
        Call::Fix(set) => book.fix(set),
        Call::Close => book.close(),
        Call::DayLength(minutes) => book.day_length(minutes),
        Call::TimedQuote(quote) => book.timed_quote(quote),
        Call::FinalDate(month) => book.final_date(month),
        Call::FinalFix(value) => book.final_fix(value),
    }
}

pub fn report(book: &Book, positions: &mut [i64], cash: &mut [i64]) -> Outcome {
    Outcome(book.report(positions, cash).map(|()| Found::Nothing))
}
