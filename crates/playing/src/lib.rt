// What each record prints, as a value, and the book after it.
#![tactic(auto)]

ghost use Rattle.std.specs.Prelude.{◌≡◌};
ghost use Rattle.refusals.specs.Refusals.{number, number_of};
ghost use Rattle.figures.specs.Figures.{fixing_in, friday_in};
ghost use Rattle.playing.specs.Printed.{printed_by, played_record};

use calls::Call;
use dayfile::RecordError;
use figures::{Fixing, Outcome};
use ledger::checked::CheckedBook;
use refusals::Refusal;

// The lines of one record that prints.
#[derive(Clone, Copy, Debug, PartialEq, Eq)]
pub enum Printed {
    // refused NUMBER record PLACE. The number stands here and not its refusal: the definitions of the printout know numbers alone.
    Refused { number: u8, place: u64 },
    // day DAY price P rate R amount A valid K
    Day { day: u64, fixing: Fixing },
    // a line for each account that is printed
    Accounts,
    // final FRIDAY
    Final(u8),
}

impl Printed {
    fn refused(refusal: Refusal, place: u64) -> Self
        ensures { result ≡ Printed.Refused (number refusal) place }
    {
        Printed::Refused {
            number: u8::from(refusal),
            place,
        }
    }
}

// What a call prints that came to this, after so many closed days.
fn printed_by(outcome: Outcome, closed: u32, call: Call, place: u64) -> Option<Printed>
    ensures { result ≡ printed_by (number_of outcome) (fixing_in outcome) (friday_in outcome) closed call place }
{
    match outcome {
        Err(refusal) => Some(Printed::refused(refusal, place)),
        Ok(found) => match call {
            Call::Fix(_) | Call::FinalFix(_) => found.fixing().map(|fixing| Printed::Day {
                day: u64::from(closed) + 1,
                fixing,
            }),
            Call::Close => Some(Printed::Accounts),
            Call::FinalDate(_) => found.friday().map(Printed::Final),
            _ => None,
        },
    }
}

// Plays a record's call, if it has one, and answers what the record prints.
pub fn play_record(
    book: &mut CheckedBook,
    call: Result<Option<Call>, RecordError>,
    place: u64,
) -> Option<Printed>
    ensures { record { printed = result; book = book.new.book } ≡ played_record book.old.book call place }
{
    match call {
        Ok(Some(call)) => {
            let outcome = book.step(call);
            printed_by(outcome, book.book.figures.closed, call, place)
        }
        Ok(None) => None,
        Err(error) => Some(Printed::refused(Refusal::from(error), place)),
    }
}
