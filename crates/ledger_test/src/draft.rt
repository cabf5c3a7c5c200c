// Books made by hand from a list of fields. A field with a number in the list has that number; one without has the next
// number of the case.
use crate::book::{Entry, empty_book};
use crate::figure::Figure;
use crate::numbers::{Number, Numbers, name_of};
use columns::ACCOUNTS;
use day::Markets;
use ledger::Book;
use std::io;

#[derive(Clone, Copy)]
enum Field {
    Figure(Figure),
    // of the account that the list named last, or of all
    Entry(Entry),
    Account,
    // the book of an opening
    Opened,
    // the market and the minute's market
    BothMarkets,
    // the ended minutes and k
    ValidMinutes,
    // a name that no field has
    Unknown,
}

// The one that has this name.
fn find_named<T: Copy>(named: &[(T, &'static str)], text: &str) -> Option<T> {
    named
        .iter()
        .find(|(_, name)| *name == text)
        .map(|(item, _)| *item)
}

impl Field {
    // A name that is no text is unknown too.
    fn of(name: &[u8]) -> Self {
        let name = str::from_utf8(name).unwrap_or_default();
        if let Some(figure) = find_named(&Figure::NAMED, name) {
            return Field::Figure(figure);
        }
        if let Some(entry) = find_named(&Entry::NAMED, name) {
            return Field::Entry(entry);
        }
        match name {
            "account" => Field::Account,
            "opened" => Field::Opened,
            "both markets" => Field::BothMarkets,
            "valid minutes" => Field::ValidMinutes,
            _ => Field::Unknown,
        }
    }
}

// Whose the entries of a list are.
#[derive(Clone, Copy)]
enum Owner {
    Account(usize),
    AllAccounts,
}

// A book of which some fields are set, and how many numbers of the case they took.
#[derive(Clone, Copy)]
pub struct Draft {
    pub book: Book,
    owner: Owner,
    used: usize,
}

impl Draft {
    // Entries are of account 0 until the list names another.
    pub fn new() -> Self {
        Self {
            book: empty_book(),
            owner: Owner::Account(0),
            used: 0,
        }
    }

    fn set_entry(&mut self, rt: &impl Print, entry: Entry, number: Number) -> io::Result<()> {
        let columns = &mut self.book.columns;
        match self.owner {
            Owner::Account(account) if account < ACCOUNTS => entry.set(columns, account, number),
            Owner::Account(_) => rt.print("NO SUCH ACCOUNT: ")?,
            Owner::AllAccounts => entry.set_all(columns, number),
        }
        Ok(())
    }

    fn set(&mut self, rt: &impl Print, field: Field, number: Number) -> io::Result<()> {
        let day = &mut self.book.figures.day;
        match field {
            Field::Figure(figure) => figure.set(&mut self.book.figures, number),
            Field::Entry(entry) => self.set_entry(rt, entry, number)?,
            Field::Account => self.owner = Owner::Account(number.as_u16().into()),
            Field::Opened => self.book = Book::opening(number.as_u32()).book,
            // The number of an unknown field goes into the markets.
            Field::BothMarkets | Field::Unknown => {
                day.markets = Markets {
                    standing: number.as_market(),
                    minute: number.as_market(),
                };
            }
            Field::ValidMinutes => {
                day.minutes.ended = number.as_u32();
                day.minutes.valid = number.as_u32();
            }
        }
        Ok(())
    }

    // The number of a field: its own in the list, or the next of the case. Where none is left, it is the case's fifth, which is 0
    // where there are fewer.
    fn number(&mut self, rt: &impl Print, item: &[u8], case: &Numbers) -> io::Result<Number> {
        let own = Numbers::of(item);
        if own.count() != 0 {
            return Ok(own.at(0));
        }
        let place = self.used;
        if place < case.count() {
            self.used += 1;
            return Ok(case.at(place));
        }
        rt.print("NO NUMBER: ")?;
        Ok(case.at(4))
    }

    // Sets the field that a list names. All accounts are named without a number.
    pub fn set_named(&mut self, rt: &impl Print, item: &[u8], case: &Numbers) -> io::Result<()> {
        let name = name_of(item);
        if name == b"all accounts".as_slice() {
            self.owner = Owner::AllAccounts;
            return Ok(());
        }
        let field = Field::of(name);
        let number = self.number(rt, item, case)?;
        if matches!(field, Field::Unknown) {
            rt.print("NO SUCH FIELD: ")?;
        }
        self.set(rt, field, number)
    }
}
