// What differs between two books, in every figure and every account's entries.
ghost use Rattle.std.specs.Prelude.{◌<◌};
ghost use Rattle.columns.specs.Columns.{accounts};

use crate::book::Entry;
use crate::figure::{Figure, Value};
use columns::{ACCOUNTS, Columns};
use funding::market::Market;
use ledger::Book;
use std::{fmt, io};

// A number that differs, by its name and its value in the second book.
#[derive(Clone, Copy)]
enum Change {
    Figure(&'static str, Value),
    // the account of the entries that follow
    Account(usize),
    Entry(&'static str, i64),
}

impl fmt::Display for Change {
    fn fmt<W: fmt::Write>(&self, f: &mut fmt::Formatter<W>) -> fmt::Result {
        match self {
            Change::Figure(name, Value::Flag(true)) => write!(f, "; {name}"),
            Change::Figure(name, Value::Flag(false)) => write!(f, "; not {name}"),
            Change::Figure(name, Value::Number(number)) => write!(f, "; {name} {number}"),
            Change::Figure(name, Value::Market(Market { bid, offer })) => {
                write!(f, "; {name} {bid}/{offer}")
            }
            Change::Account(account) => write!(f, "; account {account}"),
            Change::Entry(name, number) => write!(f, " {name} {number}"),
        }
    }
}

fn print_account(
    rt: &impl Print,
    account: usize,
    before: &Columns,
    after: &Columns,
) -> io::Result<()>
    requires { account < accounts }
{
    if after.account(account) != before.account(account) {
        rt.print(Change::Account(account))?;
    }
    for (entry, name) in &Entry::NAMED {
        let value = entry.of(after, account);
        if value != entry.of(before, account) {
            rt.print(Change::Entry(name, value))?;
        }
    }
    Ok(())
}

pub fn print(rt: &impl Print, before: &Book, after: &Book) -> io::Result<()> {
    for (figure, name) in &Figure::NAMED {
        let value = figure.of(&after.figures);
        if value != figure.of(&before.figures) {
            rt.print(Change::Figure(name, value))?;
        }
    }
    for account in 0..ACCOUNTS {
        print_account(rt, account, &before.columns, &after.columns)?;
    }
    Ok(())
}

// Whether two books are the same in all that is printed.
pub fn is_same(before: &Book, after: &Book) -> bool {
    let are_figures_same = Figure::NAMED.iter().all(|(figure, _)| figure.of(&before.figures)
        == figure.of(&after.figures));
    are_figures_same
        && before.columns.opening == after.columns.opening
        && before.columns.position == after.columns.position
        && before.columns.cost == after.columns.cost
        && before.columns.volume == after.columns.volume
        && before.columns.cash == after.columns.cash
}
