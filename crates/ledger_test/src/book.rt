// A book's accounts, and a book with nothing in it.
ghost use Rattle.std.specs.Prelude.{◌<◌};
ghost use Rattle.columns.specs.Columns.{accounts};

use crate::numbers::Number;
use calls::FULL_DAY;
use columns::{ACCOUNTS, Columns};
use day::{Day, Fixed, Markets, Minutes, Session, Timing, Trades};
use figures::Figures;
use ledger::Book;
use settlement::Previous;

// An account's entries.
#[derive(Clone, Copy)]
pub enum Entry {
    Opening,
    Position,
    Cost,
    Volume,
    Cash,
}

impl Entry {
    // Each entry with its name, in the order in which changes are printed.
    pub const NAMED: [(Entry, &'static str); 5] = [
        (Entry::Opening, "opening"),
        (Entry::Position, "position"),
        (Entry::Cost, "cost"),
        (Entry::Volume, "v"),
        (Entry::Cash, "cash"),
    ];

    pub fn of(self, columns: &Columns, account: usize) -> i64
        requires { account < accounts }
    {
        match self {
            Entry::Opening => columns.opening[account],
            Entry::Position => columns.position[account],
            Entry::Cost => columns.cost[account],
            Entry::Volume => columns.volume[account].into(),
            Entry::Cash => columns.cash[account],
        }
    }

    pub fn set(self, columns: &mut Columns, account: usize, number: Number)
        requires { account < accounts }
    {
        match self {
            Entry::Opening => columns.opening[account] = number.as_i64(),
            Entry::Position => columns.position[account] = number.as_i64(),
            Entry::Cost => columns.cost[account] = number.as_i64(),
            Entry::Volume => columns.volume[account] = number.as_u32(),
            Entry::Cash => columns.cash[account] = number.as_i64(),
        }
    }

    // One number into the entries of all accounts.
    pub fn set_all(self, columns: &mut Columns, number: Number) {
        match self {
            Entry::Opening => columns.opening = [number.as_i64(); ACCOUNTS],
            Entry::Position => columns.position = [number.as_i64(); ACCOUNTS],
            Entry::Cost => columns.cost = [number.as_i64(); ACCOUNTS],
            Entry::Volume => columns.volume = [number.as_u32(); ACCOUNTS],
            Entry::Cash => columns.cash = [number.as_i64(); ACCOUNTS],
        }
    }
}

// A book of size 10 on a full day that has begun, with nothing else. It is written out, so that an opening is not compared with
// what an opening makes.
pub fn empty_book() -> Book {
    Book {
        figures: Figures {
            size: 10,
            closed: 0,
            halted: false,
            expired: false,
            previous: Previous::default(),
            day: Day {
                markets: Markets::default(),
                minutes: Minutes::default(),
                trades: Trades::default(),
                fixed: Fixed::default(),
                session: Session {
                    length: FULL_DAY,
                    begun: true,
                },
                timing: Timing::default(),
            },
        },
        columns: Columns {
            opening: [0; ACCOUNTS],
            position: [0; ACCOUNTS],
            cost: [0; ACCOUNTS],
            volume: [0; ACCOUNTS],
            cash: [0; ACCOUNTS],
        },
    }
}
