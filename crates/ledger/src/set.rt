// A set of trades on a book.
ghost use Rattle.std.specs.Prelude.{◌≡◌, length};
ghost use Rattle.refusals.specs.Refusals.{first_met, number_of};
ghost use Rattle.columns.specs.Columns.{accounts};
ghost use Rattle.ledger.specs.Inner.{Room, SetBooked, set_answer};
ghost use Rattle.ledger.specs.Sets.{sentences_before_trades, sentences_after_trades, trade_set};

use crate::Book;
use calls::Trade;
use columns::Columns;
use refusals::Refusal;

// Books the trades one after another, up to the first that is refused by itself.
fn book_trades(book: &mut Book, trades: &[Trade]) -> Result<(), Refusal>
    requires { Room (length trades.now) book.old }
    ensures { SetBooked accounts book.old trades.now result book.new }
{
    for &t in trades {
        trading::trade_in_set(&mut book.figures, &mut book.columns, t)?;
    }
    Ok(())
}

// The refusal of a set of so many trades, before any of them is looked at.
fn test_set(book: &Book, trades: usize) -> Result<(), Refusal>
    ensures { number_of result ≡ first_met (sentences_before_trades accounts book.now trades) }
{
    Refusal::Limits.when(!book.is_within_limits())?;
    refusals::trade_set(book.figures.is_over(), book.figures.halted, trades)
}

// The refusal of a set whose trades lead to these columns.
fn test_accounts(columns: &Columns) -> Result<(), Refusal>
    ensures { number_of result ≡ first_met (sentences_after_trades accounts columns.now) }
{
    Refusal::Volume.when(!columns.volumes_hold())?;
    Refusal::Position.when(!columns.positions_hold())
}

// The book with the trades of a set, or the set's refusal.
pub(crate) fn book_with(book: Book, trades: &[Trade]) -> Result<Book, Refusal>
    ensures { set_answer book result ≡ trade_set accounts book trades.now }
{
    test_set(&book, trades.len())?;
    let mut after = book;
    book_trades(&mut after, trades)?;
    test_accounts(&after.columns)?;
    Ok(after)
}
