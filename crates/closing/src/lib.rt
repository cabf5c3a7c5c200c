// The close of a day, on the lent figures and columns of a book, whose crate is above: every account's cash is posted, and the day's columns start
// empty; at the end of the contract the positions too.
#![tactic(auto, unfolding(outcomes::specs::Effects::fixing_of))]

ghost use Rattle.std.specs.Prelude.{◌≡◌};
ghost use Rattle.columns.specs.Columns.{accounts};
ghost use Rattle.closing.specs.Closing.{posted_columns, carried_columns};
ghost use Rattle.closing.specs.Closing.{posting as Closing·posting};
ghost use Rattle.closing.specs.Inner.{Postable, Closable, CloseAnswered};

use columns::{ACCOUNTS, Account, Columns};
use figures::{Figures, Found, Outcome};
use outcomes::closed_day;

// What a close adds to an account's cash. Numbers within their limits are required, so that the sums fit.
fn posting(figures: &Figures, account: Account) -> i64
    requires { Postable figures.now account }
    ensures { result ≡ Closing·posting figures.now account.position account.opening account.cost }
{
    let Account {
        opening,
        position,
        cost,
        ..
    } = account;
    let price = i64::from(figures.day.fixed.price);
    let previous = i64::from(figures.previous.price);
    let size = i64::from(figures.size);
    (position * price - opening * previous - cost) * size
        + position * figures.day.fixed.amount * 100
}

// Every account's cash is raised by its posting.
fn post(figures: &Figures, columns: &mut Columns)
    requires { Closable figures.now columns.old }
    ensures { columns.new ≡ posted_columns accounts figures.now columns.old }
{
    for i in 0..ACCOUNTS {
        columns.cash[i] += posting(figures, columns.account(i));
    }
}

// The present positions become the opening ones. At the end of the contract they are cleared first.
fn carry(figures: &Figures, columns: &mut Columns)
    ensures { columns.new ≡ carried_columns accounts figures.now columns.old }
{
    if figures.day.is_final_date() {
        columns.position = [0; ACCOUNTS];
    }
    columns.opening = columns.position;
}

// Any close: a refusal, which leaves figures and columns as they are, or both changed.
pub fn close(figures: &mut Figures, columns: &mut Columns) -> Outcome
    requires { Closable figures.old columns.old }
    ensures { CloseAnswered accounts figures.old columns.old result figures.new columns.new }
{
    refusals::close((figures.day.fixed.price == 0) | figures.is_over())?;
    post(figures, columns);
    carry(figures, columns);
    columns.cost = [0; ACCOUNTS];
    columns.volume = [0; ACCOUNTS];
    closed_day(figures);
    Ok(Found::Nothing)
}
