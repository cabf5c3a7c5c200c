// A trade, by itself or in a set, on the lent figures and columns of a book: they are two values, since the book stands with its calls, in
// a crate above.
#![tactic(auto, unfolding(outcomes::specs::Effects::fixing_of))]

ghost use Rattle.std.specs.Prelude.{◌≡◌};
ghost use Rattle.refusals.specs.Refusals.{first_met, number_of};
ghost use Rattle.columns.specs.Columns.{accounts};
ghost use Rattle.columns.specs.Limits.{most_position};
ghost use Rattle.counterparties.specs.Inner.{most_entry, Exchangeable, Countable};
ghost use Rattle.trading.specs.Trading.{own_sentences, trade_refusal};
ghost use Rattle.trading.specs.Inner.{Passes, SetTradeAnswered, Tradable, TradeAnswered, Traded};

use calls::Trade;
use columns::Columns;
use counterparties::effects::{count, exchange};
use counterparties::limits::{are_accounts, position_stays, volume_stays};
use figures::{Figures, Found, Outcome};
use refusals::Refusal;

// The refusal of a trade, by its values and then by its accounts.
fn test(figures: &Figures, columns: &Columns, t: Trade) -> Result<(), Refusal>
    requires { Exchangeable columns.now.position t most_position × Countable columns.now.volume t }
    ensures { number_of result ≡ trade_refusal accounts figures.now columns.now t }
{
    refusals::trade(figures.is_over(), figures.halted, t)?;
    Refusal::Account.when(!are_accounts(t))?;
    Refusal::Volume.when(!volume_stays(&columns.volume, t))?;
    Refusal::Position.when(!position_stays(&columns.position, t))
}

// The refusal of a trade of a set, which no limit of its accounts gives.
fn test_by_itself(t: Trade) -> Result<(), Refusal>
    ensures { number_of result ≡ first_met (own_sentences accounts t) }
{
    Refusal::Field.when(t.is_outside())?;
    Refusal::Account.when(!are_accounts(t))
}

// An accepted trade.
fn traded(figures: &mut Figures, columns: &mut Columns, t: Trade)
    requires { Tradable figures.old columns.old t most_entry × Passes accounts t }
    ensures { Traded figures.old columns.old t figures.new columns.new }
{
    let quantity = u64::from(t.quantity);
    exchange(&mut columns.position, t, quantity);
    count(&mut columns.volume, t);
    exchange(&mut columns.cost, t, quantity * u64::from(t.price));
    outcomes::traded(figures, t);
}

// Any trade: a refusal, which leaves figures and columns as they are, or both changed.
pub fn trade(figures: &mut Figures, columns: &mut Columns, t: Trade) -> Outcome
    requires { Tradable figures.old columns.old t most_position }
    ensures { TradeAnswered accounts figures.old columns.old t result figures.new columns.new }
{
    test(figures, columns, t)?;
    traded(figures, columns, t);
    Ok(Found::Nothing)
}

// Any trade of a set likewise. The limits of its accounts are looked at after the last one.
pub fn trade_in_set(figures: &mut Figures, columns: &mut Columns, t: Trade) -> Result<(), Refusal>
    requires { Tradable figures.old columns.old t most_entry }
    ensures { SetTradeAnswered accounts figures.old columns.old t result figures.new columns.new }
{
    test_by_itself(t)?;
    traded(figures, columns, t);
    Ok(())
}
