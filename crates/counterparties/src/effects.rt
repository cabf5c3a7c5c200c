// What an accepted trade does to the entries of its two accounts.
ghost use Rattle.std.specs.Prelude.{◌≡◌, ◌≤◌};
ghost use Rattle.calls.specs.Trade.{most_quantity};
ghost use Rattle.counterparties.specs.Counterparties.{exchanged, counted};
ghost use Rattle.counterparties.specs.Inner.{most_entry, most_moved, Present, Exchangeable, Countable};

use calls::Trade;
use columns::ACCOUNTS;

// Moves an amount from the seller's entry to the buyer's. The seller's is read after the buyer's is written.
pub fn exchange(column: &mut [i64; ACCOUNTS], t: Trade, amount: u64)
    requires { Present t × Exchangeable column.old t most_entry × (amount ≤ most_moved) }
    ensures { column.new ≡ exchanged column.old t amount }
{
    let i = usize::from(t.buyer);
    let j = usize::from(t.seller);
    // `as`: what is moved is below 2^63, `From` doesn't narrow, and `TryFrom` would have a branch that never comes.
    let z = amount as i64;
    column[i] += z;
    column[j] -= z;
}

// Raises the v of both accounts. It is no `exchange` of another type: both entries rise.
pub fn count(volume: &mut [u32; ACCOUNTS], t: Trade)
    requires { Present t × Countable volume.old t × (t.quantity ≤ most_quantity) }
    ensures { volume.new ≡ counted volume.old t }
{
    let i = usize::from(t.buyer);
    let j = usize::from(t.seller);
    volume[i] += t.quantity;
    volume[j] += t.quantity;
}
