// Refusals 12, 7 and 8: whether the accounts of a trade are there, and stay within their limits.
ghost use Rattle.std.specs.Prelude.{◌≡◌, cond, ◌+◌, eqb};
ghost use Rattle.columns.specs.Limits.{most_position};
ghost use Rattle.columns.specs.Columns.{accounts};
ghost use Rattle.counterparties.specs.Counterparties.{are_accounts, volume_stays, position_stays};
ghost use Rattle.counterparties.specs.Inner.{Present, Exchangeable, Countable};

use calls::Trade;
use columns::{ACCOUNTS, MOST_POSITION, MOST_VOLUME};

// Whether both accounts of a trade are there.
pub fn are_accounts(t: Trade) -> bool
    ensures { result ≡ are_accounts accounts t }
{
    (usize::from(t.buyer) < ACCOUNTS) & (usize::from(t.seller) < ACCOUNTS)
}

// What the v of each account of a trade rises by: both sides where they are one account.
fn counts(t: Trade) -> u64
    ensures { result ≡ cond (eqb t.buyer t.seller) (t.quantity + t.quantity) t.quantity }
{
    let q = u64::from(t.quantity);
    if t.buyer == t.seller { q + q } else { q }
}

// What the positions of its accounts move by: a trade with oneself moves none.
fn moves(t: Trade) -> u32
    ensures { result ≡ cond (eqb t.buyer t.seller) 0 t.quantity }
{
    if t.buyer == t.seller { 0 } else { t.quantity }
}

// Whether the v of both accounts stays within its limit.
pub fn volume_stays(volume: &[u32; ACCOUNTS], t: Trade) -> bool
    requires { Present t × Countable volume.now t }
    ensures { result ≡ volume_stays volume.now t }
{
    let i = usize::from(t.buyer);
    let j = usize::from(t.seller);
    let raised = counts(t);
    let bought = u64::from(volume[i]) + raised;
    let sold = u64::from(volume[j]) + raised;
    (bought <= u64::from(MOST_VOLUME)) & (sold <= u64::from(MOST_VOLUME))
}

// Whether the positions of both accounts stay within their limit. Positions within it are required, so that the sums fit, and
// so that a buyer's can pass it only above and a seller's only below.
pub fn position_stays(position: &[i64; ACCOUNTS], t: Trade) -> bool
    requires { Present t × Exchangeable position.now t most_position }
    ensures { result ≡ position_stays position.now t }
{
    let i = usize::from(t.buyer);
    let j = usize::from(t.seller);
    let moved = i64::from(moves(t));
    let bought = position[i] + moved;
    let sold = position[j] - moved;
    (bought <= MOST_POSITION) & (-MOST_POSITION <= sold)
}
