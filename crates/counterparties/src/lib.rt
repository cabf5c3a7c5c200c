// The buyer and the seller of a trade: whether their entries of the account columns stay within their limits, and what an
// accepted trade does to them. Each function requires its own bound of the entries: a limit, or that a sum fits.
#![tactic(auto)]

pub mod effects;
pub mod limits;
