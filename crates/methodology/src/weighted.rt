// The weighted sum of an example's valid minutes.
ghost use Rattle.std.specs.Prelude.{◌≡◌, ◌+◌, ◌<◌, ◌≤◌, ◌++◌, pos, nat_abs, IsTrue, Some, codes};
ghost use Rattle.std.specs.Fmt.{decimal, signed_decimal};
ghost use Rattle.funding.specs.Terms.{standard_terms};
ghost use Rattle.funding.specs.Minute.{weighted_limit, within_spread, futures_price, Accrues, accrued, basis_of};
ghost use Rattle.settlement.specs.Fixing.{rate_of};

use crate::sample::Priced;
use std::fmt;
use std::fmt::{Display, Formatter};

// The valid minutes of an example so far, and their weighted sum.
#[derive(Clone, Copy)]
pub struct Weighted {
    pub count: u32,
    pub sum: i64,
    ghost within: { nat_abs sum ≤ weighted_limit count },
}

impl Weighted {
    pub fn none() -> Self
        ensures { (result.count ≡ 0) × (result.sum ≡ pos 0) }
    {
        Weighted { count: 0, sum: 0 }
    }

    // With one more valid minute of this basis.
    fn weigh(self, basis: i64) -> Self
        requires { Accrues self.sum self.count basis }
        ensures count { result.count ≡ self.count + 1 }
        ensures sum { result.sum ≡ accrued self.sum self.count basis }
    {
        let sum = funding::accrue(self.sum, self.count, basis);
        let count = self.count + 1;
        Weighted { count, sum }
    }

    // With a minute, where it is valid.
    #[tactic(auto, using(crate::proofs::Accruing::accrues, crate::proofs::Accruing::accrues_valid))]
    pub fn with_minute(self, minute: Priced) -> Self
        requires { self.count < 10 }
        ensures count { result.count ≤ self.count + 1 }
        ensures valid { let s = minute.sample in IsTrue (within_spread standard_terms s.market.bid s.market.offer)
            → result.sum ≡ accrued self.sum self.count (basis_of (futures_price s.market.bid s.market.offer s.last) s.index) }
        ensures invalid { let s = minute.sample in ¬ IsTrue (within_spread standard_terms s.market.bid s.market.offer)
            → result ≡ self }
    {
        let sample = minute.sample;
        match sample.futures_price() {
            Some(futures) => self.weigh(funding::basis(futures, sample.index)),
            None => self,
        }
    }
}

// Valid minutes; their rate.
impl Display for Weighted {
    ghost output = { λ w. Some (codes "rate " ++ decimal w.count ++ codes " " ++ signed_decimal (rate_of w.count w.sum)) };

    fn fmt<W: fmt::Write>(&self, f: &mut Formatter<W>) -> fmt::Result {
        let rate = settlement::rate(self.count, self.sum);
        write!(f, "rate {} {rate}", self.count)
    }
}
