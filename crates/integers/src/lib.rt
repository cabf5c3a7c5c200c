// Division rounded to the nearest whole number. proofs/ is a library of laws of the integers that the other crates cite.
#![tactic(auto)]

ghost use Rattle.std.specs.Prelude.{◌≡◌, true, cond, ◌&&◌, ◌||◌, nat_eq, nat_lt, ◌+◌, ◌*◌, ◌<◌, ◌^◌, pos, nat_abs, ◌+ℤ◌, ◌-ℤ◌, ◌<ℤ◌};
ghost use Rattle.integers.specs.Dividing.{IsDivision};
ghost use Rattle.integers.specs.Rounding.{with_sign_of, on_tie, rounded, half_even};
ghost use Rattle.integers.specs.Size.{within};

// Where a quotient half way between two whole numbers goes.
#[derive(Clone, Copy, Debug, PartialEq, Eq)]
pub enum Tie {
    // to the even one
    Even,
    // to the one farther from zero
    Away,
}

// Whether a signed number's size is at most a limit.
pub fn is_within(x: i64, limit: u64) -> bool
    ensures { result ≡ within x limit }
{
    x.unsigned_abs() <= limit
}

// The quotient and the remainder of one division.
#[derive(Clone, Copy)]
pub struct Division {
    pub quotient: i64,
    pub remainder: i64,
}

// The quotient, truncated toward zero, and the remainder of x / d, for either sign of x. A quotient by 0 has no value, so each caller
// shows that its divisor is positive.
pub fn divided(x: i64, d: i64) -> Division
    requires { pos 0 <ℤ d }
    ensures { IsDivision x d result }
{
    Division {
        quotient: x / d,
        remainder: x % d,
    }
}

// The quotient q, or where it goes on, the whole number after it on the remainder's side, for which |q| has to be below the largest
// number. A step of 0 or 1 is added or subtracted either way, so that the compiler makes no branch of `goes_on`.
fn with_step(q: i64, remainder: i64, goes_on: bool) -> i64
    requires { goes_on ≡ true → nat_abs q + 1 < 2 ^ 63 }
    ensures { result ≡ q +ℤ with_sign_of remainder (cond goes_on 1 0) }
{
    let step = i64::from(goes_on);
    if remainder < 0 { q - step } else { q + step }
}

// By how much the whole number after the quotient lies farther from x / d than the quotient does, times d: above 0 the quotient is
// nearer, 0 is the tie, below 0 the number after it is nearer. The remainder keeps its sign: it is added where it is below 0, and
// subtracted otherwise.
fn farther_by(d: i64, remainder: i64) -> i64
    requires { pos (nat_abs remainder) <ℤ d }
    ensures { result ≡ d -ℤ pos (2 * nat_abs remainder) }
{
    if remainder < 0 {
        d + remainder + remainder
    } else {
        d - remainder - remainder
    }
}

// Whether a tie goes on from the quotient q to the whole number after it.
fn tie_goes_on(q: i64, tie: Tie) -> bool
    ensures { on_tie tie (nat_abs q) ≡ nat_abs q + cond result 1 0 }
{
    match tie {
        Tie::Even => q % 2 != 0,
        Tie::Away => true,
    }
}

// Whether the quotient goes on to the whole number after it: that one is nearer, or as near and the tie goes there. Which of the two is
// nearer can't be predicted, so this is written to compile to one comparison and no branch.
fn goes_on(d: i64, remainder: i64, tie_goes_on: bool) -> bool
    requires { pos (nat_abs remainder) <ℤ d }
    ensures { result ≡ (nat_lt (nat_abs d) (2 * nat_abs remainder) || (nat_eq (nat_abs d) (2 * nat_abs remainder) && tie_goes_on)) }
{
    let by = farther_by(d, remainder);
    if tie_goes_on { by <= 0 } else { by < 0 }
}

// x / d rounded to the nearest whole number, by one quotient and one remainder for either sign of x. The divisor is positive, as above.
pub fn rounded(x: i64, d: i64, tie: Tie) -> i64
    requires { pos 0 <ℤ d }
    ensures { result ≡ rounded tie x (nat_abs d) }
{
    let Division {
        quotient,
        remainder,
    } = divided(x, d);
    with_step(
        quotient,
        remainder,
        goes_on(d, remainder, tie_goes_on(quotient, tie)),
    )
}

// x / d rounded to the nearest whole number, a tie to the even one. The divisor is positive, as above.
pub fn half_even(x: i64, d: i64) -> i64
    requires { pos 0 <ℤ d }
    ensures { result ≡ half_even x (nat_abs d) }
{
    rounded(x, d, Tie::Even)
}
