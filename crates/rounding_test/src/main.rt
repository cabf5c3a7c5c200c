// Divides and rounds the values of tests/rounding/table.txt, in that file's order. It prints that file's rows, which are worked out by
// exact fractions; the reference's tests check the same rows.
#![tactic(auto)]

use integers::Tie;
use std::io;

// A value and its divisor.
const ROWS: [(i64, i64); 56] = [
    (0, 1),
    (0, 7),
    (6, 3),
    (-6, 3),
    (1, 3),
    (2, 3),
    (-1, 3),
    (-2, 3),
    (4, 3),
    (5, 3),
    (-4, 3),
    (-5, 3),
    (1, 2),
    (3, 2),
    (5, 2),
    (7, 2),
    (-1, 2),
    (-3, 2),
    (-5, 2),
    (-7, 2),
    (249_999_999_999, 100_000_000_000),
    (250_000_000_000, 100_000_000_000),
    (250_000_000_001, 100_000_000_000),
    (349_999_999_999, 100_000_000_000),
    (350_000_000_000, 100_000_000_000),
    (350_000_000_001, 100_000_000_000),
    (-250_000_000_001, 100_000_000_000),
    (-250_000_000_000, 100_000_000_000),
    (-249_999_999_999, 100_000_000_000),
    (-350_000_000_001, 100_000_000_000),
    (-350_000_000_000, 100_000_000_000),
    (-349_999_999_999, 100_000_000_000),
    (i64::MAX, 1),
    (i64::MIN, 1),
    (i64::MAX, 2),
    (i64::MIN, 2),
    (-9_223_372_036_854_775_807, 2),
    (9_223_372_036_854_775_805, 2),
    (-9_223_372_036_854_775_805, 2),
    (i64::MAX, 3),
    (i64::MIN, 3),
    (i64::MAX, i64::MAX),
    (i64::MIN, i64::MAX),
    (-9_223_372_036_854_775_807, i64::MAX),
    (9_223_372_036_854_775_806, i64::MAX),
    (-9_223_372_036_854_775_806, i64::MAX),
    (4_611_686_018_427_387_903, i64::MAX),
    (4_611_686_018_427_387_904, i64::MAX),
    (-4_611_686_018_427_387_903, i64::MAX),
    (-4_611_686_018_427_387_904, i64::MAX),
    (2_305_843_009_213_693_952, 4_611_686_018_427_387_904),
    (-2_305_843_009_213_693_952, 4_611_686_018_427_387_904),
    (6_917_529_027_641_081_856, 4_611_686_018_427_387_904),
    (-6_917_529_027_641_081_856, 4_611_686_018_427_387_904),
    (2_305_843_009_213_693_951, 4_611_686_018_427_387_904),
    (-2_305_843_009_213_693_953, 4_611_686_018_427_387_904),
];

// A row: x and d, quotient and remainder, x / d with a tie to the even number, and with a tie to the one farther from zero.
fn main(rt: HostRuntime) -> io::Result<()> {
    for (x, d) in ROWS {
        // A row without a positive divisor would be missing from the printout.
        if 0 < d {
            let division = integers::divided(x, d);
            let even = integers::rounded(x, d, Tie::Even);
            let away = integers::rounded(x, d, Tie::Away);
            println!(&rt;
                "{x} {d} {} {} {even} {away}",
                division.quotient, division.remainder
            )?;
        }
    }
    Ok(())
}
