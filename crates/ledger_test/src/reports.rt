// Reports to lists of the right length and of others.
use crate::outcome::report;
use ledger::Book;
use std::io;

// What the lists hold before.
const BEFORE: i64 = -777;
// The longest list: the cases have one of 7 times 256 entries.
const LONGEST: usize = 1_792;

// The entries that aren't 0; after a refusal those that aren't as before, and that the list is unchanged.
fn print_list(rt: &impl Print, name: &str, list: &[i64], is_refused: bool) -> io::Result<()> {
    print!(rt; "; {name}")?;
    let usual = if is_refused { BEFORE } else { 0 };
    for (i, entry) in list.iter().enumerate() {
        if *entry != usual {
            print!(rt; " {i}={entry}")?;
        }
    }
    if is_refused {
        rt.print(" unchanged")?;
    }
    Ok(())
}

// A report to two lists of these lengths: its outcome and the lists. There is none to a longer list.
pub fn print(rt: &impl Print, book: &Book, positions: u64, cash: u64) -> io::Result<()> {
    let mut position_list = [BEFORE; LONGEST];
    let mut cash_list = [BEFORE; LONGEST];
    let Some(positions) = position_list.get_mut(..positions as usize) else {
        return Ok(());
    };
    let Some(cash) = cash_list.get_mut(..cash as usize) else {
        return Ok(());
    };
    let outcome = report(book, positions, cash);
    print!(rt; ": {outcome}")?;
    print_list(rt, "positions", positions, outcome.is_refused())?;
    print_list(rt, "cash", cash, outcome.is_refused())
}
