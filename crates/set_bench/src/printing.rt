// The lines of the printout, as funding-bench has them.
use columns::{ACCOUNTS, Columns};
use figures::Fixing;
use refusals::Refusal;
use std::io;

pub fn print_refused(rt: &impl Print, refusal: Refusal, place: usize) -> io::Result<()> {
    println!(rt; "refused {} record {place}", u8::from(refusal))
}

pub fn print_day(rt: &impl Print, day: u64, fixing: Fixing) -> io::Result<()> {
    println!(rt;
        "day {day} price {} rate {} amount {} valid {}",
        fixing.price, fixing.rate, fixing.amount, fixing.valid
    )
}

pub fn print_final(rt: &impl Print, friday: u8) -> io::Result<()> {
    println!(rt; "final {friday}")
}

// A line for each account that has a position or cash.
pub fn print_accounts(rt: &impl Print, columns: &Columns) -> io::Result<()> {
    for i in 0..ACCOUNTS {
        let account = columns.account(i);
        if account.position != 0 || account.cash != 0 {
            println!(rt; "acct {i} net {} cash {}", account.position, account.cash)?;
        }
    }
    Ok(())
}
