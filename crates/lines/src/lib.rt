// The lines of the printout, put into a window on it.
#![tactic(auto)]

ghost use Rattle.std.specs.Prelude.{◌≡◌};
ghost use Rattle.text.specs.Text.{Puts};
ghost use Rattle.columns.specs.Columns.{accounts};
ghost use Rattle.lines.specs.Lines.{refused_line, day_line, final_line, account_line, is_printed, printed_account, account_lines};

use columns::{ACCOUNTS, Account, Columns};
use figures::Fixing;
use text::Window;

// `number` is the refusal's: the definitions of the printout know refusals by number alone.
pub fn put_refused(window: &mut Window, number: u8, place: u64)
    ensures { Puts window.old (refused_line number place) window.new }
{
    window.put_number(b"refused ", number);
    window.put_number(b" record ", place);
    window.put(b"\n");
}

pub fn put_day(window: &mut Window, day: u64, fixing: Fixing)
    ensures { Puts window.old (day_line day fixing) window.new }
{
    window.put_number(b"day ", day);
    window.put_number(b" price ", fixing.price);
    window.put_number(b" rate ", fixing.rate);
    window.put_number(b" amount ", fixing.amount);
    window.put_number(b" valid ", fixing.valid);
    window.put(b"\n");
}

// `friday` is a day of the month.
pub fn put_final(window: &mut Window, friday: u8)
    ensures { Puts window.old (final_line friday) window.new }
{
    window.put_number(b"final ", friday);
    window.put(b"\n");
}

// An account's line has two of its five entries.
fn put_account(window: &mut Window, account: usize, entries: Account)
    ensures { Puts window.old (account_line account entries.position entries.cash) window.new }
{
    window.put_number(b"acct ", account);
    window.put_number(b" net ", entries.position);
    window.put_number(b" cash ", entries.cash);
    window.put(b"\n");
}

// Whether a close prints an account.
fn is_printed(position: i64, cash: i64) -> bool
    ensures { result ≡ is_printed position cash }
{
    position != 0 || cash != 0
}

// The line of an account that is printed, nothing for another.
#[tactic(auto, using(text::proofs::Placing::puts_nothing))]
fn put_nonzero(window: &mut Window, account: usize, entries: Account)
    ensures { Puts window.old (printed_account account entries.position entries.cash) window.new }
{
    if is_printed(entries.position, entries.cash) {
        put_account(window, account, entries);
    }
}

// A line for each account that is printed.
pub fn put_accounts(window: &mut Window, columns: &Columns)
    ensures { Puts window.old (account_lines accounts columns.now.position columns.now.cash) window.new }
{
    for i in 0..ACCOUNTS {
        put_nonzero(window, i, columns.account(i));
    }
}
