// The whole printout of `funding-bench`, from the bytes of its input to the bytes of its text.
#![tactic(auto)]

ghost use Rattle.std.specs.Prelude.{◌≡◌, ◌≤◌, length, drop};
ghost use Rattle.text.specs.Text.{Puts, over};
ghost use Rattle.dayfile.specs.Calls.{records_of};
ghost use Rattle.printout.specs.Printout.{most_input, text_of, after_records, printout_of, printout_of_counted, printout};

use columns::Columns;
use dayfile::read_record;
use ledger::checked::CheckedBook;
use lines::{put_accounts, put_day, put_final, put_refused};
use playing::{Printed, play_record};
use text::Window;

// The bytes of an input that count, its size byte included.
pub const MOST_INPUT: usize = 65_536;

// The lines of one record, with the columns after it.
fn put_printed(window: &mut Window, printed: Option<Printed>, columns: &Columns)
    ensures { Puts window.old (text_of printed columns.now) window.new }
{
    match printed {
        Some(Printed::Refused { number, place }) => put_refused(window, number, place),
        Some(Printed::Day { day, fixing }) => put_day(window, day, fixing),
        Some(Printed::Final(friday)) => put_final(window, friday),
        Some(Printed::Accounts) => put_accounts(window, columns),
        None => {}
    }
}

// Here and in two functions below the length of the file is required, so that records can be counted: `write` alone knows it.
// The lines of the records of a file.
fn put_records(window: &mut Window, book: &mut CheckedBook, file: &[u8])
    requires { length file.now ≤ most_input }
    ensures { Puts window.old (after_records book.old.book 1 (records_of file.now)).text window.new }
{
    // No iterator of records: it would keep the place of the next one just as this loop does.
    let mut start: usize = 0;
    let mut place: u64 = 1;
    while let Some(read) = read_record(file, start) {
        let printed = play_record(book, read.call, place);
        put_printed(window, printed, &book.book.columns);
        start = read.next;
        place += 1;
    }
}

// The printout of a size and the records of a file. A refused size is printed as record 0, as document 01 has it.
fn put_printout(window: &mut Window, size: u8, file: &[u8])
    requires { length file.now ≤ most_input }
    ensures { Puts window.old (printout_of size file.now) window.new }
{
    match CheckedBook::opening(u32::from(size)) {
        Ok(mut book) => put_records(window, &mut book, file),
        Err(refusal) => put_refused(window, u8::from(refusal), 0),
    }
    window.put(b"end\n");
}

// The printout of an input all of which counts. A missing size counts as 0, as document 01 has it.
fn put_counted(window: &mut Window, input: &[u8])
    requires { length input.now ≤ most_input }
    ensures { Puts window.old (printout_of_counted input.now) window.new }
{
    match input.split_first() {
        Some((size, file)) => put_printout(window, *size, file),
        None => put_printout(window, 0, input),
    }
}

// Writes the part of an input's printout from an offset on that fits the buffer, leaves the rest of the buffer as it is, and
// answers the length of the whole printout. The buffer is lent: C calls this through crate host_printout, and no heap is used.
pub fn write(input: &[u8], from: usize, out: &mut [u8]) -> usize
    ensures length { result ≡ length (printout input.now) }
    ensures text { out.new ≡ over (drop from (printout input.now)) out.old }
{
    let counted = MOST_INPUT.min(input.len());
    let mut window = Window { out, from, at: 0 };
    put_counted(&mut window, &input[..counted]);
    window.at
}
