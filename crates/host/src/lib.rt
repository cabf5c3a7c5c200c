// The run of a fresh book over a day file, reported to two lists. Crate host_c hands it to C.
#![tactic(auto)]

ghost use Rattle.std.specs.Prelude.{◌≡◌, length};
ghost use Rattle.host.specs.Run.{accepted_records, reported_positions, reported_cash, FromBytes};

use columns::ACCOUNTS;
use ledger::checked::CheckedBook;

// Runs a fresh book of this size over a file, reports it to both lists and answers how many records were accepted. Where the
// size or a list is refused it answers 0, which document 01 asks for and C can take, and leaves both lists as they are. They are two,
// since in C each is a pointer and a length.
pub fn funding_run(size: u8, file: &[u8], positions: &mut [i64], cash: &mut [i64]) -> u64
    ensures number { result
        ≡ accepted_records size file.now (length positions.old) (length cash.old) }
    ensures positions { positions.new
        ≡ reported_positions size file.now positions.old (length cash.old) }
    ensures cash { cash.new
        ≡ reported_cash size file.now (length positions.old) cash.old }
    ensures history { FromBytes size file.now (length positions.old) (length cash.old)
        result positions.new cash.new }
{
    let Ok(mut checked) = CheckedBook::opening(u32::from(size)) else {
        return 0;
    };
    // No report by the book: the lists are looked at before the run, and the limits of this book are kept.
    if (positions.len() != ACCOUNTS) | (cash.len() != ACCOUNTS) {
        return 0;
    }
    let accepted = records::run(&mut checked, file);
    positions.copy_from_slice(&checked.book.columns.position);
    cash.copy_from_slice(&checked.book.columns.cash);
    accepted
}
