// The run of a book over the records of a day file.
#![tactic(auto)]

ghost use Rattle.std.specs.Prelude.{◌≡◌, cond, [], ◌≤◌, length};
ghost use Rattle.dayfile.specs.Calls.{calls_of, called};
ghost use Rattle.records.specs.Run.{run_over, Running};

use calls::Call;
use dayfile::{HEAD, RecordError, is_record_at, read_record};
use frequent::{Frequent, MinuteEnds, Quotes, TimedQuotes, Trades, TwoByteTrades};
use ledger::checked::CheckedBook;
use tags::Tag;

mod frequent;

// What a part of a run has come to: the records accepted, and the place of the next one.
#[derive(Clone, Copy)]
struct Progress {
    accepted: u64,
    at: usize,
}

// Plays the records of one tag that follow one another from a place on. The first one's test stands before the loop, so that what the
// compiler works out before a loop is left out with it.
fn play_all<F: Frequent>(book: &mut CheckedBook, file: &[u8], from: Progress) -> Progress
    requires { (from.accepted ≤ from.at) × (from.at ≤ length file.now) }
    ensures { Running file.now book.old.book from.accepted from.at book.new.book result.accepted result.at }
{
    if !is_record_at(file, from.at, F::tag()) {
        return from;
    }
    let Progress {
        mut accepted,
        mut at,
    } = from;
    // No iterator: the next part begins where this one stops.
    loop {
        let body = at + HEAD;
        accepted += u64::from(F::play(book, file, body));
        at = body + F::tag().body_length();
        if !is_record_at(file, at, F::tag()) {
            return Progress { accepted, at };
        }
    }
}

// Plays the records of the frequent tag that stands at a place, if one does.
fn play_next(book: &mut CheckedBook, file: &[u8], from: Progress) -> Progress
    requires { (from.accepted ≤ from.at) × (from.at ≤ length file.now) }
    ensures { Running file.now book.old.book from.accepted from.at book.new.book result.accepted result.at }
{
    if file.len() <= from.at {
        return from;
    }
    match Tag::try_from(file[from.at]) {
        Ok(Tag::MinuteEnd) => play_all::<MinuteEnds>(book, file, from),
        Ok(Tag::TwoByteTrade) => play_all::<TwoByteTrades>(book, file, from),
        Ok(Tag::Trade) => play_all::<Trades>(book, file, from),
        Ok(Tag::Quote) => play_all::<Quotes>(book, file, from),
        Ok(Tag::TimedQuote) => play_all::<TimedQuotes>(book, file, from),
        _ => from,
    }
}

// Plays the records of the frequent tags that follow one another from a place on, in any order.
fn play_frequent(book: &mut CheckedBook, file: &[u8], from: Progress) -> Progress
    requires { (from.accepted ≤ from.at) × (from.at ≤ length file.now) }
    ensures { Running file.now book.old.book from.accepted from.at book.new.book result.accepted result.at }
{
    let mut progress = from;
    loop {
        let next = play_next(book, file, progress);
        if next.at == progress.at {
            return next;
        }
        progress = next;
    }
}

// Makes a record's call, if it has one, and answers whether it was accepted.
fn play(book: &mut CheckedBook, call: Result<Option<Call>, RecordError>) -> bool
    ensures { record { accepted = cond result 1 0; book = book.new.book } ≡ run_over book.old.book (called call []) }
{
    match call {
        Ok(Some(call)) => book.step(call).is_ok(),
        Ok(None) => false,
        Err(_) => false,
    }
}

// Runs a book over the records of a file, and answers how many it accepted. Quotes, minute ends and trades, which most records are, are
// played by loops of their own, in which the machine has few numbers to keep.
pub fn run(book: &mut CheckedBook, file: &[u8]) -> u64
    ensures { record { accepted = result; book = book.new.book } ≡ run_over book.old.book (calls_of file.now) }
{
    let mut progress = Progress { accepted: 0, at: 0 };
    // No iterator here either: the loops above go on from the same place.
    while let Some(read) = read_record(file, progress.at) {
        let accepted = progress.accepted + u64::from(play(book, read.call));
        let after = Progress {
            accepted,
            at: read.next,
        };
        progress = play_frequent(book, file, after);
    }
    progress.accepted
}
