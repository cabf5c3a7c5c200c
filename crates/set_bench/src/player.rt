// Plays the records of a file on a book that each call takes and hands back.
use crate::printing::{print_accounts, print_day, print_final, print_refused};
use crate::record::{Asked, TRADE, record_at, trades_of};
use calls::Call;
use dayfile::RecordError;
use figures::Found;
use ledger::Book;
use refusals::Refusal;
use std::io;

fn play_call(rt: &impl Print, book: &mut Book, call: Call, place: usize) -> io::Result<()> {
    let day = u64::from(book.figures.closed) + 1;
    let answer = book.step(call);
    *book = answer.book;
    match answer.outcome {
        Err(refusal) => print_refused(rt, refusal, place),
        Ok(Found::Fixing(fixing)) => print_day(rt, day, fixing),
        Ok(Found::Friday(friday)) => print_final(rt, friday),
        Ok(Found::Nothing) => match call {
            Call::Close => print_accounts(rt, &book.columns),
            _ => Ok(()),
        },
    }
}

fn play_set(
    rt: &(impl Print + AllocGlobal),
    book: &mut Book,
    bodies: &[[u8; TRADE]],
    place: usize,
) -> io::Result<()> {
    let trades = trades_of(rt.alloc(), bodies)?;
    let answer = book.trade_set(&trades);
    *book = answer.book;
    match answer.outcome {
        Err(refusal) => print_refused(rt, refusal, place),
        Ok(_) => Ok(()),
    }
}

fn play_record(
    rt: &(impl Print + AllocGlobal),
    book: &mut Book,
    asked: Result<Asked<'_>, RecordError>,
    place: usize,
) -> io::Result<()> {
    match asked {
        Ok(Asked::Call(call)) => play_call(rt, book, call, place),
        Ok(Asked::Set(bodies)) => play_set(rt, book, bodies, place),
        Ok(Asked::Nothing) => Ok(()),
        Err(error) => print_refused(rt, Refusal::from(error), place),
    }
}

// Plays the records of a file, which are no more than its bytes.
pub fn play(rt: &(impl Print + AllocGlobal), mut book: Book, file: &[u8]) -> io::Result<()> {
    let mut at = 0;
    for place in 1..=file.len() {
        let Some(record) = record_at(file, at) else {
            break;
        };
        play_record(rt, &mut book, record.asked, place)?;
        at = record.next;
    }
    Ok(())
}
