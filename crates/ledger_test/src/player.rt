// Plays the cases, line by line.
use crate::book::empty_book;
use crate::command::{Command, ROW, ROW_TRADE};
use crate::draft::Draft;
use crate::numbers::Numbers;
use crate::outcome::{Outcome, answer_to, report};
use crate::trades::{Repeated, Set};
use crate::{changes, reports};
use columns::ACCOUNTS;
use figures::product::Product;
use ledger::{Answer, Book};
use std::io;

// A line of fields, each with a bar behind it. What stands before the first bar is no field.
#[derive(Clone, Copy)]
struct List<'a> {
    line: &'a [u8],
    is_for_one_case: bool,
}

#[derive(Clone, Copy)]
pub struct Player<'a> {
    book: Book,
    // By which each case's book is made; without one a case is played on the book after the last case.
    list: Option<List<'a>>,
}

// Whether refused calls hand the same book back.
fn sameness(is_same: bool) -> &'static str {
    if is_same {
        ", same book"
    } else {
        ", BOOK CHANGED"
    }
}

fn products(rt: &impl Print) -> io::Result<()> {
    print!(rt;
        " of size {} and {}, clamp {}, spread limit {}",
        Product::hundredth().size,
        Product::tenth().size,
        Product::CLAMP,
        Product::SPREAD
    )
}

// Prints the number of an answer, and says whether a refused call hands the same book back.
fn print_number(rt: &impl Print, book: &Book, answer: &Answer) -> io::Result<bool> {
    let outcome = Outcome(answer.outcome);
    print!(rt; " {}", outcome.number())?;
    Ok(!outcome.is_refused() || changes::is_same(book, &answer.book))
}

// The numbers that the calls of a row come to on this book, and whether the refused ones hand the same book back.
fn row(rt: &impl Print, book: Book) -> io::Result<()> {
    rt.print(":")?;
    let mut is_same = true;
    for call in ROW {
        is_same &= print_number(rt, &book, &answer_to(book, call))?;
    }
    is_same &= print_number(rt, &book, &book.trade_set(&[ROW_TRADE]))?;
    let reported = report(&book, &mut [0; ACCOUNTS], &mut [0; ACCOUNTS]);
    print!(rt; " {}{}", reported.number(), sameness(is_same))
}

impl<'a> Player<'a> {
    pub fn new() -> Self {
        Self {
            book: empty_book(),
            list: None,
        }
    }

    pub fn line(&mut self, rt: &impl Print, line: &'a [u8]) -> io::Result<()> {
        match line.first() {
            None | Some(b'#') => {}
            Some(b'-') => {
                rt.write_all(line)?;
                println!(rt)?;
            }
            Some(b'|' | b'>') => {
                self.list = Some(List {
                    line,
                    is_for_one_case: line.starts_with(b">"),
                });
            }
            Some(_) => self.case(rt, line)?,
        }
        Ok(())
    }

    fn make_book(&mut self, rt: &impl Print, list: &[u8], case: &[u8]) -> io::Result<()> {
        let mut draft = Draft::new();
        let numbers = Numbers::of(case);
        for field in list.split_inclusive(|byte| *byte == b'|').skip(1) {
            match field.strip_suffix(b"|") {
                None | Some(b"") => {}
                Some(item) => draft.set_named(rt, item, &numbers)?,
            }
        }
        self.book = draft.book;
        Ok(())
    }

    fn case(&mut self, rt: &impl Print, line: &[u8]) -> io::Result<()> {
        rt.write_all(line)?;
        if let Some(list) = self.list {
            self.make_book(rt, list.line, line)?;
            if list.is_for_one_case {
                self.list = None;
            }
        }
        self.play(rt, Command::of(line))?;
        println!(rt)
    }

    fn play(&mut self, rt: &impl Print, command: Command<'_>) -> io::Result<()> {
        match command {
            Command::Call(call) => self.take(rt, answer_to(self.book, call)),
            Command::Set(list) => self.take(rt, self.book.trade_set(Set::of(list).trades())),
            Command::Trades(list) => self.trade_singly(rt, list),
            Command::Opening(size) => self.take(rt, Book::opening(size)),
            Command::MinuteEnds { index, count } => self.end_minutes(rt, index, count),
            Command::Report { positions, cash } => reports::print(rt, &self.book, positions, cash),
            Command::Products => products(rt),
            Command::Row => row(rt, self.book),
        }
    }

    // Prints an answer and what it changed in the book, and goes on with its book.
    fn take(&mut self, rt: &impl Print, answer: Answer) -> io::Result<()> {
        let outcome = Outcome(answer.outcome);
        print!(rt; ": {outcome}")?;
        changes::print(rt, &self.book, &answer.book)?;
        if outcome.is_refused() {
            rt.print(sameness(changes::is_same(&self.book, &answer.book)))?;
        }
        self.book = answer.book;
        Ok(())
    }

    fn trade_times(&mut self, rt: &impl Print, repeated: Repeated) -> io::Result<()> {
        for _ in 0..repeated.times {
            let answer = self.book.trade(repeated.trade);
            print!(rt; " {}", Outcome(answer.outcome).number())?;
            self.book = answer.book;
        }
        Ok(())
    }

    // Prints the numbers of trades that come one after another, and what they change together.
    fn trade_singly(&mut self, rt: &impl Print, list: &[u8]) -> io::Result<()> {
        let before = self.book;
        rt.print(":")?;
        for item in list.split_inclusive(|byte| *byte == b',') {
            self.trade_times(rt, Repeated::of(item))?;
        }
        changes::print(rt, &before, &self.book)
    }

    fn end_minutes(&mut self, rt: &impl Print, index: u32, count: u64) -> io::Result<()> {
        let before = self.book;
        for _ in 0..count {
            self.book = self.book.minute_end(index).book;
        }
        changes::print(rt, &before, &self.book)
    }
}
