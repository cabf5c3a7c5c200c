// trade-bench: a million trades on a book that each call takes and hands back, for benchmarks/run to time: one by one, or, with the
// argument `sets`, as sets of 500. It prints how many were accepted: all of them.
#![tactic(auto)]

use calls::{Kind, MOST_TRADES, Trade};
use figures::product::Product;
use ledger::Book;
use std::{array, env, io};

const TRADES: u64 = 1_000_000;

const SET: u64 = MOST_TRADES as u64;

const SETS: u64 = TRADES / SET;

// One contract goes from account 0 to account 1 and back, so that no limit is met.
fn trade_at(place: u64) -> Trade {
    let (buyer, seller) = if place % 2 == 0 { (1, 0) } else { (0, 1) };
    Trade {
        buyer,
        seller,
        kind: Kind::Simple,
        quantity: 1,
        price: 200_200,
    }
}

fn fresh() -> Book {
    Book::opening(Product::hundredth().size).book
}

// How many of the trades a book accepts.
fn play(mut book: Book) -> u64 {
    let mut accepted = 0;
    for place in 0..TRADES {
        let answer = book.trade(trade_at(place));
        accepted += u64::from(answer.outcome.is_ok());
        book = answer.book;
    }
    accepted
}

// The same trades in sets of as many as a set may have. That number is even, so that the trades of each set are those of the first.
fn play_sets(mut book: Book) -> u64 {
    let trades: [Trade; MOST_TRADES] = array::from_fn(|place| trade_at(place as u64));
    let mut accepted = 0;
    for _ in 0..SETS {
        let answer = book.trade_set(&trades);
        accepted += u64::from(answer.outcome.is_ok());
        book = answer.book;
    }
    accepted * SET
}

// Any other argument, or one that can't be read, is as none.
fn main(rt: HostRuntime) -> io::Result<()> {
    let are_sets = match env::args(&rt) {
        Ok(mut words) => words.nth(1).is_some_and(|word| word.as_str() == "sets"),
        Err(_) => false,
    };
    let accepted = if are_sets {
        play_sets(fresh())
    } else {
        play(fresh())
    };
    println!(rt; "{accepted}")
}
