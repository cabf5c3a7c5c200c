// set-bench: reads a size and records from standard input and prints what funding-bench prints of them. Here each call takes the book
// and hands it back, and a record of tag 250 is a set of trades, which no day file has: its body is any number of bodies of tag 10.
// `day.txt` beside src/ is the day of the stored input, and says how its printout is worked out.
#![tactic(auto)]

mod player;
mod printing;
mod record;

use input_buffer::read_full;
use ledger::Book;
use std::io;

// The bytes of an input that count, its size byte included.
const MOST_INPUT: usize = 65_536;

// A missing size counts as 0, as document 01 has it.
fn run(rt: &(impl Print + AllocGlobal), input: &[u8]) -> io::Result<()> {
    let (size, file) = match input.split_first() {
        Some((size, file)) => (*size, file),
        None => (0, input),
    };
    let opened = Book::opening(u32::from(size));
    match opened.outcome {
        Ok(_) => player::play(rt, opened.book, file)?,
        Err(refusal) => printing::print_refused(rt, refusal, 0)?,
    }
    println!(rt; "end")
}

fn main(rt: HostRuntime) -> io::Result<()> {
    let mut input = [0u8; MOST_INPUT];
    let length = read_full(&mut rt.stdin(), &mut input)?;
    run(&rt, &input[..length])
}
