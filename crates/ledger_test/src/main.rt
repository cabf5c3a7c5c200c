// Drives every call, sets of trades and every refusal of the ledger, and prints what each answers. The cases are the lines of
// the file stdin, which says how they are written; the stored printout is worked out by hand from documents 01 and 02.
#![tactic(auto)]

mod book;
mod changes;
mod command;
mod draft;
mod figure;
mod numbers;
mod outcome;
mod player;
mod reports;
mod trades;

use input_buffer::read_full;
use player::Player;
use std::io;

// The bytes of the cases that are read.
const MOST_INPUT: usize = 131_072;

// A last line without its end is no case.
fn main(rt: HostRuntime) -> io::Result<()> {
    let mut input = [0; MOST_INPUT];
    let length = read_full(&mut rt.stdin(), &mut input)?;
    let mut player = Player::new();
    for line in input[..length].split_inclusive(|byte| *byte == b'\n') {
        if let Some(line) = line.strip_suffix(b"\n") {
            player.line(&rt, line)?;
        }
    }
    if length == MOST_INPUT {
        rt.println("the cases are cut off")?;
    }
    Ok(())
}
