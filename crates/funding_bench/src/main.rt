// funding-bench: reads a size and records from standard input and prints what they do. All that it prints is crate printout's; here
// it is written out, a part of it at a time.
#![tactic(auto)]

ghost use Rattle.std.specs.Prelude.{OnOk, IfSome};
ghost use Rattle.std.specs.Io.KnownBytes.{Appends};
ghost use Rattle.printout.specs.Printout.{printout};

use input_buffer::read_full;
use printout::MOST_INPUT;
use std::io;
use std::io::{Read, Write};

// The bytes of a printout that are written at a time. Each part plays the whole input anew, so it is as long as most printouts
// are; a longer one would only make the program's stack larger.
const PART: usize = 65_536;

// Writes the printout of an input, of any length. The parts are made one by one, so there is no text to cut into chunks.
fn print<W: Write>(out: &mut W, input: &[u8]) -> io::Result<()>
    ensures { OnOk result (Appends (W.contents out.old) (W.contents out.new) (printout input.now)) }
{
    let mut part = [0u8; PART];
    let mut from: usize = 0;
    loop {
        let length = printout::write(input, from, &mut part);
        let rest = length - from;
        if rest <= part.len() {
            return out.write_all(&part[..rest]);
        }
        out.write_all(&part)?;
        from += part.len();
    }
}

// Writes the printout of what a reader has. The input is an array and how much of it was read: this program uses no heap.
fn run<R: Read, W: Write>(mut reader: R, out: &mut W) -> io::Result<()>
where
    R: Drop,
    ensures { OnOk result (IfSome (R.remaining reader) (λ bytes.
        Appends (W.contents out.old) (W.contents out.new) (printout bytes))) }
{
    let mut input = [0u8; MOST_INPUT];
    let length = read_full(&mut reader, &mut input)?;
    print(out, &input[..length])
}

fn main(rt: HostRuntime) -> io::Result<()> {
    run(rt.stdin(), &mut io::writer(&rt))
}
