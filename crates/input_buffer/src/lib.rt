// Reading into a buffer of a fixed size, with no heap: what a program does that counts only so many bytes of its input.
#![tactic(auto)]

ghost use Rattle.std.specs.Prelude.{◌≡◌, ◌≤◌, length, take, IfOk, IfSome};
ghost use Rattle.std.specs.Io.KnownBytes.{Consumes};

use std::io;
use std::io::Read;

// Reads until the buffer is full or the reader has no more, and answers how many bytes it read. std's `read_exact` refuses an
// input that ends before the buffer does, and `read_to_end` needs a heap.
pub fn read_full<R: Read>(reader: &mut R, buffer: &mut [u8]) -> io::Result<usize>
    ensures within { IfOk result (λ n. n ≤ length buffer.new) }
    ensures bytes { IfSome (R.remaining reader.old) (λ bytes. IfOk result (λ n.
        take n buffer.new ≡ take (length buffer.new) bytes)) }

    // What the reader has left.
    ensures rest { IfOk result (λ n.
        Consumes (R.remaining reader.old) (R.remaining reader.new) (take n buffer.new)) }
{
    let mut count = 0;
    while count < buffer.len() {
        match reader.read(&mut buffer[count..])? {
            0 => break,
            n => count += n,
        }
    }
    Ok(count)
}

#[cfg(test)]
mod tests;
