// Text put piece by piece into a window: a buffer that lies over a longer text from an offset on.
#![tactic(auto)]

ghost use Rattle.std.specs.Prelude.{◌≡◌, ◌++◌};
ghost use Rattle.text.specs.Text.{over, Puts};

use itoa::{Buffer, Integer};

// What is put goes on at a place of the text, and the bytes at places outside the buffer are passed over.
// No `write!`: tried, and no clause of `fmt` says that a writer that never fails gets an `Ok`, so the proof didn't close.
#[derive(Drop)]
pub struct Window<'a> {
    // the buffer
    pub out: &'a mut [u8],
    // the place of its first byte
    pub from: usize,
    // where the text goes on
    pub at: usize,
}

// Copies as much of a text as fits over the front of a buffer, which is lent, since no heap is used. It goes byte by byte: the compiler
// can't tell that the two lie apart, and calls `memmove` for `copy_from_slice`, which a program in C need not have.
fn copy_over(text: &[u8], out: &mut [u8])
    ensures { out.new ≡ over text.now out.old }
{
    for i in 0..text.len().min(out.len()) {
        out[i] = text[i];
    }
}

impl Window<'_> {
    // Puts bytes of the text.
    pub fn put(&mut self, bytes: &[u8])
        ensures { Puts self.old bytes.now self.new }
    {
        let passed = self.from.saturating_sub(self.at).min(bytes.len());
        let start = self.at.saturating_sub(self.from).min(self.out.len());
        copy_over(&bytes[passed..], &mut self.out[start..]);
        self.at = self.at.saturating_add(bytes.len());
    }

    // Puts a label and a number after it, in decimal.
    #[tactic(auto, using(std::proofs::lemmas::Grind::common_steps, crate::proofs::Placing::placed_append))]
    pub fn put_number<N: Integer>(&mut self, label: &[u8], number: N)
        ensures { Puts self.old (label.now ++ N.text number) self.new }
    {
        self.put(label);
        self.put(Buffer::new().format(number).as_bytes());
    }
}
