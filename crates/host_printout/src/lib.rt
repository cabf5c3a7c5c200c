// The printout of an input, a part of it at a time, for programs in C. It is compiled apart from the run: what two exported functions
// share, the compiler calls.
#![tactic(auto)]

ghost use Rattle.std.specs.Prelude.{◌≡◌, length, drop};
ghost use Rattle.text.specs.Text.{over};
ghost use Rattle.printout.specs.Printout.{printout};

// As `printout::write`, whose contract it has: a crate for C is a static library, on which funding-bench couldn't stand. A buffer in C
// is a pointer and a length (include/funding.h).
#[unsafe(no_mangle)]
pub extern "C" fn funding_printout(input: &[u8], from: usize, out: &mut [u8]) -> usize
    ensures length { result ≡ length (printout input.now) }
    ensures text { out.new ≡ over (drop from (printout input.now)) out.old }
{
    printout::write(input, from, out)
}
