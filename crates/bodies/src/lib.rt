// The calls that the bodies of records bring.
#![tactic(auto)]

ghost use Rattle.std.specs.Prelude.{◌≡◌, ◌+◌, ◌≤◌, length};
ghost use Rattle.tags.specs.Tags.{body_length};
ghost use Rattle.bodies.specs.Body.{two_bytes, four_bytes, trade_between, trade_at, two_byte_trade_at, quote_at, timed_quote_at, month_at, call_of};

use calls::{Call, Kind, TimedQuote, Trade};
use expiry::Month;
use funding::market::Market;
use tags::Tag;

// Here and in the crates that read a file, a file and a place in it are two values: the definitions count places from the file's
// start, which a slice of what is left would lose, and a struct of both would only be taken apart in each function.
// Numbers of two and of four bytes, which are required to lie within the file, as each body below is, whatever its length. They are
// no one function over the width, which would be longer than these two.
pub fn two_bytes(file: &[u8], at: usize) -> u16
    requires { at + 2 ≤ length file.now }
    ensures { result ≡ two_bytes file.now at }
{
    u16::from_be_bytes([file[at], file[at + 1]])
}

pub fn four_bytes(file: &[u8], at: usize) -> u32
    requires { at + 4 ≤ length file.now }
    ensures { result ≡ four_bytes file.now at }
{
    u32::from_be_bytes([file[at], file[at + 1], file[at + 2], file[at + 3]])
}

// The trade between two accounts whose kind, quantity and price start at a place.
fn trade_between(file: &[u8], buyer: u16, seller: u16, at: usize) -> Trade
    requires { at + 9 ≤ length file.now }
    ensures { result ≡ trade_between file.now buyer seller at }
{
    Trade {
        buyer,
        seller,
        kind: Kind::from(file[at]),
        quantity: four_bytes(file, at + 1),
        price: four_bytes(file, at + 5),
    }
}

pub fn trade_at(file: &[u8], body: usize) -> Trade
    requires { body + 11 ≤ length file.now }
    ensures { result ≡ trade_at file.now body }
{
    let buyer = u16::from(file[body]);
    let seller = u16::from(file[body + 1]);
    trade_between(file, buyer, seller, body + 2)
}

pub fn two_byte_trade_at(file: &[u8], body: usize) -> Trade
    requires { body + 13 ≤ length file.now }
    ensures { result ≡ two_byte_trade_at file.now body }
{
    // One number, whose halves are the two: `as`, each has two bytes, and `TryFrom` would have a branch that never comes.
    let accounts = four_bytes(file, body);
    let buyer = (accounts >> 16) as u16;
    let seller = (accounts & 0xffff) as u16;
    trade_between(file, buyer, seller, body + 4)
}

pub fn quote_at(file: &[u8], body: usize) -> Market
    requires { body + 8 ≤ length file.now }
    ensures { result ≡ quote_at file.now body }
{
    Market {
        bid: four_bytes(file, body),
        offer: four_bytes(file, body + 4),
    }
}

pub fn timed_quote_at(file: &[u8], body: usize) -> TimedQuote
    requires { body + 10 ≤ length file.now }
    ensures { result ≡ timed_quote_at file.now body }
{
    TimedQuote {
        time: u32::from(two_bytes(file, body)),
        market: quote_at(file, body + 2),
    }
}

fn month_at(file: &[u8], body: usize) -> Month
    requires { body + 3 ≤ length file.now }
    ensures { result ≡ month_at file.now body }
{
    Month {
        year: two_bytes(file, body),
        month: file[body + 2],
    }
}

// The call whose body, of its tag's length, starts at `body`.
pub fn call_of(file: &[u8], tag: Tag, body: usize) -> Call
    requires { body + body_length tag ≤ length file.now }
    ensures { result ≡ call_of file.now tag body }
{
    match tag {
        Tag::Trade => Call::Trade(trade_at(file, body)),
        Tag::Quote => Call::Quote(quote_at(file, body)),
        Tag::MinuteEnd => Call::MinuteEnd(four_bytes(file, body)),
        Tag::Halt => Call::Halt,
        Tag::Resume => Call::Resume,
        Tag::Fix => Call::Fix(four_bytes(file, body)),
        Tag::Close => Call::Close,
        Tag::DayLength => Call::DayLength(u32::from(two_bytes(file, body))),
        Tag::TimedQuote => Call::TimedQuote(timed_quote_at(file, body)),
        Tag::TwoByteTrade => Call::Trade(two_byte_trade_at(file, body)),
        Tag::FinalDate => Call::FinalDate(month_at(file, body)),
        Tag::FinalFix => Call::FinalFix(four_bytes(file, body)),
    }
}
