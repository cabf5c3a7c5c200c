// The records that most of a file is: quotes, timed or not, minute ends and trades of both tags.
ghost use Rattle.std.specs.Prelude.{◌≡◌, cond, ◌∷◌, [], ◌+◌, ◌≤◌, length};
ghost use Rattle.tags.specs.declared.Tag.{Tag as Tag·Tag};
ghost use Rattle.tags.specs.declared.Tag.TheVariants.{MinuteEnd, Quote, TimedQuote, Trade, TwoByteTrade};
ghost use Rattle.tags.specs.Tags.{body_length};
ghost use Rattle.bodies.specs.Body.{call_of};
ghost use Rattle.records.specs.Run.{run_over};

use bodies::{four_bytes, quote_at, timed_quote_at, trade_at, two_byte_trade_at};
use ledger::checked::CheckedBook;
use tags::Tag;

// Records of one tag.
pub trait Frequent {
    ghost tag: { Tag·Tag };

    fn tag() -> Tag
        ensures { result ≡ tag };

    // Makes the call of a record whose body starts here, and answers whether it was accepted. File and body are two values, as in
    // crate bodies.
    fn play(book: &mut CheckedBook, file: &[u8], body: usize) -> bool
        requires { body + body_length tag ≤ length file.now }
        ensures { record { accepted = cond result 1 0; book = book.new.book }
            ≡ run_over book.old.book (call_of file.now tag body ∷ []) };
}

pub struct Quotes;

impl Frequent for Quotes {
    ghost tag = { Quote };

    fn tag() -> Tag {
        Tag::Quote
    }

    fn play(book: &mut CheckedBook, file: &[u8], body: usize) -> bool {
        book.quote(quote_at(file, body)).is_ok()
    }
}

pub struct TimedQuotes;

impl Frequent for TimedQuotes {
    ghost tag = { TimedQuote };

    fn tag() -> Tag {
        Tag::TimedQuote
    }

    fn play(book: &mut CheckedBook, file: &[u8], body: usize) -> bool {
        book.timed_quote(timed_quote_at(file, body)).is_ok()
    }
}

pub struct MinuteEnds;

impl Frequent for MinuteEnds {
    ghost tag = { MinuteEnd };

    fn tag() -> Tag {
        Tag::MinuteEnd
    }

    fn play(book: &mut CheckedBook, file: &[u8], body: usize) -> bool {
        book.minute_end(four_bytes(file, body)).is_ok()
    }
}

pub struct Trades;

impl Frequent for Trades {
    ghost tag = { Trade };

    fn tag() -> Tag {
        Tag::Trade
    }

    fn play(book: &mut CheckedBook, file: &[u8], body: usize) -> bool {
        book.trade(trade_at(file, body)).is_ok()
    }
}

pub struct TwoByteTrades;

impl Frequent for TwoByteTrades {
    ghost tag = { TwoByteTrade };

    fn tag() -> Tag {
        Tag::TwoByteTrade
    }

    fn play(book: &mut CheckedBook, file: &[u8], body: usize) -> bool {
        book.trade(two_byte_trade_at(file, body)).is_ok()
    }
}
