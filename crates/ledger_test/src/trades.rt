// Lists of trades.
use crate::command::trade;
use crate::numbers::Numbers;
use calls::{MOST_TRADES, Trade};

// A set of one trade more is refused as any longer one is.
const LONGEST: usize = MOST_TRADES + 1;

// A trade of a list, and how often it comes there.
#[derive(Clone, Copy)]
pub struct Repeated {
    pub trade: Trade,
    pub times: u64,
}

impl Repeated {
    // Once without the word "times", and not at all where the number after it is negative.
    pub fn of(item: &[u8]) -> Self {
        let numbers = Numbers::of(item);
        let times = if item.windows(7).any(|part| part == b" times ".as_slice()) {
            u64::try_from(numbers.at(5).as_i64()).unwrap_or(0)
        } else {
            1
        };
        Self {
            trade: trade(&numbers),
            times,
        }
    }
}

// The trades of a set, as far as they are needed.
#[derive(Clone, Copy)]
pub struct Set {
    trades: [Trade; LONGEST],
    count: usize,
}

impl Set {
    pub fn of(list: &[u8]) -> Self {
        let mut set = Self {
            trades: [trade(&Numbers::of(b"")); LONGEST],
            count: 0,
        };
        for item in list.split_inclusive(|byte| *byte == b',') {
            set.push(Repeated::of(item));
        }
        set
    }

    fn push(&mut self, repeated: Repeated) {
        for _ in 0..repeated.times.min(LONGEST as u64) {
            if self.count < LONGEST {
                self.trades[self.count] = repeated.trade;
                self.count += 1;
            }
        }
    }

    pub fn trades(&self) -> &[Trade] {
        self.trades.get(..self.count).unwrap_or_default()
    }
}
