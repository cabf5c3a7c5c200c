// What a case asks for.
use crate::numbers::{Numbers, name_of};
use calls::{Call, Kind, TimedQuote, Trade};
use expiry::Month;
use funding::market::Market;

#[derive(Clone, Copy)]
pub enum Command<'a> {
    Call(Call),
    // the trades of a case, as they stand there: as a set, or one by one
    Set(&'a [u8]),
    Trades(&'a [u8]),
    Opening(u32),
    MinuteEnds { index: u32, count: u64 },
    // the lengths of the lists
    Report { positions: u64, cash: u64 },
    Products,
    // the numbers that the calls come to, where a case names none
    Row,
}

// The trade of a row, by itself and as a set.
pub const ROW_TRADE: Trade = Trade {
    buyer: 1,
    seller: 2,
    kind: Kind::Simple,
    quantity: 1,
    price: 200_200,
};
// The calls of a row. A set and a report come after them.
pub const ROW: [Call; 11] = [
    Call::Quote(Market {
        bid: 200_100,
        offer: 200_300,
    }),
    Call::Trade(ROW_TRADE),
    Call::Halt,
    Call::Resume,
    Call::MinuteEnd(200_000),
    Call::Fix(200_200),
    Call::Close,
    Call::DayLength(1_140),
    Call::TimedQuote(TimedQuote {
        time: 30_000,
        market: Market {
            bid: 200_100,
            offer: 200_300,
        },
    }),
    Call::FinalDate(Month {
        year: 2_035,
        month: 10,
    }),
    Call::FinalFix(200_200),
];

pub fn trade(numbers: &Numbers) -> Trade {
    Trade {
        buyer: numbers.at(0).as_u16(),
        seller: numbers.at(1).as_u16(),
        kind: Kind::from(numbers.at(2).as_u8()),
        quantity: numbers.at(3).as_u32(),
        price: numbers.at(4).as_u32(),
    }
}

// The call of this name.
fn call(name: &str, numbers: &Numbers) -> Option<Call> {
    let first = numbers.at(0);
    let second = numbers.at(1);
    Some(match name {
        "quote" => Call::Quote(first.as_market()),
        "trade" => Call::Trade(trade(numbers)),
        "halt" => Call::Halt,
        "resume" => Call::Resume,
        "minute end" => Call::MinuteEnd(first.as_u32()),
        "fix" => Call::Fix(first.as_u32()),
        "close" => Call::Close,
        "day length" => Call::DayLength(first.as_u32()),
        "timed quote" => Call::TimedQuote(TimedQuote {
            time: first.as_u32(),
            market: second.as_market(),
        }),
        "final date" => Call::FinalDate(Month {
            year: first.as_u16(),
            month: second.as_u8(),
        }),
        "final fix" => Call::FinalFix(first.as_u32()),
        _ => return None,
    })
}

// What stands after the last colon of a case and the byte behind it.
fn call_of(case: &[u8]) -> &[u8] {
    match case.iter().rposition(|byte| *byte == b':') {
        Some(colon) => case.get(colon + 2..).unwrap_or_default(),
        None => case,
    }
}

impl<'a> Command<'a> {
    // A name that is no text is none of these, as any other that isn't there.
    pub fn of(case: &'a [u8]) -> Self {
        let text = call_of(case);
        let name = name_of(text);
        let list = text.strip_prefix(name).unwrap_or_default();
        let name = str::from_utf8(name).unwrap_or_default();
        let numbers = Numbers::of(text);
        if let Some(call) = call(name, &numbers) {
            return Command::Call(call);
        }
        match name {
            "set" => Command::Set(list),
            "trades" => Command::Trades(list),
            "opening" => Command::Opening(numbers.at(0).as_u32()),
            "minute ends of" => Command::MinuteEnds {
                index: numbers.at(0).as_u32(),
                count: numbers.at(1).as_u64(),
            },
            "report to" => Command::Report {
                positions: numbers.at(0).as_u64(),
                cash: numbers.at(1).as_u64(),
            },
            "products" => Command::Products,
            _ => Command::Row,
        }
    }
}
