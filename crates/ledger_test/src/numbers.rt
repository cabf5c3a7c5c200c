// The numbers of a text and the name before them. Each number is 64 bits: a negative one is what 2^64 leaves of its size, and a
// market, as 200100/200300, is its bid times 2^32 and its offer.
use funding::market::Market;

// 2^32
const HALF: u64 = 4_294_967_296;
// How many numbers of a text count: the cases have lists of six fields without a number.
const MOST: usize = 6;

// A number, of which each field and call takes as much as it holds.
#[derive(Clone, Copy)]
pub struct Number(u64);

impl Number {
    pub fn as_u8(self) -> u8 {
        (self.0 % 256) as u8
    }

    pub fn as_u16(self) -> u16 {
        (self.0 % 65_536) as u16
    }

    pub fn as_u32(self) -> u32 {
        (self.0 % HALF) as u32
    }

    pub fn as_u64(self) -> u64 {
        self.0
    }

    pub fn as_i64(self) -> i64 {
        self.0.cast_signed()
    }

    pub fn as_flag(self) -> bool {
        self.as_u32() != 0
    }

    pub fn as_market(self) -> Market {
        Market {
            bid: (self.0 / HALF) as u32,
            offer: self.as_u32(),
        }
    }
}

// The first numbers of a text.
#[derive(Clone, Copy)]
pub struct Numbers {
    list: [u64; MOST],
    count: usize,
}

fn is_of_number(byte: u8) -> bool {
    matches!(byte, b'0'..=b'9' | b'/' | b'-')
}

// What digits, slashes and minus signs come to, wherever they stand. The remainder keeps the product with 10 within 64 bits.
fn value_of(word: &[u8]) -> u64 {
    let mut bid: u64 = 0;
    let mut digits: u64 = 0;
    let mut is_negative = false;
    for &byte in word {
        match byte {
            b'0'..=b'9' => {
                let digit = u64::from(byte - b'0');
                digits = (digits % 1_844_674_407_370_955_162 * 10).wrapping_add(digit);
            }
            b'/' => {
                bid = digits % HALF * HALF;
                digits = 0;
            }
            _ => is_negative = true,
        }
    }
    let value = bid.wrapping_add(digits);
    if is_negative {
        value.wrapping_neg()
    } else {
        value
    }
}

impl Numbers {
    pub fn of(text: &[u8]) -> Self {
        let mut numbers = Self {
            list: [0; MOST],
            count: 0,
        };
        for word in text.split(|byte| !is_of_number(*byte)) {
            if word.iter().any(u8::is_ascii_digit) {
                numbers.push(value_of(word));
            }
        }
        numbers
    }

    fn push(&mut self, value: u64) {
        if self.count < MOST {
            self.list[self.count] = value;
            self.count += 1;
        }
    }

    pub fn count(&self) -> usize {
        self.count
    }

    // The number at a place, 0 where the text has none.
    pub fn at(&self, place: usize) -> Number {
        Number(self.list.get(place).copied().unwrap_or(0))
    }
}

// What stands before the first number of a text, without the byte between.
pub fn name_of(text: &[u8]) -> &[u8] {
    let Some(digit) = text.iter().position(u8::is_ascii_digit) else {
        return text;
    };
    let before = &text[..digit];
    match before.iter().rposition(|byte| !is_of_number(*byte)) {
        Some(end) => &before[..end],
        None => b"",
    }
}
