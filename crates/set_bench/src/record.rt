// The records of a day file, and sets beside them.
use bodies::two_byte_trade_at;
use calls::{Call, Trade};
use dayfile::{HEAD, RecordError, read_record};
use std::alloc::{AllocError, Global};

// The tag of a set, and the bytes of a trade in its body.
const SET: u8 = 250;

pub const TRADE: usize = 13;

// What a record asks for.
#[derive(Clone, Copy)]
pub enum Asked<'a> {
    Call(Call),
    // the bodies of its trades
    Set(&'a [[u8; TRADE]]),
    // of an unknown tag
    Nothing,
}

#[derive(Clone, Copy)]
pub struct Record<'a> {
    // the place of the next one
    pub next: usize,
    pub asked: Result<Asked<'a>, RecordError>,
}

// What a set with this body asks for: its length is that of whole trades.
fn set_of(body: &[u8]) -> Result<Asked<'_>, RecordError> {
    let (trades, rest) = body.as_chunks::<TRADE>();
    if rest.is_empty() {
        Ok(Asked::Set(trades))
    } else {
        Err(RecordError::WrongLength)
    }
}

// The record at a place of a file, none where nothing is left. A set's tag is unknown to `read_record`, which tells where it ends.
pub fn record_at(file: &[u8], at: usize) -> Option<Record<'_>> {
    let read = read_record(file, at)?;
    let asked = match read.call {
        Ok(Some(call)) => Ok(Asked::Call(call)),
        Ok(None) if file[at] == SET => set_of(&file[at + HEAD..read.next]),
        Ok(None) => Ok(Asked::Nothing),
        Err(error) => Err(error),
    };
    Some(Record {
        next: read.next,
        asked,
    })
}

pub fn trades_of(alloc: Global, bodies: &[[u8; TRADE]]) -> Result<Vec<Trade>, AllocError> {
    let mut trades = Vec::new(alloc);
    for body in bodies {
        trades.push(two_byte_trade_at(body, 0))?;
    }
    Ok(trades)
}
