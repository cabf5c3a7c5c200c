// The figures of a book, by their names.
use crate::numbers::Number;
use figures::Figures;
use funding::market::Market;

#[derive(Clone, Copy)]
pub enum Figure {
    Size,
    Closed,
    Halted,
    Expired,
    PreviousPrice,
    PreviousIndex,
    Minutes,
    Valid,
    Weighted,
    Market,
    MinuteMarket,
    Last,
    Contracts,
    Gross,
    Index,
    FixedPrice,
    FixedAmount,
    Length,
    Begun,
    LatestTime,
    Total,
    Sum,
}

#[derive(Clone, Copy, PartialEq, Eq)]
pub enum Value {
    Flag(bool),
    Number(i128),
    Market(Market),
}

impl Figure {
    // Each figure with its name, in the order in which changes are printed.
    pub const NAMED: [(Figure, &'static str); 22] = [
        (Figure::Size, "size"),
        (Figure::Closed, "closed days"),
        (Figure::Halted, "halted"),
        (Figure::Expired, "expired"),
        (Figure::PreviousPrice, "previous price"),
        (Figure::PreviousIndex, "previous index"),
        (Figure::Minutes, "minutes"),
        (Figure::Valid, "k"),
        (Figure::Weighted, "S"),
        (Figure::Market, "market"),
        (Figure::MinuteMarket, "minute's market"),
        (Figure::Last, "last"),
        (Figure::Contracts, "n"),
        (Figure::Gross, "gross"),
        (Figure::Index, "index"),
        (Figure::FixedPrice, "fixed price"),
        (Figure::FixedAmount, "fixed amount"),
        (Figure::Length, "length"),
        (Figure::Begun, "begun"),
        (Figure::LatestTime, "latest time"),
        (Figure::Total, "total"),
        (Figure::Sum, "sum"),
    ];

    pub fn of(self, figures: &Figures) -> Value {
        let day = figures.day;
        let number: i128 = match self {
            Figure::Halted => return Value::Flag(figures.halted),
            Figure::Expired => return Value::Flag(figures.expired),
            Figure::Begun => return Value::Flag(day.session.begun),
            Figure::Market => return Value::Market(day.markets.standing),
            Figure::MinuteMarket => return Value::Market(day.markets.minute),
            Figure::Size => figures.size.into(),
            Figure::Closed => figures.closed.into(),
            Figure::PreviousPrice => figures.previous.price.into(),
            Figure::PreviousIndex => figures.previous.index.into(),
            Figure::Minutes => day.minutes.ended.into(),
            Figure::Valid => day.minutes.valid.into(),
            Figure::Weighted => day.minutes.weighted.into(),
            Figure::Last => day.trades.last.into(),
            Figure::Contracts => day.trades.settling.contracts.into(),
            Figure::Gross => day.trades.settling.gross.into(),
            Figure::Index => day.minutes.index.into(),
            Figure::FixedPrice => day.fixed.price.into(),
            Figure::FixedAmount => day.fixed.amount.into(),
            Figure::Length => day.session.length.into(),
            Figure::LatestTime => day.timing.latest.into(),
            Figure::Total => day.timing.midpoints.total.into(),
            Figure::Sum => day.timing.midpoints.sum.into(),
        };
        Value::Number(number)
    }

    pub fn set(self, figures: &mut Figures, number: Number) {
        let day = &mut figures.day;
        match self {
            Figure::Size => figures.size = number.as_u32(),
            Figure::Closed => figures.closed = number.as_u32(),
            Figure::Halted => figures.halted = number.as_flag(),
            Figure::Expired => figures.expired = number.as_flag(),
            Figure::PreviousPrice => figures.previous.price = number.as_u32(),
            Figure::PreviousIndex => figures.previous.index = number.as_u32(),
            Figure::Minutes => day.minutes.ended = number.as_u32(),
            Figure::Valid => day.minutes.valid = number.as_u32(),
            Figure::Weighted => day.minutes.weighted = number.as_i64(),
            Figure::Market => day.markets.standing = number.as_market(),
            Figure::MinuteMarket => day.markets.minute = number.as_market(),
            Figure::Last => day.trades.last = number.as_u32(),
            Figure::Contracts => day.trades.settling.contracts = number.as_u32(),
            Figure::Gross => day.trades.settling.gross = number.as_u64(),
            Figure::Index => day.minutes.index = number.as_u32(),
            Figure::FixedPrice => day.fixed.price = number.as_u32(),
            Figure::FixedAmount => day.fixed.amount = number.as_i64(),
            Figure::Length => day.session.length = number.as_u32(),
            Figure::Begun => day.session.begun = number.as_flag(),
            Figure::LatestTime => day.timing.latest = number.as_u32(),
            Figure::Total => day.timing.midpoints.total = number.as_u32(),
            Figure::Sum => day.timing.midpoints.sum = number.as_u64(),
        }
    }
}
