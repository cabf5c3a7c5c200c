// The tags of records, and the bytes of their bodies.
#![tactic(auto)]

ghost use Rattle.std.specs.Prelude.{◌≡◌};
ghost use Rattle.std.specs.Option.{ok_or};
ghost use Rattle.tags.specs.Tags.{byte_of, tag_of, body_length};

// The known tags.
#[derive(Clone, Copy, Debug, PartialEq, Eq)]
pub enum Tag {
    Trade,
    Quote,
    MinuteEnd,
    Halt,
    Resume,
    Fix,
    Close,
    DayLength,
    TimedQuote,
    TwoByteTrade,
    FinalDate,
    FinalFix,
}

// A byte that is no known tag's.
#[derive(Clone, Copy, Debug, PartialEq, Eq)]
pub struct UnknownTag(pub u8);

impl From<Tag> for u8 {
    ghost from_gives = { λ tag byte. byte ≡ byte_of tag };

    fn from(tag: Tag) -> u8 {
        match tag {
            Tag::Trade => 1,
            Tag::Quote => 2,
            Tag::MinuteEnd => 3,
            Tag::Halt => 4,
            Tag::Resume => 5,
            Tag::Fix => 6,
            Tag::Close => 7,
            Tag::DayLength => 8,
            Tag::TimedQuote => 9,
            Tag::TwoByteTrade => 10,
            Tag::FinalDate => 11,
            Tag::FinalFix => 12,
        }
    }
}

impl TryFrom<u8> for Tag {
    type Error = UnknownTag;

    ghost try_from_gives = { λ byte read. read ≡ ok_or (tag_of byte) (record { 0 = byte }) };

    #[tactic(auto, unfolding(crate::specs::Tags::tag_of))]
    fn try_from(byte: u8) -> Result<Self, UnknownTag> {
        match byte {
            1 => Ok(Tag::Trade),
            2 => Ok(Tag::Quote),
            3 => Ok(Tag::MinuteEnd),
            4 => Ok(Tag::Halt),
            5 => Ok(Tag::Resume),
            6 => Ok(Tag::Fix),
            7 => Ok(Tag::Close),
            8 => Ok(Tag::DayLength),
            9 => Ok(Tag::TimedQuote),
            10 => Ok(Tag::TwoByteTrade),
            11 => Ok(Tag::FinalDate),
            12 => Ok(Tag::FinalFix),
            _ => Err(UnknownTag(byte)),
        }
    }
}

impl Tag {
    // The bytes of this tag's body.
    pub fn body_length(self) -> usize
        ensures { result ≡ body_length self }
    {
        match self {
            Tag::Trade => 11,
            Tag::Quote => 8,
            Tag::MinuteEnd => 4,
            Tag::Halt => 0,
            Tag::Resume => 0,
            Tag::Fix => 4,
            Tag::Close => 0,
            Tag::DayLength => 2,
            Tag::TimedQuote => 10,
            Tag::TwoByteTrade => 13,
            Tag::FinalDate => 3,
            Tag::FinalFix => 4,
        }
    }
}
