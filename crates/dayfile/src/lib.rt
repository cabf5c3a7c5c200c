// The reader of day files: records of a one-byte tag, a two-byte length and a body, high byte first.
#![tactic(auto)]

ghost use Rattle.std.specs.Prelude.{◌≡◌, ◌+◌, ◌≤◌, length};
ghost use Rattle.refusals.specs.declared.Refusal.TheVariants.{Record};
ghost use Rattle.tags.specs.Tags.{tag_of};
ghost use Rattle.bodies.specs.Body.{byte_at};
ghost use Rattle.dayfile.specs.Record.{stated_length, complete, read_at, is_record_at, read_number, record_refusal};

use bodies::{call_of, two_bytes};
use calls::Call;
use refusals::Refusal;
use tags::Tag;

// The bytes of a tag and a length.
pub const HEAD: usize = 3;

// Why a record is refused: document 01's refusal 1.
#[derive(Clone, Copy, Debug, PartialEq, Eq)]
pub enum RecordError {
    // the file ends before the record does
    CutOff,
    // the tag is known, and the length is not that of its bodies
    WrongLength,
}

impl From<RecordError> for Refusal {
    ghost from_gives = { λ _ refusal. refusal ≡ Record };

    fn from(_error: RecordError) -> Refusal {
        Refusal::Record
    }
}

// A record of a file. The place of the next one comes first, so that no call is put together over it.
#[derive(Clone, Copy)]
pub struct Read {
    // the place of the next record: the file's end after one that is cut off
    pub next: usize,
    // the record's call, or none where its tag is unknown
    pub call: Result<Option<Call>, RecordError>,
}

// Here and below a file and a place in it are two values, as in crate bodies.
// Whether a complete record of this tag and of its length stands at a place. The place is compared with the last one at which it
// could start, which is the same at every record of a file.
pub fn is_record_at(file: &[u8], at: usize, tag: Tag) -> bool
    ensures { result ≡ is_record_at file.now at tag }
{
    let length = tag.body_length();
    let bytes = HEAD + length;
    if file.len() < bytes {
        return false;
    }
    if file.len() - bytes < at {
        return false;
    }
    if file[at] != u8::from(tag) {
        return false;
    }
    usize::from(two_bytes(file, at + 1)) == length
}

// The call of a record that lies within the file, of the stated length.
fn complete_call(file: &[u8], at: usize, stated: usize) -> Result<Option<Call>, RecordError>
    requires { (stated ≡ stated_length file.now at) × (at + 3 + stated ≤ length file.now) }
    ensures { result ≡ complete file.now at (tag_of (byte_at file.now at)) }
{
    let Ok(tag) = Tag::try_from(file[at]) else {
        return Ok(None);
    };
    if stated != tag.body_length() {
        return Err(RecordError::WrongLength);
    }
    Ok(Some(call_of(file, tag, at + HEAD)))
}

// The record at a place of a file, whatever its bytes and wherever the place: none where nothing is left.
#[tactic(auto, using(crate::proofs::Reading::refusal_at_end), unfolding(crate::specs::Record::read_at))]
pub fn read_record(file: &[u8], at: usize) -> Option<Read>
    ensures record { result ≡ read_at file.now at }
    ensures number { read_number result ≡ record_refusal file.now at }
{
    if file.len() <= at {
        return None;
    }
    let rest = file.len() - at;
    let cut_off = Read {
        next: file.len(),
        call: Err(RecordError::CutOff),
    };
    if rest < HEAD {
        return Some(cut_off);
    }
    let stated = usize::from(two_bytes(file, at + 1));
    if rest - HEAD < stated {
        return Some(cut_off);
    }
    Some(Read {
        next: at + HEAD + stated,
        call: complete_call(file, at, stated),
    })
}
