ghost use Rattle.std.specs.Prelude.{◌≡◌, Some};
ghost use Rattle.limits.specs.Refusals.{refusal_text, told};

use std::error::Error;
use std::fmt;

// Why a call is refused. A post that finds its tally full is refused with 10 by a type of its own, which gives the slip back.
#[derive(Clone, Copy, Debug, PartialEq, Eq)]
pub enum Refusal {
    // a word or an opening without symbols
    NoSymbols,
    // a word or an opening above the ceiling
    AboveCeiling,
    // add: the word is held
    WordHeld,
    // add: the capacity is reached
    CapacityReached,
    // drop, reweigh: the word is not held
    WordNotHeld,
    // before, after: the strip is shorter than the ceiling
    StripShort,
    // opening, write, read: the work strip is shorter than the capacity
    WorkStripShort,
    // write: the buffer is shorter than the sheet, which has this length
    BufferShort { length: usize },
    // read: the dictionary is not empty
    NotEmpty,
    // the bytes end in a record
    RecordEnds { place: usize },
    // the mark is impossible here
    MarkImpossible { place: usize },
    // the word's length is 0 or above the ceiling
    WordLength { place: usize },
    // bytes of no symbol, at the place of that symbol
    NoSuchSymbol { place: usize },
    // an entry beyond the capacity
    BeyondCapacity { place: usize },
    // a word not strictly between its nearest ancestors
    OutOfOrder { place: usize },
    // an entry not outranked by its parent
    NotOutranked { place: usize },
    // a stored length is wrong
    WrongLength { place: usize },
    // the closing count is wrong, or bytes follow it, at the first of these
    ClosingWrong { place: usize },
}

// What comes with a refusal. No Option says it: a length and a place are both numbers, and a caller tells them apart.
#[derive(Clone, Copy, Debug, PartialEq, Eq)]
pub enum Detail {
    Nothing,
    // the length of the sheet
    Length(usize),
    // a place in the sheet
    Place(usize),
}

impl Refusal {
    // The number that the rules give this refusal. The cases carry lengths and places, so no `as` gives it.
    pub fn number(&self) -> u8
        ensures { result ≡ (told self.now).number }
    {
        match self {
            Refusal::NoSymbols => 1,
            Refusal::AboveCeiling => 2,
            Refusal::WordHeld => 3,
            Refusal::CapacityReached => 4,
            Refusal::WordNotHeld => 5,
            Refusal::StripShort => 6,
            Refusal::WorkStripShort => 7,
            Refusal::BufferShort { .. } => 8,
            Refusal::NotEmpty => 9,
            Refusal::RecordEnds { .. } => 11,
            Refusal::MarkImpossible { .. } => 12,
            Refusal::WordLength { .. } => 13,
            Refusal::NoSuchSymbol { .. } => 14,
            Refusal::BeyondCapacity { .. } => 15,
            Refusal::OutOfOrder { .. } => 16,
            Refusal::NotOutranked { .. } => 17,
            Refusal::WrongLength { .. } => 18,
            Refusal::ClosingWrong { .. } => 19,
        }
    }

    // The length or the place that comes with it.
    pub fn detail(&self) -> Detail
        ensures { result ≡ (told self.now).detail }
    {
        match *self {
            Refusal::BufferShort { length } => Detail::Length(length),
            Refusal::RecordEnds { place }
            | Refusal::MarkImpossible { place }
            | Refusal::WordLength { place }
            | Refusal::NoSuchSymbol { place }
            | Refusal::BeyondCapacity { place }
            | Refusal::OutOfOrder { place }
            | Refusal::NotOutranked { place }
            | Refusal::WrongLength { place }
            | Refusal::ClosingWrong { place } => Detail::Place(place),
            _ => Detail::Nothing,
        }
    }
}

// `refused 3`, `refused 8 length 300`, `refused 11 at 16`.
impl fmt::Display for Refusal {
    ghost output = { λ r. Some (refusal_text r) };

    fn fmt<W: fmt::Write>(&self, f: &mut fmt::Formatter<W>) -> fmt::Result {
        let number = self.number();
        match self.detail() {
            Detail::Nothing => write!(f, "refused {number}"),
            Detail::Length(length) => write!(f, "refused {number} length {length}"),
            Detail::Place(place) => write!(f, "refused {number} at {place}"),
        }
    }
}

impl Error for Refusal {}
