ghost use Rattle.std.specs.Prelude.{◌≡◌, ◌<◌, Some, refl};
ghost use Rattle.kinds.specs.Codecs.{GivesBelow};
ghost use Rattle.kinds.specs.Orders.{number_order};

use crate::kind::{NoSuchSymbol, Ordered, Written};
use std::cmp::Ordering;
use std::fmt;

// How many letters there are.
const COUNT: u32 = 1114112;

// A letter: a code point from 0 to 1,114,111.
#[derive(Clone, Copy, Debug, PartialEq, Eq, PartialOrd, Ord, Hash)]
pub struct Letter {
    code: u32,
    ghost in_range: { code < 1114112 },
}

// The letter of a code point, or an error where the number is no code point.
impl TryFrom<u32> for Letter {
    ghost use Rattle.kinds.specs.Letters.{code_point};

    type Error = NoSuchSymbol;

    ghost try_from_gives = { GivesBelow 1114112 code_point };

    fn try_from(code: u32) -> Result<Letter, NoSuchSymbol> {
        if code < COUNT {
            Ok(Letter { code })
        } else {
            Err(NoSuchSymbol)
        }
    }
}

// The code point.
impl From<Letter> for u32 {
    ghost use Rattle.kinds.specs.Letters.{code_point};

    ghost from_gives = { λ letter code. code ≡ code_point letter };

    fn from(letter: Letter) -> u32 {
        letter.code
    }
}

// The code point in decimal.
impl fmt::Display for Letter {
    ghost use Rattle.kinds.specs.Letters.{letter_text};

    ghost output = { λ letter. Some (letter_text letter) };

    fn fmt<W: fmt::Write>(&self, f: &mut fmt::Formatter<W>) -> fmt::Result {
        write!(f, "{}", self.code)
    }
}

impl Ordered for Letter {
    ghost use Rattle.kinds.specs.Letters.{code_point};
    ghost use Rattle.kinds.specs.Laws.{number_order_lawful};

    ghost symbol = { code_point };

    ghost order = { number_order };

    ghost lawful = { number_order_lawful };

    fn compare(&self, other: &Letter) -> Ordering {
        self.cmp(other)
    }
}

impl Written for Letter {
    ghost use Rattle.kinds.specs.Letters.{letters};
    ghost use Rattle.kinds.specs.Laws.{each_letter, letters_faithful};

    const WIDTH: usize = 3;

    ghost WIDTH = { 3 };

    ghost codec = { letters };

    ghost wide = { refl };

    ghost faithful = { letters_faithful };

    ghost each = { each_letter };

    fn write(&self, out: &mut [u8]) -> bool {
        let Some(front) = out.first_chunk_mut() else {
            return false;
        };
        let [_, high, middle, low] = self.code.to_be_bytes();
        *front = [high, middle, low];
        true
    }

    fn read(from: &[u8]) -> Option<Letter> {
        let [high, middle, low] = from else {
            return None;
        };
        Letter::try_from(u32::from_be_bytes([0, *high, *middle, *low])).ok()
    }
}
