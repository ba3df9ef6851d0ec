ghost use Rattle.std.specs.Prelude.{◌≡◌};
ghost use Rattle.limits.specs.Capacity.{limits_for};
ghost use Rattle.limits.specs.Refusals.{refusal_of, word_refusal};

use crate::refusal::Refusal;

// No word is longer than this, whatever ceiling is asked for.
const HIGHEST_CEILING: usize = 1024;

// No dictionary holds more entries than this, whatever memory it is lent.
const HIGHEST_CAPACITY: usize = 16383;

// The limits in force in a dictionary.
#[derive(Clone, Copy, Debug)]
pub struct Limits {
    ceiling: usize,
    capacity: usize,
}

impl Limits {
    // The limits over an entry table and a word strip of these lengths, with this ceiling asked for.
    pub fn new(table: usize, strip: usize, ceiling: usize) -> Limits
        ensures { result ≡ limits_for table strip ceiling }
    {
        let ceiling = ceiling.clamp(1, HIGHEST_CEILING);
        let capacity = table.min(strip / ceiling).min(HIGHEST_CAPACITY);
        Limits { ceiling, capacity }
    }

    // How many symbols a word may have.
    pub fn ceiling(&self) -> usize
        ensures { result ≡ self.now.ceiling }
    {
        self.ceiling
    }

    // How many entries may be held.
    pub fn capacity(&self) -> usize
        ensures { result ≡ self.now.capacity }
    {
        self.capacity
    }

    // Whether a word of so many symbols may stand in a dictionary. Refused: 1 without symbols, 2 above the ceiling.
    pub fn check_word(&self, symbols: usize) -> Result<(), Refusal>
        ensures { refusal_of result ≡ word_refusal self.now symbols }
    {
        if symbols == 0 {
            Err(Refusal::NoSymbols)
        } else if symbols > self.ceiling {
            Err(Refusal::AboveCeiling)
        } else {
            Ok(())
        }
    }
}
