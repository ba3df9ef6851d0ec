ghost use Rattle.std.specs.Prelude.{◌≡◌, ℕ, List, [], IfOk, Some, Option, map, vec_items, string_bytes, codes};
ghost use Rattle.std.specs.Option.{option_map};
ghost use Rattle.std.specs.Str.{chars};
ghost use Rattle.kinds.specs.Letters.{letter_text};
ghost use Rattle.kinds.specs.PenElements.{element_text};
ghost use Rattle.script.specs.Reads.{Reads};
ghost use Rattle.script.specs.Texts.{element_in, letter_in, no_text, text_of_word, word_in};

use crate::error::ReadError;
use crate::text::number;
use kinds::kind::Written;
use kinds::letter::Letter;
use kinds::pen::PenElement;
use std::alloc::{AllocError, Global};
use std::fmt::Display;

// A kind of symbol as a script writes it, which is what it prints.
pub trait Symbol: Written + Display {
    // what a script writes for the symbol
    ghost piece: { Self → List ℕ };

    // the number of the symbol that a piece of a word writes, or none
    ghost of_piece: { List ℕ → Option ℕ };

    // the numbers of the symbols that are a text's characters, where the kind has such words
    ghost of_text: { List ℕ → Option (List ℕ) };

    // The symbol that one piece of a word writes, or none. A FromStr could stand only with the kinds, and would need a script's numerals there.
    fn of_piece(text: &str) -> Option<Self>
        ensures { option_map Self.Ordered.symbol result ≡ of_piece text.now };

    // The word whose symbols are the characters of a text.
    fn word_of_text(heap: Global, text: &str) -> Result<Vec<Self>, ReadError>
        ensures { Reads (λ w. map Self.Ordered.symbol (vec_items w)) (of_text text.now) result };

    // the symbol prints what a script writes for it
    ghost prints: { (x : Self) → Self.Display.output x ≡ Some (piece x) };
}

// A letter is its code point in decimal.
impl Symbol for Letter {
    ghost use Rattle.std.specs.Prelude.{refl};

    ghost piece = { letter_text };

    ghost of_piece = { letter_in };

    ghost of_text = { λ text. Some (chars text) };

    ghost prints = { λ l. refl };

    fn of_piece(text: &str) -> Option<Letter> {
        let code = u32::try_from(number(text)?).ok()?;
        Letter::try_from(code).ok()
    }

    fn word_of_text(heap: Global, text: &str) -> Result<Vec<Letter>, ReadError> {
        let mut word = Vec::new(heap);
        for c in text.chars() {
            let Ok(letter) = Letter::try_from(u32::from(c)) else {
                return Err(ReadError::Unreadable);
            };
            word.push(letter)?;
        }
        Ok(word)
    }
}

// A pen element is `0` for a lift, or `D/C` for a move of direction D and length class C.
impl Symbol for PenElement {
    ghost use Rattle.std.specs.Prelude.{refl};

    ghost piece = { element_text };

    ghost of_piece = { element_in };

    ghost of_text = { no_text };

    ghost prints = { λ e. refl };

    fn of_piece(text: &str) -> Option<PenElement> {
        match text.split_once('/') {
            Some((direction, class)) => {
                let direction = u8::try_from(number(direction)?).ok()?;
                let class = u8::try_from(number(class)?).ok()?;
                PenElement::moved(direction, class).ok()
            }
            None => (number(text)? == 0).then_some(PenElement::Lift),
        }
    }

    fn word_of_text(_heap: Global, _text: &str) -> Result<Vec<PenElement>, ReadError> {
        Err(ReadError::Unreadable)
    }
}

// A word of a script: `-` without symbols, `=` before a text, else pieces joined by full stops.
pub fn word<S: Symbol>(heap: Global, text: &str) -> Result<Vec<S>, ReadError>
    ensures symbols { Reads (λ w. map S.Ordered.symbol (vec_items w)) (word_in S.Symbol.of_piece S.Symbol.of_text text.now) result }
    ensures none { text.now ≡ codes "-" → Reads vec_items (Some []) result }
{
    let mut word = Vec::new(heap);
    if text == "-" {
        return Ok(word);
    }
    if let Some(characters) = text.strip_prefix('=') {
        return S::word_of_text(heap, characters);
    }
    for piece in text.split('.') {
        let Some(symbol) = S::of_piece(piece) else {
            return Err(ReadError::Unreadable);
        };
        word.push(symbol)?;
    }
    Ok(word)
}

// A word as a script writes it: its pieces joined by full stops, or `-` without symbols.
pub fn word_text<S: Symbol>(heap: Global, word: &[S]) -> Result<String, AllocError>
    ensures { IfOk result (λ s. string_bytes s ≡ text_of_word S.Symbol.piece word.now) }
{
    let Some((first, rest)) = word.split_first() else {
        return String::from_str(heap, "-");
    };
    let mut text = first.to_string(heap)?;
    for symbol in rest {
        write!(text, ".{symbol}")?;
    }
    Ok(text)
}
