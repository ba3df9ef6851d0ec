ghost use Rattle.std.specs.Prelude.{◌≡◌, ◌<◌, IfOk, Some, codes, length, map};
ghost use Rattle.std.specs.List.{AllByRecursion};
ghost use Rattle.std.specs.Result.{result_ok};
ghost use Rattle.script.specs.Commands.{Worded, command_of, kind_of, words_of};
ghost use Rattle.script.specs.Texts.{numeral};

use crate::text::number;
use std::alloc::{AllocError, Global};
use std::error::Error;
use std::fmt;
use std::str::FromStr;

// The kind of symbol that a dictionary is opened for.
#[derive(Clone, Copy, Debug, PartialEq, Eq, Hash)]
pub enum Kind {
    Letters,
    Pen,
}

// A name that no kind has.
#[derive(Clone, Copy, Debug, PartialEq, Eq, Hash)]
pub struct UnknownKind;

impl fmt::Display for UnknownKind {
    ghost output = { λ _. Some (codes "no kind of symbol has this name") };

    fn fmt<W: fmt::Write>(&self, f: &mut fmt::Formatter<W>) -> fmt::Result {
        f.write_str("no kind of symbol has this name")
    }
}

impl Error for UnknownKind {}

// The kind of a name in a script.
impl FromStr for Kind {
    type Err = UnknownKind;

    ghost from_str_gives = { λ name r. result_ok r ≡ kind_of name };

    fn from_str(name: &str) -> Result<Kind, UnknownKind> {
        match name {
            "letters" => Ok(Kind::Letters),
            "pen" => Ok(Kind::Pen),
            _ => Err(UnknownKind),
        }
    }
}

// A line of the script. Words of symbols are read later, by the kind of the open dictionary.
#[derive(Clone, Copy, Debug, PartialEq, Eq)]
pub enum Command<'a> {
    Open {
        kind: Kind,
        table: usize,
        strip: usize,
        ceiling: usize,
    },
    Bring {
        strip: usize,
        work: usize,
    },
    Compare {
        first: &'a str,
        second: &'a str,
    },
    Add {
        word: &'a str,
        weight: u32,
        tag: u32,
    },
    Find {
        word: &'a str,
    },
    Record {
        hex: &'a str,
        place: usize,
    },
    List,
    Tally,
}

// The words of a line, apart by spaces and tabs. None is empty.
pub fn split_words(heap: Global, line: &str) -> Result<Vec<&str>, AllocError>
    ensures words { IfOk result (λ v. map (λ w. w.now) v.items ≡ words_of line.now) }
    ensures some { IfOk result (λ v. AllByRecursion (λ w. 0 < length w.now) v.items) }
{
    line.split([' ', '\t'])
        .filter(|word| !word.is_empty())
        .collect(heap)
}

// A length or a place in memory.
fn size(word: &str) -> Option<usize>
    ensures { result ≡ numeral 64 word.now }
{
    Some(number(word)? as usize)
}

// A weight or a tag.
fn value(word: &str) -> Option<u32>
    ensures { result ≡ numeral 32 word.now }
{
    u32::try_from(number(word)?).ok()
}

impl<'a> Command<'a> {
    // The command of a line's words, or none where it cannot be read. An Option says all that TryFrom's error would.
    pub fn new(words: &[&'a str]) -> Option<Command<'a>>
        ensures command { result ≡ command_of words.now }
        ensures worded { Worded (length words.now) result }
    {
        match words {
            ["open", kind, table, strip, ceiling] => Some(Command::Open {
                kind: kind.parse().ok()?,
                table: size(table)?,
                strip: size(strip)?,
                ceiling: size(ceiling)?,
            }),
            ["bring", strip, work] => Some(Command::Bring {
                strip: size(strip)?,
                work: size(work)?,
            }),
            ["compare", first, second] => Some(Command::Compare { first, second }),
            ["add", word, weight, tag] => Some(Command::Add {
                word,
                weight: value(weight)?,
                tag: value(tag)?,
            }),
            ["find", word] => Some(Command::Find { word }),
            ["record", hex, place] => Some(Command::Record {
                hex,
                place: size(place)?,
            }),
            ["list"] => Some(Command::List),
            ["tally"] => Some(Command::Tally),
            _ => None,
        }
    }
}
