ghost use Rattle.std.specs.Prelude.{◌≡◌, Some, codes, slice_index};
ghost use Rattle.std.specs.Result.{result_ok};
ghost use Rattle.records.specs.Marks.{child_code, children_of, mark_of};

use std::error::Error;
use std::fmt;

// The first byte of an entry's mark; its child code is the second.
pub(crate) const ENTRY: u8 = 69;

// The closing mark's first byte; the second is 0.
pub(crate) const CLOSING: u8 = 90;

// Which children an entry has in the tree.
#[derive(Clone, Copy, Debug, PartialEq, Eq)]
pub enum Children {
    Neither,
    Left,
    Right,
    Both,
}

// The children of a code, or an error from 4 on.
impl TryFrom<u8> for Children {
    type Error = NoMark;

    ghost try_from_gives = { λ code r. result_ok r ≡ children_of code };

    fn try_from(code: u8) -> Result<Children, NoMark> {
        match code {
            0 => Ok(Children::Neither),
            1 => Ok(Children::Left),
            2 => Ok(Children::Right),
            3 => Ok(Children::Both),
            _ => Err(NoMark),
        }
    }
}

// The code that stands in the mark.
impl From<Children> for u8 {
    ghost from_gives = { λ children code. code ≡ child_code children };

    fn from(children: Children) -> u8 {
        children as u8
    }
}

// The mark before a record.
#[derive(Clone, Copy, Debug, PartialEq, Eq)]
pub enum Mark {
    Entry(Children),
    Closing,
}

// The mark of two bytes, or an error where no record has it.
impl TryFrom<[u8; 2]> for Mark {
    type Error = NoMark;

    ghost try_from_gives = { λ bytes r. result_ok r ≡ mark_of (slice_index bytes 0) (slice_index bytes 1) };

    fn try_from(bytes: [u8; 2]) -> Result<Mark, NoMark> {
        match bytes {
            [ENTRY, code] => Ok(Mark::Entry(Children::try_from(code)?)),
            [CLOSING, 0] => Ok(Mark::Closing),
            _ => Err(NoMark),
        }
    }
}

// What no record's mark has: as its child code, or as its two bytes.
#[derive(Clone, Copy, Debug, PartialEq, Eq)]
pub struct NoMark;

impl fmt::Display for NoMark {
    ghost output = { λ _. Some (codes "no record has this mark") };

    fn fmt<W: fmt::Write>(&self, f: &mut fmt::Formatter<W>) -> fmt::Result {
        f.write_str("no record has this mark")
    }
}

impl Error for NoMark {}
