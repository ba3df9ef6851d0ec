use crate::mark::Children;

// The numbers of an entry's record, but for the length of its word.
#[derive(Clone, Copy, Debug, PartialEq, Eq)]
pub struct Numbers {
    pub children: Children,
    pub weight: u32,
    pub tag: u32,
    // what its word shares with the nearest ancestor before it, in symbols
    pub left: u16,
    // and with the nearest ancestor after it
    pub right: u16,
}

// The mark and the numbers of a record, before any symbols.
#[derive(Clone, Copy, Debug, PartialEq, Eq)]
pub enum Head {
    // and how many symbols the word has
    EntryHead { numbers: Numbers, length: u16 },
    // how many entries the sheet has
    ClosingHead { count: u16 },
}

// A record of a sheet, with its symbol bytes as that very part of the sheet.
// The word's length stands beside them, since a record does not know the width of its kind.
#[derive(Clone, Copy, Debug, PartialEq, Eq)]
pub enum Record<'a> {
    Entry {
        numbers: Numbers,
        length: u16,
        symbols: &'a [u8],
    },
    Closing {
        count: u16,
    },
}
