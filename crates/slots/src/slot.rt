ghost use Rattle.std.specs.Prelude.{◌≡◌};
ghost use Rattle.slots.specs.Slots.{blank, unlinked};

// A side of a slot.
#[derive(Clone, Copy, Debug, PartialEq, Eq)]
pub enum Side {
    Left,
    Right,
}

// What the entry table has at one place. A held entry's word stands at the same place of the word strip.
// It is fixed memory of the caller's, so children are places in the table and no boxes.
#[derive(Clone, Copy, Debug, Default)]
pub struct Slot {
    // the places of the children, where a place from the capacity on means none
    pub left: u16,
    pub right: u16,
    // the opening that the word shares with its nearest ancestor before it, 0 without one
    pub left_length: u16,
    // the same for the nearest ancestor after it
    pub right_length: u16,
    // the word's length in symbols
    pub length: u16,
    pub weight: u32,
    pub tag: u32,
}

// No place: every capacity is less. A number and no `Option`: a slot is fixed memory that the caller brings, and whatever stands in it can be read.
pub const NONE: u16 = u16::MAX;

impl Slot {
    // The slot that a table is filled with before it is lent.
    pub fn blank() -> Slot
        ensures { result ≡ blank }
    {
        Slot::default()
    }

    // The slot of an entry that has no place in the tree yet.
    pub fn unlinked(length: u16, weight: u32, tag: u32) -> Slot
        ensures { result ≡ unlinked length weight tag }
    {
        Slot {
            left: NONE,
            right: NONE,
            length,
            weight,
            tag,
            ..Slot::blank()
        }
    }
}
