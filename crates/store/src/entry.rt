// The weight and the tag of a held word.
#[derive(Clone, Copy, Debug, PartialEq, Eq)]
pub struct Held {
    pub weight: u32,
    pub tag: u32,
}

// A held entry as it stands in the memory, with its two stored lengths.
#[derive(Drop)]
pub struct Entry<'m, S> {
    pub word: &'m [S],
    pub weight: u32,
    pub tag: u32,
    pub left_length: u16,
    pub right_length: u16,
}
