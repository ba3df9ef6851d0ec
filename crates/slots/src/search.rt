ghost use Rattle.std.specs.Prelude.{◌≡◌, map};
ghost use Rattle.slots.specs.Searches.{Begun, SameSearch, passed};
ghost use Rattle.slots.specs.Slots.{compared_with};
ghost use Rattle.words.specs.Counting.{RaisedBy};

use crate::slot::{Side, Slot};
use kinds::kind::Ordered;
use std::cmp::Ordering;
use words::comparer::Comparer;
use words::comparison::{Comparison, compare_from};

// What a sought word shares with the nearest entries met before and after it, 0 without one.
#[derive(Clone, Copy, Debug, Default, PartialEq, Eq)]
pub struct Shares {
    pub before: usize,
    pub after: usize,
}

// A search for a word: what the word shares with the nearest entries met so far, and the comparer that is asked.
#[derive(Drop)]
pub struct Search<'w, 'c, S, C> {
    pub word: &'w [S],
    pub shares: Shares,
    pub comparer: &'c mut C,
}

impl<'w, 'c, S: Ordered, C: Comparer<S>> Search<'w, 'c, S, C> {
    // A search that has met no entry.
    pub fn new(word: &'w [S], comparer: &'c mut C) -> Self
        ensures { Begun word.entry comparer.entry result }
    {
        Search {
            word,
            shares: Shares::default(),
            comparer,
        }
    }

    // Compares the word with an entry that is met: its slot and its word.
    // The side before counts if the word shares more with the nearest entry met there, else the side after.
    // That nearest entry stands before both words or after both, so what each shares with it tells them apart. Where they share as much, they are compared from there on.
    pub fn meet(&mut self, slot: &Slot, held: &[S]) -> Comparison
        ensures value { result ≡ compared_with S.Ordered.order (map S.Ordered.symbol self.old.word.now) (map S.Ordered.symbol held.now) slot.now self.old.shares }
        ensures asked { RaisedBy result.pairs (C.Comparer.asked self.old.comparer.now) (C.Comparer.asked self.new.comparer.now) }
        ensures shares { self.new.shares ≡ self.old.shares }
        ensures same { SameSearch self.old self.new }
    {
        let Shares { before, after } = self.shares;
        let kept = before.max(after);
        let (stored, nearer) = if after < before {
            (slot.left_length, Ordering::Less)
        } else {
            (slot.right_length, Ordering::Greater)
        };
        let share = usize::from(stored);
        // Two tests and no `cmp`: the order would be made at each entry met, only to be matched.
        if share < kept {
            Comparison {
                answer: nearer,
                share,
                pairs: 0,
            }
        } else if kept < share {
            Comparison {
                answer: nearer.reverse(),
                share: kept,
                pairs: 0,
            }
        } else {
            compare_from(self.word, held, kept, self.comparer)
        }
    }

    // Goes on to a side of an entry, and keeps what the word shares with that entry.
    pub fn pass(&mut self, side: Side, share: usize)
        ensures shares { self.new.shares ≡ passed side share self.old.shares }
        ensures comparer { self.new.comparer.now ≡ self.old.comparer.now }
        ensures same { SameSearch self.old self.new }
    {
        match side {
            Side::Left => self.shares.after = share,
            Side::Right => self.shares.before = share,
        }
    }
}
