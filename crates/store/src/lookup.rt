ghost use Rattle.std.specs.Prelude.{map};
ghost use Rattle.store.specs.Stores.{entry_of, places};
ghost use Rattle.store.specs.Lookups.{WalkOf};
ghost use Rattle.words.specs.Counting.{RaisedBy};

use crate::entry::Held;
use crate::store::Store;
use crate::writes::Hook;
use kinds::kind::Ordered;
use slots::search::{Search, Shares};
use slots::slot::Side;
use std::cmp::Ordering;
use words::comparer::Comparer;

// What a walk to a word comes to.
#[derive(Clone, Copy, Debug)]
pub struct Walk {
    // the place of the word's entry
    pub(crate) found: Option<u16>,
    // how many entries were met
    pub(crate) met: u32,
    // how many pairs of symbols were looked at
    pub(crate) pairs: u32,
    // those where it ended
    pub(crate) shares: Shares,
}

// What a lookup answers: what the word's entry has, if it is held, and what the lookup cost.
#[derive(Clone, Copy, Debug)]
pub struct Looked {
    pub found: Option<Held>,
    pub met: u32,
    pub pairs: u32,
}

impl<'a, S: Ordered> Store<'a, S> {
    // Walks down the tree to a word. In line in its callers, so that a counter lent by one of them stays in a register.
    #[inline(always)]
    pub(crate) fn find<C: Comparer<S>>(&self, word: &[S], comparer: &mut C) -> Walk
        ensures walks { WalkOf S.Ordered.order (map S.Ordered.symbol word.now) (entry_of S.Ordered.symbol self.now.memory) (places self.now.memory) result }
        ensures asked { RaisedBy result.pairs (C.Comparer.asked comparer.old) (C.Comparer.asked comparer.new) }
    {
        let memory = &self.memory;
        let capacity = memory.limits.capacity();
        let mut search = Search::new(word, comparer);
        let mut at = memory.top;
        let mut met = 0;
        let mut pairs = 0;
        while (at as usize) < capacity {
            let step = memory.compare(at, &mut search);
            met += 1;
            pairs += step.pairs as u32;
            let side = match step.answer {
                Ordering::Less => Side::Left,
                Ordering::Greater => Side::Right,
                Ordering::Equal => {
                    return Walk {
                        found: Some(at),
                        met,
                        pairs,
                        shares: search.shares,
                    };
                }
            };
            search.pass(side, step.share);
            at = memory.child(Hook { place: at, side });
        }
        Walk {
            found: None,
            met,
            pairs,
            shares: search.shares,
        }
    }
}
