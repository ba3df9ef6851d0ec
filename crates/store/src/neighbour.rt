ghost use Rattle.std.specs.Prelude.{◌≡◌, ℕ, map, Some, None};
ghost use Rattle.std.specs.Option.{option_map};
ghost use Rattle.store.specs.Neighbours.{nearest_by, is_right_turn};
ghost use Rattle.store.specs.Stores.{entry_of, places, tree};
ghost use Rattle.store.specs.Tables.{In};
ghost use Rattle.store.specs.Unzips.{one_on_side};

use crate::store::Store;
use crate::writes::Hook;
use kinds::kind::Ordered;
use slots::search::Search;
use slots::slot::Side;
use std::cmp::Ordering;
use words::comparer::Counter;

// Whether the walk to the nearest entry on a side of a word goes right, where the word stands so to the entry met.
// A side and no closure: each closure would have its law said anew.
fn turns_right(answer: Ordering, side: Side) -> bool
    ensures { result ≡ is_right_turn side answer }
{
    match side {
        Side::Left => answer.is_gt(),
        Side::Right => !answer.is_lt(),
    }
}

// The one of the two that stands on the side.
fn on_side(side: Side, left: Option<u16>, right: Option<u16>) -> Option<u16>
    ensures { result ≡ one_on_side side left right }
{
    match side {
        Side::Left => left,
        Side::Right => right,
    }
}

impl<'a, S: Ordered> Store<'a, S> {
    // The place of the nearest entry before a word (left) or after it (right), which is the last that the walk passed on that side.
    pub(crate) fn nearest(&self, word: &[S], side: Side) -> Option<u16>
        ensures entry { option_map (entry_of S.Ordered.symbol self.now.memory) result ≡ nearest_by S.Ordered.order side (map S.Ordered.symbol word.now) 0 0 None (tree S.Ordered.symbol self.now.memory) }
        ensures held { (p : ℕ) → result ≡ Some p → In p (places self.now.memory) }
    {
        let memory = &self.memory;
        let capacity = memory.limits.capacity();
        let mut counter = Counter::new();
        let mut search = Search::new(word, &mut counter);
        let mut best = None;
        let mut at = memory.top;
        while (at as usize) < capacity {
            let step = memory.compare(at, &mut search);
            let onward = if turns_right(step.answer, side) {
                best = on_side(side, Some(at), best);
                Side::Right
            } else {
                best = on_side(side, best, Some(at));
                Side::Left
            };
            search.pass(onward, step.share);
            at = memory.child(Hook {
                place: at,
                side: onward,
            });
        }
        best
    }
}
