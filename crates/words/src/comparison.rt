ghost use Rattle.std.specs.Prelude.{◌≡◌, map};
ghost use Rattle.words.specs.Comparisons.{AsFromTheStart, Tells, compared_from};
ghost use Rattle.words.specs.Counting.{RaisedBy};

use crate::comparer::{Comparer, Counter};
use kinds::kind::Ordered;
use std::cmp::Ordering;

// What a comparison of two words answers.
#[derive(Clone, Copy, Debug, PartialEq, Eq)]
pub struct Comparison {
    // where the first word stands to the second: Less is before, Greater after
    pub answer: Ordering,
    // how many symbols their shared opening has
    pub share: usize,
    // how many pairs of symbols were looked at, the differing one too
    pub pairs: usize,
}

// Compares two words from a position on, which is to lie in their shared opening, by asking a lent comparer.
// A position past the end of a word counts as that end.
pub fn compare_from<S: Ordered, C: Comparer<S>>(
    a: &[S],
    b: &[S],
    from: usize,
    comparer: &mut C,
) -> Comparison
    ensures value { result ≡ compared_from S.Ordered.order from (map S.Ordered.symbol a.now) (map S.Ordered.symbol b.now) }
    ensures whole { AsFromTheStart S.Ordered.order from (map S.Ordered.symbol a.now) (map S.Ordered.symbol b.now) result }
    ensures asked { RaisedBy result.pairs (C.Comparer.asked comparer.old) (C.Comparer.asked comparer.new) }
{
    let end = a.len().min(b.len());
    let start = from.min(end);
    for (met, (x, y)) in a[start..].iter().zip(&b[start..]).enumerate() {
        match comparer.ask(x, y) {
            Ordering::Equal => {}
            answer => {
                return Comparison {
                    answer,
                    share: start + met,
                    pairs: met + 1,
                };
            }
        }
    }
    // One word is an opening of the other, and the shorter one comes first.
    Comparison {
        answer: a.len().cmp(&b.len()),
        share: end,
        pairs: end - start,
    }
}

// Compares two words from their first symbol on.
pub fn compare_words<S: Ordered>(a: &[S], b: &[S]) -> Comparison
    ensures value { result ≡ compared_from S.Ordered.order 0 (map S.Ordered.symbol a.now) (map S.Ordered.symbol b.now) }
    ensures tells { Tells S.Ordered.order (map S.Ordered.symbol a.now) (map S.Ordered.symbol b.now) result }
{
    compare_from(a, b, 0, &mut Counter::new())
}
