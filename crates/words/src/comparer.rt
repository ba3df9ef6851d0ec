ghost use Rattle.std.specs.Prelude.{◌≡◌, ℕ};
ghost use Rattle.words.specs.Counting.{RaisedBy};

use kinds::kind::Ordered;
use std::cmp::Ordering;

// What compares symbols for a comparison of words. It is lent: the comparison cannot make one, and learns of symbols only by asking it.
pub trait Comparer<S: Ordered> {
    // how often it was asked
    ghost asked: { Self → ℕ };

    // Answers as the kind orders, and counts the asking while the count fits 32 bits.
    fn ask(&mut self, a: &S, b: &S) -> Ordering
        ensures answers { result ≡ S.Ordered.order (S.Ordered.symbol a.now) (S.Ordered.symbol b.now) }
        ensures counts { RaisedBy 1 (asked self.old) (asked self.new) };
}

// A comparer that counts and does nothing else.
#[derive(Drop, Debug)]
pub struct Counter {
    count: u32,
}

impl Counter {
    pub fn new() -> Counter
        ensures { result.count ≡ 0 }
    {
        Counter { count: 0 }
    }

    pub fn count(&self) -> u32
        ensures { result ≡ self.now.count }
    {
        self.count
    }
}

impl<S: Ordered> Comparer<S> for Counter {
    ghost asked = { λ c. c.count };

    fn ask(&mut self, a: &S, b: &S) -> Ordering {
        let Counter { count } = self;
        *count = count.saturating_add(1);
        a.compare(b)
    }
}
