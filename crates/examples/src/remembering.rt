ghost use Rattle.std.specs.Prelude.{◌≡◌, ◌^◌, ◌<◌, map, Some, None};
ghost use Rattle.words.specs.Comparisons.{compared_from};
ghost use Rattle.words.specs.Counting.{RaisedBy};

use kinds::kind::Ordered;
use std::cmp::Ordering;
use words::comparer::Comparer;
use words::comparison::{Comparison, compare_from};

// A comparer that counts, and keeps the last answer too.
#[derive(Drop, Debug)]
pub struct Remembering {
    count: u32,
    last: Option<Ordering>,
}

impl Remembering {
    pub fn new() -> Remembering
        ensures { (result.count ≡ 0) × (result.last ≡ None) }
    {
        Remembering {
            count: 0,
            last: None,
        }
    }

    // How often it was asked.
    pub fn count(&self) -> u32
        ensures { result ≡ self.now.count }
    {
        self.count
    }

    // What it answered last.
    pub fn last(&self) -> Option<Ordering>
        ensures { result ≡ self.now.last }
    {
        self.last
    }
}

impl<S: Ordered> Comparer<S> for Remembering {
    ghost asked = { λ c. c.count };

    fn ask(&mut self, a: &S, b: &S) -> Ordering
        ensures answers { result ≡ S.Ordered.order (S.Ordered.symbol a.now) (S.Ordered.symbol b.now) }
        ensures counts { RaisedBy 1 self.old.count self.new.count }
        ensures keeps { self.new.last ≡ Some result }
    {
        let answer = a.compare(b);
        let Remembering { count, last } = self;
        *count = count.saturating_add(1);
        *last = Some(answer);
        answer
    }
}

// Compares two words from a position on, and gives back the comparer that was lent.
pub fn compare_remembering<S: Ordered>(a: &[S], b: &[S], from: usize) -> (Comparison, Remembering)
    ensures value { result.0 ≡ compared_from S.Ordered.order from (map S.Ordered.symbol a.now) (map S.Ordered.symbol b.now) }
    ensures asked { result.0.pairs < 2 ^ 32 → result.1.count ≡ result.0.pairs }
{
    let mut comparer = Remembering::new();
    let comparison = compare_from(a, b, from, &mut comparer);
    (comparison, comparer)
}
