ghost use Rattle.std.specs.Prelude.{◌≡◌, ◌+◌, ◌^◌, ◌<◌, map, length};
ghost use Rattle.std.specs.Option.{option_map};
ghost use Rattle.rules.specs.Held.{nearest_after};
ghost use Rattle.store.specs.Entries.{listed_in, listing};
ghost use Rattle.dictionary.specs.Dictionaries.{Added, Kept, LookedUp, Opened, SameTree, held, limits, pairs_on};
ghost use Rattle.words.specs.Counting.{RaisedBy};

use crate::tally::Slip;
use kinds::kind::Ordered;
use limits::bounds::Limits;
use limits::refusal::Refusal;
use slots::slot::Slot;
use store::entry::{Entry, Held};
use store::store::Store;
use words::comparer::{Comparer, Counter};

// A dictionary over an entry table and a word strip that are lent to it. It is had only from `open`.
// What depends on the order of symbols (`Kept`) is a premise of the promises and no invariant: that would tie the type, and each definition that speaks of it, to the order of a kind.
#[derive(Drop)]
pub struct Dictionary<'a, S> {
    store: Store<'a, S>,
}

impl<'a, S: Ordered> Dictionary<'a, S> {
    // An empty dictionary, whatever the memory held. It is never refused, and takes constant time.
    // A ceiling of 0 counts as 1, and one above 1,024 as 1,024.
    // Table, strip and ceiling come apart, here and below: the caller brings each by itself, and no other call takes them.
    pub fn open(table: &'a mut [Slot], strip: &'a mut [S], ceiling: usize) -> Self
        ensures opened { Opened S.Ordered.order S.Ordered.symbol table.old strip.old ceiling result }
        ensures alike { SameTree S.Ordered.order S.Ordered.symbol }
    {
        Dictionary {
            store: Store::open(table, strip, ceiling),
        }
    }

    // The word ceiling and the capacity in force.
    pub fn limits(&self) -> Limits
        ensures { result ≡ limits self.now }
    {
        self.store.limits()
    }

    // How many entries are held.
    pub fn count(&self) -> usize
        ensures { result ≡ length (held S.Ordered.symbol self.now) }
    {
        self.store.count()
    }

    // Adds an entry and answers how many are then held. Its parts come apart: the word is only lent, and no value of an entry is kept.
    // Refused, with all as it was: 1 without symbols, 2 above the ceiling, 3 where the word is held, 4 where the capacity is reached.
    pub fn add(&mut self, word: &[S], weight: u32, tag: u32) -> Result<usize, Refusal>
        ensures { Added S.Ordered.order S.Ordered.symbol (record { word = map S.Ordered.symbol word.entry.now; weight = weight; tag = tag }) self.old result self.new }
    {
        self.store.add(word, weight, tag)
    }

    // Looks a word up: what its entry has, if it is held, and the slip of what the lookup cost. Refused: 1 without symbols, 2 above the ceiling.
    pub fn lookup(&self, word: &[S]) -> Result<(Option<Held>, Slip), Refusal>
        ensures { LookedUp S.Ordered.order S.Ordered.symbol self.now (map S.Ordered.symbol word.now) result }
    {
        self.lookup_by(word, &mut Counter::new())
    }

    // The same by asking a comparer of the caller's, who owns the word and the comparer apart. Lent at 0, it stands at the pairs on the slip afterwards.
    pub fn lookup_by<C: Comparer<S>>(
        &self,
        word: &[S],
        comparer: &mut C,
    ) -> Result<(Option<Held>, Slip), Refusal>
        ensures looked { LookedUp S.Ordered.order S.Ordered.symbol self.now (map S.Ordered.symbol word.now) result }
        ensures asked { RaisedBy (pairs_on result) (C.Comparer.asked comparer.old) (C.Comparer.asked comparer.new) }
        ensures lent { C.Comparer.asked comparer.old ≡ 0 → C.Comparer.asked comparer.new ≡ pairs_on result }
    {
        let looked = self.store.lookup(word, comparer)?;
        Ok((looked.found, Slip::new(looked.met, looked.pairs)))
    }

    // The held entry that follows a word in word order, with its two stored lengths. The first entry follows the word without symbols.
    pub fn following(&self, word: &[S]) -> Option<Entry<'_, S>>
        ensures { Kept S.Ordered.order S.Ordered.symbol self.now → option_map (listing S.Ordered.symbol) result ≡ option_map (listed_in S.Ordered.order (held S.Ordered.symbol self.now)) (nearest_after S.Ordered.order (map S.Ordered.symbol word.now) (held S.Ordered.symbol self.now)) }
    {
        self.store.following(word)
    }
}
