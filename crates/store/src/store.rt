ghost use Rattle.std.specs.Prelude.{◌≡◌, ℕ, suc, ◌<◌, map, length, is_some, Ok};
ghost use Rattle.std.specs.Option.{option_map};
ghost use Rattle.limits.specs.Refusals.{refusal_of, word_refusal};
ghost use Rattle.rules.specs.Calls.{added};
ghost use Rattle.rules.specs.Walks.{lookup as steps};
ghost use Rattle.slots.specs.declared.slot.Side.TheVariants.{Right};
ghost use Rattle.store.specs.declared.lookup.Looked.{Looked};
ghost use Rattle.store.specs.declared.lookup.Walk.{Walk};
ghost use Rattle.store.specs.Entries.{LookedOf, listed_in, listing, pairs_of};
ghost use Rattle.store.specs.Keeping.{Follows, Kept};
ghost use Rattle.store.specs.Lookups.{WalkOf, pairs_walked};
ghost use Rattle.store.specs.Neighbours.{nearest as nearest_entry};
ghost use Rattle.store.specs.Stores.{FilledBy, FilledIn, HasRoom, Opened, entry_of, held, places, tree};
ghost use Rattle.words.specs.Counting.{RaisedBy};

use crate::attach::attach;
use crate::entry::Entry;
use crate::lookup::{Looked, Walk};
use crate::memory::Memory;
use crate::strip::put_word;
use kinds::kind::Ordered;
use limits::bounds::Limits;
use limits::refusal::Refusal;
use slots::slot::{NONE, Side, Slot};
use words::comparer::{Comparer, Counter};

// Memory in which, whatever the order of the symbols, a tree of places stands, so that each call stays in it and ends.
#[derive(Drop)]
pub struct Store<'a, S> {
    pub(crate) memory: Memory<'a, S>,
    ghost filled: { ∥ FilledIn memory ∥₁ },
}

impl<'a, S: Ordered> Store<'a, S> {
    // An empty store over lent memory, whatever the memory held.
    pub fn open(table: &'a mut [Slot], strip: &'a mut [S], ceiling: usize) -> Self
        ensures opened { Opened table.old strip.old ceiling result.memory }
        ensures kept { Kept S.Ordered.order S.Ordered.symbol result.memory }
    {
        let limits = Limits::new(table.len(), strip.len(), ceiling);
        Store {
            memory: Memory {
                table,
                strip,
                limits,
                top: NONE,
                count: 0,
            },
        }
    }

    // The ceiling and the capacity in force.
    pub fn limits(&self) -> Limits
        ensures { result ≡ self.now.memory.limits }
    {
        self.memory.limits
    }

    // How many entries are held.
    pub fn count(&self) -> usize
        ensures { result ≡ length (held S.Ordered.symbol self.now.memory) }
    {
        self.memory.count as usize
    }

    // Walks to a word by asking a lent comparer, which is raised by exactly the pairs looked at. Refused: 1 without symbols, 2 above the ceiling.
    pub fn walk<C: Comparer<S>>(&self, word: &[S], comparer: &mut C) -> Result<Walk, Refusal>
        ensures refused { refusal_of result ≡ word_refusal self.now.memory.limits (length word.now) }
        ensures walked { (x : Walk) → result ≡ Ok x → WalkOf S.Ordered.order (map S.Ordered.symbol word.now) (entry_of S.Ordered.symbol self.now.memory) (places self.now.memory) x }
        ensures asked { RaisedBy (pairs_walked result) (C.Comparer.asked comparer.old) (C.Comparer.asked comparer.new) }
    {
        self.limits().check_word(word.len())?;
        Ok(self.find(word, comparer))
    }

    // The same, and answers what the word's entry has.
    pub fn lookup<C: Comparer<S>>(&self, word: &[S], comparer: &mut C) -> Result<Looked, Refusal>
        ensures refused { refusal_of result ≡ word_refusal self.now.memory.limits (length word.now) }
        ensures looked { (x : Looked) → result ≡ Ok x → LookedOf (steps S.Ordered.order (map S.Ordered.symbol word.now) 0 0 (tree S.Ordered.symbol self.now.memory)) x }
        ensures asked { RaisedBy (pairs_of result) (C.Comparer.asked comparer.old) (C.Comparer.asked comparer.new) }
    {
        let walk = self.walk(word, comparer)?;
        Ok(Looked {
            found: self.memory.held(walk.found),
            met: walk.met,
            pairs: walk.pairs,
        })
    }

    // Adds an entry and answers how many are held. Refused, with all as it was: 1 without symbols, 2 above the ceiling, 3 where the word is held, 4 where the capacity is reached.
    pub fn add(&mut self, word: &[S], weight: u32, tag: u32) -> Result<usize, Refusal>
        ensures added { Follows S.Ordered.order S.Ordered.symbol (added S.Ordered.order (record { word = map S.Ordered.symbol word.entry.now; weight = weight; tag = tag })) self.old.memory result self.new.memory }
        ensures counted { (n : ℕ) → result ≡ Ok n → n ≡ suc (length (held S.Ordered.symbol self.old.memory)) }
    {
        let limits = self.memory.limits;
        limits.check_word(word.len())?;
        if self.holds(word) {
            return Err(Refusal::WordHeld);
        }
        if self.memory.count as usize >= limits.capacity() {
            return Err(Refusal::CapacityReached);
        }
        fill(&mut self.memory, word, weight, tag);
        Ok(self.memory.count as usize)
    }

    // The held entry that follows a word in word order, with its two stored lengths; the first one of all follows the word without symbols.
    pub fn following(&self, word: &[S]) -> Option<Entry<'_, S>>
        ensures { Kept S.Ordered.order S.Ordered.symbol self.now.memory → option_map (listing S.Ordered.symbol) result ≡ option_map (listed_in S.Ordered.order (held S.Ordered.symbol self.now.memory)) (nearest_entry S.Ordered.order Right (map S.Ordered.symbol word.now) (held S.Ordered.symbol self.now.memory)) }
    {
        let place = self.nearest(word, Side::Right)?;
        Some(self.memory.entry(place))
    }

    // Whether the lookup by steps finds a word.
    fn holds(&self, word: &[S]) -> bool
        ensures { result ≡ is_some (steps S.Ordered.order (map S.Ordered.symbol word.now) 0 0 (tree S.Ordered.symbol self.now.memory)).found }
    {
        self.find(word, &mut Counter::new()).found.is_some()
    }
}

// Writes an entry, of which it has the parts as `add` was given them, to the first free place and puts that place into the tree.
fn fill<S: Ordered>(memory: &mut Memory<S>, word: &[S], weight: u32, tag: u32)
    requires { HasRoom word.now memory.old }
    ensures { FilledBy S.Ordered.symbol S.Ordered.order (record { word = map S.Ordered.symbol word.entry.now; weight = weight; tag = tag }) memory.old memory.new }
{
    let place = memory.count;
    let ceiling = memory.limits.ceiling();
    put_word(memory.strip, place as usize, ceiling, word);
    memory.table[place as usize] = Slot::unlinked(word.len() as u16, weight, tag);
    attach(memory, word, place);
    memory.count = place + 1;
}
