ghost use Rattle.std.specs.Prelude.{◌≡◌, ℕ, ◌<◌, map, length, Some};
ghost use Rattle.std.specs.Option.{option_map};
ghost use Rattle.slots.specs.Searches.{SameSearch};
ghost use Rattle.store.specs.Tables.{slot_at, stored_at};
ghost use Rattle.store.specs.Entries.{held_at, listed_at, listing};
ghost use Rattle.store.specs.Stores.{InMemory, entry_of};
ghost use Rattle.store.specs.Lookups.{compared_at};
ghost use Rattle.store.specs.Unzips.{child_on};
ghost use Rattle.words.specs.Counting.{RaisedBy};

use crate::entry::{Entry, Held};
use crate::writes::Hook;
use kinds::kind::Ordered;
use limits::bounds::Limits;
use slots::search::Search;
use slots::slot::{Side, Slot};
use words::comparer::Comparer;
use words::comparison::Comparison;

// The memory that a dictionary is lent, and how far it is filled.
// It is all the memory that there is, so children are places in the table and words are parts of the strip, and neither is a box of its own.
#[derive(Drop)]
pub struct Memory<'a, S> {
    // the entry table
    pub(crate) table: &'a mut [Slot],
    // the word strip
    pub(crate) strip: &'a mut [S],
    pub(crate) limits: Limits,
    // the place of the top entry; it is a number, none where a slot would have none, since a walk goes on from it by what slots say
    pub(crate) top: u16,
    // how many entries are held, which have the first places
    pub(crate) count: u16,
}

impl<'a, S> Memory<'a, S> {
    // The child on a hook.
    pub(crate) fn child(&self, hook: Hook) -> u16
        requires { hook.place < length self.now.table.now }
        ensures { result ≡ child_on hook.side (slot_at self.now.table.now hook.place) }
    {
        let slot = self.table[hook.place as usize];
        match hook.side {
            Side::Left => slot.left,
            Side::Right => slot.right,
        }
    }

    // The word of the entry at a place. That the place is in this memory is asked at each such call: no type of place knows of which memory it is.
    fn word(&self, place: u16) -> &[S]
        requires { InMemory self.now place }
        ensures { result.now ≡ stored_at self.now.table.now self.now.strip.now self.now.limits.ceiling place }
    {
        let start = place as usize * self.limits.ceiling();
        &self.strip[start..start + self.table[place as usize].length as usize]
    }

    // The weight and the tag of the entry at the place that was found.
    pub(crate) fn held(&self, found: Option<u16>) -> Option<Held>
        requires { (p : ℕ) → found ≡ Some p → p < length self.now.table.now }
        ensures { result ≡ option_map (held_at self.now.table.now) found }
    {
        let slot = self.table[found? as usize];
        Some(Held {
            weight: slot.weight,
            tag: slot.tag,
        })
    }
}

impl<'a, S: Ordered> Memory<'a, S> {
    // The entry at a place.
    pub(crate) fn entry(&self, place: u16) -> Entry<'_, S>
        requires { InMemory self.now place }
        ensures { listing S.Ordered.symbol result ≡ listed_at S.Ordered.symbol self.now place }
    {
        let slot = self.table[place as usize];
        Entry {
            word: self.word(place),
            weight: slot.weight,
            tag: slot.tag,
            left_length: slot.left_length,
            right_length: slot.right_length,
        }
    }

    // Compares a sought word with the entry met at a place. In line in each walk, which meets many entries.
    #[inline(always)]
    pub(crate) fn compare<C: Comparer<S>>(
        &self,
        place: u16,
        search: &mut Search<S, C>,
    ) -> Comparison
        requires { InMemory self.now place }
        ensures value { result ≡ compared_at S.Ordered.order (map S.Ordered.symbol search.old.word.now) (entry_of S.Ordered.symbol self.now) self.now.table.now place search.old.shares }
        ensures asked { RaisedBy result.pairs (C.Comparer.asked search.old.comparer.now) (C.Comparer.asked search.new.comparer.now) }
        ensures shares { search.new.shares ≡ search.old.shares }
        ensures same { SameSearch search.old search.new }
    {
        let slot = self.table[place as usize];
        search.meet(&slot, self.word(place))
    }
}
