ghost use Rattle.std.specs.Prelude.{◌≡◌, ◌<◌, ◌≤◌, ◌&&◌, ◌||◌, map, length, ◌==◌, nat_lt};
ghost use Rattle.std.specs.Ordering.{is_gt};
ghost use Rattle.store.specs.Stores.{TreeAlone, entry_of, places};
ghost use Rattle.store.specs.Unzips.{FreeOf, Grown, HookIn, inserted_at, seated, seated_top};

use crate::memory::Memory;
use crate::unzip::unzip;
use crate::writes::{Hook, hang, note};
use kinds::kind::Ordered;
use slots::search::{Search, Shares};
use slots::slot::{Side, Slot};
use std::cmp::Ordering;
use words::comparer::Counter;

// Whether an entry met stays above a new one: it has more weight, or as much and the smaller word. The answer says how the new word stands to the met one.
fn stays_above(met: u32, new: u32, answer: Ordering) -> bool
    ensures { result ≡ (nat_lt new met || (met == new && is_gt answer)) }
{
    new < met || (met == new && answer.is_gt())
}

// Hangs a place on a hook, or makes it the top where there is none. Answers the top.
fn seat(table: &mut [Slot], above: Option<Hook>, place: u16, top: u16) -> u16
    requires { HookIn (length table.old) above }
    ensures top { result ≡ seated_top above place top }
    ensures table { table.new ≡ seated table.old above place }
{
    match above {
        Some(hook) => {
            hang(table, hook, place);
            top
        }
        None => place,
    }
}

// Puts a place into the tree. Its slot has its weight, tag and word length, and the strip its word.
// It goes below all that stay above it on the way to its word, and what stood there is unzipped.
pub(crate) fn attach<S: Ordered>(memory: &mut Memory<S>, word: &[S], place: u16)
    requires free { FreeOf memory.old.table.now (length memory.old.strip.now) memory.old.limits.ceiling memory.old.limits.capacity place (places memory.old) memory.old.top }
    requires room { place < memory.old.limits.capacity }
    requires short { length word.now ≤ 1024 }
    requires word { map S.Ordered.symbol word.now ≡ (entry_of S.Ordered.symbol memory.old place).word }
    ensures tree { Grown memory.old.limits.capacity memory.old.table.now place (places memory.old) (inserted_at S.Ordered.order (entry_of S.Ordered.symbol memory.old) place 0 0 (places memory.old)) memory.new.top memory.new.table.now }
    ensures rest { TreeAlone memory.old memory.new }
{
    let limits = memory.limits;
    let top = memory.top;
    let weight = memory.table[place as usize].weight;
    let mut counter = Counter::new();
    let mut search = Search::new(word, &mut counter);
    let mut above = None;
    let mut at = top;
    while (at as usize) < limits.capacity() {
        let step = memory.compare(at, &mut search);
        if !stays_above(memory.table[at as usize].weight, weight, step.answer) {
            break;
        }
        let side = if step.answer.is_gt() {
            Side::Right
        } else {
            Side::Left
        };
        search.pass(side, step.share);
        let hook = Hook { place: at, side };
        above = Some(hook);
        at = memory.child(hook);
    }
    let Shares { before, after } = search.shares;
    unzip(memory, at, &mut search, place);
    let left = Hook {
        place,
        side: Side::Left,
    };
    let right = Hook {
        place,
        side: Side::Right,
    };
    note(memory.table, left, before as u16);
    note(memory.table, right, after as u16);
    memory.top = seat(memory.table, above, place, top);
}
