ghost use Rattle.std.specs.Prelude.{◌≡◌, ◌+◌, ◌≤◌, map, length};
ghost use Rattle.slots.specs.Searches.{SameSearch};
ghost use Rattle.store.specs.Stores.{TableAlone, entry_of};
ghost use Rattle.store.specs.Tables.{rooted};
ghost use Rattle.store.specs.Unzips.{FreeOf, Unzipped};

use crate::memory::Memory;
use crate::writes::{Hook, hang, note};
use kinds::kind::Ordered;
use slots::search::Search;
use slots::slot::{NONE, Side};
use words::comparer::Comparer;

// Parts the tree below `top` along the way to a word, and hangs the two parts on a place outside of the tree: what comes before the word on its left, the rest on its right.
// Each entry of the way gets the word for its shares ancestor on the side of the word, so what it shares with the word is noted there.
pub(crate) fn unzip<S: Ordered, C: Comparer<S>>(
    memory: &mut Memory<S>,
    top: u16,
    search: &mut Search<S, C>,
    place: u16,
)
    requires free { FreeOf memory.old.table.now (length memory.old.strip.now) memory.old.limits.ceiling memory.old.limits.capacity place (rooted memory.old.table.now memory.old.limits.capacity top) top }
    requires before { search.old.shares.before ≤ length search.old.word.now }
    requires after { search.old.shares.after ≤ length search.old.word.now }
    requires short { length search.old.word.now ≤ 1024 }
    ensures table { Unzipped S.Ordered.order (entry_of S.Ordered.symbol memory.old) memory.old.limits.capacity (map S.Ordered.symbol search.old.word.now) search.old.shares.before search.old.shares.after place (rooted memory.old.table.now memory.old.limits.capacity top) memory.old.table.now memory.new.table.now }
    ensures rest { TableAlone memory.old memory.new }
    ensures same { SameSearch search.old search.new }
{
    let limits = memory.limits;
    let mut at = top;
    let mut low = Hook {
        place,
        side: Side::Left,
    };
    let mut high = Hook {
        place,
        side: Side::Right,
    };
    // Two branches: each grows its own part, and one for both would choose at every write which.
    while (at as usize) < limits.capacity() {
        let step = memory.compare(at, search);
        let share = step.share as u16;
        if step.answer.is_gt() {
            let right = Hook {
                place: at,
                side: Side::Right,
            };
            let next = memory.child(right);
            hang(memory.table, low, at);
            note(memory.table, right, share);
            low = right;
            search.pass(Side::Right, step.share);
            at = next;
        } else {
            let left = Hook {
                place: at,
                side: Side::Left,
            };
            let next = memory.child(left);
            hang(memory.table, high, at);
            note(memory.table, left, share);
            high = left;
            search.pass(Side::Left, step.share);
            at = next;
        }
    }
    hang(memory.table, low, NONE);
    hang(memory.table, high, NONE);
}
