ghost use Rattle.std.specs.Prelude.{◌≡◌, ◌<◌, length};
ghost use Rattle.store.specs.Unzips.{hung, noted};

use slots::slot::{Side, Slot};

// A side of a place, where a tree can be hung.
#[derive(Clone, Copy)]
pub(crate) struct Hook {
    pub(crate) place: u16,
    pub(crate) side: Side,
}

// Hangs a child on a hook. This and `note` write different fields, which no parameter names plainer.
// Each asks for a place of this table, as `child` does: no type of place knows of which table it is.
pub(crate) fn hang(table: &mut [Slot], hook: Hook, child: u16)
    requires { hook.place < length table.old }
    ensures { table.new ≡ hung table.old hook.place hook.side child }
{
    let slot = &mut table[hook.place as usize];
    match hook.side {
        Side::Left => slot.left = child,
        Side::Right => slot.right = child,
    }
}

// Notes beside a hook what the word of its place shares with its nearest ancestor on that side.
pub(crate) fn note(table: &mut [Slot], hook: Hook, share: u16)
    requires { hook.place < length table.old }
    ensures { table.new ≡ noted table.old hook.place hook.side share }
{
    let slot = &mut table[hook.place as usize];
    match hook.side {
        Side::Left => slot.left_length = share,
        Side::Right => slot.right_length = share,
    }
}
