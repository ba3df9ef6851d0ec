ghost use Rattle.std.specs.Prelude.{◌≡◌, ◌+◌, ◌*◌, ◌≤◌, length};
ghost use Rattle.store.specs.Tables.{overwritten};

use kinds::kind::Ordered;

// Writes a word to a place of a strip, which is given as many symbols as the ceiling says; all other symbols stay as they are.
pub(crate) fn put_word<S: Ordered>(strip: &mut [S], place: usize, ceiling: usize, word: &[S])
    requires { place * ceiling + length word.now ≤ length strip.old }
    ensures { strip.new ≡ overwritten (place * ceiling) word.now strip.old }
{
    let start = place * ceiling;
    strip[start..start + word.len()].copy_from_slice(word);
}
