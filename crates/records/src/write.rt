ghost use Rattle.std.specs.Prelude.{◌≡◌, ℕ, ◌+◌, ◌*◌, ◌≤◌, ◌++◌, map, length, if◌then◌else◌, Some, None, nat_le};
ghost use Rattle.kinds.specs.Bytes.{over};
ghost use Rattle.std.specs.List.{flat_map};
ghost use Rattle.records.specs.Records.{closing, closing_bytes, head_bytes};
ghost use Rattle.records.specs.Writing.{Puts, entry_of};

use crate::mark::{CLOSING, ENTRY};
use crate::record::Numbers;
use kinds::kind::{Written, width_of};

// The place after so many bytes from a place on, or none where a buffer of this length has no room for them.
fn place_after(buffer: usize, at: usize, size: usize) -> Option<usize>
    ensures { result ≡ (if nat_le (at + size) buffer then Some (at + size) else None) }
{
    at.checked_add(size).filter(|next| *next <= buffer)
}

// An entry's mark and numbers, over the front of what is lent.
fn put_head(rest: &mut [u8], numbers: Numbers, size: u16)
    requires { 16 ≤ length rest.old }
    ensures { rest.new ≡ over 0 (head_bytes numbers size) rest.old }
{
    rest[0] = ENTRY;
    rest[1] = u8::from(numbers.children);
    rest[2..6].copy_from_slice(&numbers.weight.to_be_bytes());
    rest[6..10].copy_from_slice(&numbers.tag.to_be_bytes());
    rest[10..12].copy_from_slice(&numbers.left.to_be_bytes());
    rest[12..14].copy_from_slice(&numbers.right.to_be_bytes());
    rest[14..16].copy_from_slice(&size.to_be_bytes());
}

// The closing record, over the front of what is lent.
fn put_closing(rest: &mut [u8], count: u16)
    requires { 4 ≤ length rest.old }
    ensures { rest.new ≡ over 0 (closing_bytes count) rest.old }
{
    rest[0] = CLOSING;
    rest[1] = 0;
    rest[2..4].copy_from_slice(&count.to_be_bytes());
}

// The bytes of a word's symbols, one after another, over the front of what is lent.
fn put_word<S: Written>(rest: &mut [u8], word: &[S])
    requires { length word.now * S.Written.codec.width ≤ length rest.old }
    ensures { rest.new ≡ over 0 (flat_map S.Written.codec.bytes (map S.Ordered.symbol word.now)) rest.old }
{
    let width = width_of::<S>();
    for (i, symbol) in word.iter().enumerate() {
        // Not by `chunks_exact_mut`: of what was written through its parts a proof knows the length alone.
        symbol.write(&mut rest[i * width..]);
    }
}

// An entry's whole record, over the front of what is lent.
fn put_entry<S: Written>(rest: &mut [u8], numbers: Numbers, size: u16, word: &[S])
    requires { 16 + length word.now * S.Written.codec.width ≤ length rest.old }
    ensures { rest.new ≡ over 0 (head_bytes numbers size ++ flat_map S.Written.codec.bytes (map S.Ordered.symbol word.now)) rest.old }
{
    put_head(rest, numbers, size);
    put_word(&mut rest[16..], word);
}

// Writes an entry's record into a buffer from a place on, and answers the place after it.
// Where the record has no room there, or the word is too long for its two length bytes, it answers none and writes nothing.
pub fn write_entry<S: Written>(
    sheet: &mut [u8],
    at: usize,
    numbers: Numbers,
    word: &[S],
) -> Option<usize>
    ensures { Puts S.Written.codec.width (entry_of S.Written.codec numbers (map S.Ordered.symbol word.now)) at sheet.old sheet.new result }
{
    let size = u16::try_from(word.len()).ok()?;
    let next = place_after(sheet.len(), at, 16 + word.len() * width_of::<S>())?;
    put_entry(&mut sheet[at..], numbers, size, word);
    Some(next)
}

// Writes the closing record into a buffer from a place on, and answers the place after it.
// Where it has no room there, it answers none and writes nothing.
pub fn write_closing(sheet: &mut [u8], at: usize, count: u16) -> Option<usize>
    ensures { (width : ℕ) → Puts width (closing count) at sheet.old sheet.new result }
{
    let next = place_after(sheet.len(), at, 4)?;
    put_closing(&mut sheet[at..], count);
    Some(next)
}
