use crate::command::{Command, Kind, split_words};
use crate::symbol::{word, word_text};
use crate::text::{bytes, hex};
use kinds::letter::Letter;
use kinds::pen::PenElement;
use std::test::Fail;

// What takes memory succeeds where there is some.
#[test]
fn a_line_is_read(rt: HostRuntime) -> Result<(), Fail> {
    let words = split_words(rt.alloc(), "\topen  letters 5 12 03 ")?;
    let open = Command::Open {
        kind: Kind::Letters,
        table: 5,
        strip: 12,
        ceiling: 3,
    };
    assert_eq!(rt; Command::new(words.as_slice()), Some(open));
    Ok(())
}

#[test]
fn words_are_read_and_written(rt: HostRuntime) -> Result<(), Fail> {
    let heap = rt.alloc();
    let letters = word::<Letter>(heap, "=INK")?;
    assert_eq!(rt; word_text(heap, letters.as_slice())?.as_str(), "73.78.75");
    let strokes = word::<PenElement>(heap, "0.03/1.15/3")?;
    assert_eq!(rt; word_text(heap, strokes.as_slice())?.as_str(), "0.3/1.15/3");
    let none = word::<PenElement>(heap, "-")?;
    assert_eq!(rt; word_text(heap, none.as_slice())?.as_str(), "-");
    Ok(())
}

#[test]
fn bytes_are_read_and_written(rt: HostRuntime) -> Result<(), Fail> {
    let heap = rt.alloc();
    let sheet = bytes(heap, "5A00ff")?;
    assert_eq!(rt; hex(heap, sheet.as_slice())?.as_str(), "5a00ff");
    Ok(())
}
