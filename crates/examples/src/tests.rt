use crate::remembering::compare_remembering;
use kinds::kind::{Ordered, Written, width_of};
use kinds::letter::Letter;
use kinds::pen::PenElement;
use limits::bounds::Limits;
use limits::refusal::Detail;
use records::mark::Children;
use records::read::read_record;
use records::record::{Numbers, Record};
use records::write::{write_closing, write_entry};
use std::alloc::{AllocError, Global};
use std::cmp::Ordering;
use std::test::Fail;
use words::comparison::compare_words;

// A word of letters.
fn letters(heap: Global, text: &str) -> Result<Vec<Letter>, AllocError> {
    let mut word = Vec::new(heap);
    for c in text.chars() {
        if let Ok(letter) = Letter::try_from(u32::from(c)) {
            word.push(letter)?;
        }
    }
    Ok(word)
}

fn code(letter: Option<Letter>) -> Option<u32> {
    letter.map(u32::from)
}

fn number(element: Option<PenElement>) -> Option<u8> {
    element.map(u8::from)
}

#[test]
fn letters_end_at_1114111(rt: HostRuntime) {
    assert_eq!(rt; code(Letter::try_from(0).ok()), Some(0));
    assert_eq!(rt; code(Letter::try_from(1114111).ok()), Some(1114111));
    assert_eq!(rt; code(Letter::try_from(1114112).ok()), None);
    assert_eq!(rt; code(Letter::try_from(4294967295).ok()), None);
    assert_eq!(rt;
        code(<Letter as Written>::read(&[16, 255, 255])),
        Some(1114111)
    );
    assert_eq!(rt; code(<Letter as Written>::read(&[17, 0, 0])), None);
    assert_eq!(rt; code(<Letter as Written>::read(&[0, 65])), None);
    assert_eq!(rt; code(<Letter as Written>::read(&[0, 0, 65, 0])), None);
    assert_eq!(rt; width_of::<Letter>(), 3);
}

#[test]
fn letters_are_written_high_byte_first(rt: HostRuntime) -> Result<(), Fail> {
    let last = Letter::try_from(1114111)?;
    let mut room = [7u8; 4];
    assert!(rt; last.write(&mut room));
    assert_eq!(rt; room, [16, 255, 255, 7]);
    let mut short = [7u8; 2];
    assert!(rt; !last.write(&mut short));
    assert_eq!(rt; short, [7, 7]);
    Ok(())
}

#[test]
fn pen_elements_end_at_15_and_3(rt: HostRuntime) {
    assert_eq!(rt; number(PenElement::moved(0, 0).ok()), Some(1));
    assert_eq!(rt; number(PenElement::moved(15, 3).ok()), Some(64));
    assert_eq!(rt; number(PenElement::moved(16, 0).ok()), None);
    assert_eq!(rt; number(PenElement::moved(0, 4).ok()), None);
    assert_eq!(rt; number(<PenElement as Written>::read(&[0])), Some(0));
    assert_eq!(rt; number(<PenElement as Written>::read(&[64])), Some(64));
    assert_eq!(rt; number(<PenElement as Written>::read(&[65])), None);
    assert_eq!(rt; number(<PenElement as Written>::read(&[])), None);
    assert_eq!(rt; width_of::<PenElement>(), 1);
}

#[test]
fn a_lift_comes_before_every_move(rt: HostRuntime) -> Result<(), Fail> {
    let low = PenElement::moved(0, 3)?;
    let high = PenElement::moved(1, 0)?;
    assert_eq!(rt; PenElement::Lift.compare(&low), Ordering::Less);
    assert_eq!(rt; low.compare(&high), Ordering::Less);
    assert_eq!(rt; high.compare(&low), Ordering::Greater);
    assert_eq!(rt; high.compare(&high), Ordering::Equal);
    Ok(())
}

#[test]
fn symbols_are_printed_by_their_numbers(rt: HostRuntime) -> Result<(), Fail> {
    let letter = Letter::try_from(65)?;
    let moved = PenElement::moved(3, 1)?;
    let lift = PenElement::Lift;
    let text = format!(in rt.alloc(); "{letter} {moved} {lift}")?;
    assert_eq!(rt; text.as_str(), "65 3/1 0");
    Ok(())
}

#[test]
fn words_are_compared_from_a_position(rt: HostRuntime) -> Result<(), Fail> {
    let inky = letters(rt.alloc(), "INKY")?;
    let inkwell = letters(rt.alloc(), "INKWELL")?;
    let whole = compare_words(inky.as_slice(), inkwell.as_slice());
    assert_eq!(rt; whole.answer, Ordering::Greater);
    assert_eq!(rt; whole.share, 3);
    assert_eq!(rt; whole.pairs, 4);
    let (rest, comparer) = compare_remembering(inky.as_slice(), inkwell.as_slice(), 3);
    assert_eq!(rt; rest.answer, Ordering::Greater);
    assert_eq!(rt; rest.share, 3);
    assert_eq!(rt; rest.pairs, 1);
    assert_eq!(rt; comparer.count(), 1);
    assert_eq!(rt; comparer.last(), Some(Ordering::Greater));
    let (none, unasked) = compare_remembering(inky.as_slice(), inkwell.as_slice(), 100);
    assert_eq!(rt; none.answer, Ordering::Less);
    assert_eq!(rt; none.share, 4);
    assert_eq!(rt; none.pairs, 0);
    assert_eq!(rt; unasked.last(), None);
    Ok(())
}

#[test]
fn limits_at_their_borders(rt: HostRuntime) {
    assert_eq!(rt; Limits::new(5, 12, 3).capacity(), 4);
    assert_eq!(rt; Limits::new(5, 12, 0).ceiling(), 1);
    assert_eq!(rt; Limits::new(5, 12, 0).capacity(), 5);
    assert_eq!(rt; Limits::new(20000, 20000, 1).capacity(), 16383);
    assert_eq!(rt; Limits::new(20000, 16383, 1).capacity(), 16383);
    assert_eq!(rt; Limits::new(1, 5000, 1024).ceiling(), 1024);
    assert_eq!(rt; Limits::new(9, 5000, 1025).ceiling(), 1024);
    assert_eq!(rt; Limits::new(9, 5000, 1025).capacity(), 4);
    assert_eq!(rt; Limits::new(0, 5000, 1).capacity(), 0);
}

fn numbers() -> Numbers {
    Numbers {
        children: Children::Both,
        weight: 4294967295,
        tag: 16909060,
        left: 65535,
        right: 258,
    }
}

// The refusal's number and place for the record of letters at a place.
fn refused(sheet: &[u8], at: usize) -> Option<(u8, Detail)> {
    match read_record::<Letter>(sheet, at) {
        Ok(_) => None,
        Err(refusal) => Some((refusal.number(), refusal.detail())),
    }
}

#[test]
fn a_record_is_read_back_where_it_was_written(rt: HostRuntime) -> Result<(), Fail> {
    let word = letters(rt.alloc(), "P")?;
    let mut sheet = [9u8; 24];
    assert_eq!(rt;
        write_entry(&mut sheet, 2, numbers(), word.as_slice()),
        Some(21)
    );
    assert_eq!(rt;
        sheet,
        [
            9, 9, 69, 3, 255, 255, 255, 255, 1, 2, 3, 4, 255, 255, 1, 2, 0, 1, 0, 0, 80, 9, 9, 9,
        ]
    );
    let Ok(
        (
            Record::Entry {
                numbers,
                length,
                symbols,
            },
            next,
        ),
    ) = read_record::<Letter>(&sheet, 2)
    else {
        return Err(Fail::new("no entry"));
    };
    assert_eq!(rt; numbers.children, Children::Both);
    assert_eq!(rt; numbers.weight, 4294967295);
    assert_eq!(rt; numbers.tag, 16909060);
    assert_eq!(rt; numbers.left, 65535);
    assert_eq!(rt; numbers.right, 258);
    assert_eq!(rt; length, 1);
    assert_eq!(rt; symbols, [0, 0, 80].as_slice());
    assert_eq!(rt; next, 21);
    Ok(())
}

#[test]
fn a_record_without_room_is_not_written(rt: HostRuntime) -> Result<(), Fail> {
    let word = letters(rt.alloc(), "P")?;
    let mut sheet = [9u8; 20];
    assert_eq!(rt;
        write_entry(&mut sheet, 2, numbers(), word.as_slice()),
        None
    );
    assert_eq!(rt;
        write_entry(&mut sheet, 18446744073709551615, numbers(), word.as_slice()),
        None
    );
    assert_eq!(rt; write_closing(&mut sheet, 17, 1), None);
    assert_eq!(rt; sheet, [9u8; 20]);
    assert_eq!(rt; write_closing(&mut sheet, 16, 513), Some(20));
    assert_eq!(rt;
        sheet,
        [9, 9, 9, 9, 9, 9, 9, 9, 9, 9, 9, 9, 9, 9, 9, 9, 90, 0, 2, 1]
    );
    Ok(())
}

#[test]
fn places_at_and_past_the_end(rt: HostRuntime) {
    let sheet = [90, 0, 0, 0];
    assert_eq!(rt; refused(&sheet, 0), None);
    assert_eq!(rt; refused(&sheet, 1), Some((12, Detail::Place(1))));
    assert_eq!(rt; refused(&sheet, 3), Some((11, Detail::Place(3))));
    assert_eq!(rt; refused(&sheet, 4), Some((11, Detail::Place(4))));
    assert_eq!(rt; refused(&sheet, 5), Some((11, Detail::Place(5))));
    assert_eq!(rt; refused(&[], 0), Some((11, Detail::Place(0))));
    assert_eq!(rt; refused(&[69, 4], 0), Some((12, Detail::Place(0))));
    assert_eq!(rt; refused(&[69, 3], 0), Some((11, Detail::Place(0))));
}

#[test]
fn words_of_no_symbols_and_of_65535(rt: HostRuntime) -> Result<(), Fail> {
    let heap = rt.alloc();
    let mut sheet = vec![in heap; 1u8; 65552]?;
    assert_eq!(rt;
        write_entry::<PenElement>(sheet.as_mut_slice(), 65536, numbers(), &[]),
        Some(65552)
    );
    let lifts = vec![in heap; PenElement::Lift; 65535]?;
    assert_eq!(rt;
        write_entry(sheet.as_mut_slice(), 1, numbers(), lifts.as_slice()),
        Some(65552)
    );
    assert_eq!(rt;
        write_entry(sheet.as_mut_slice(), 2, numbers(), lifts.as_slice()),
        None
    );
    match read_record::<PenElement>(sheet.as_slice(), 1) {
        Ok(
            (
                Record::Entry {
                    length,
                    symbols,
                    ..
                },
                next,
            ),
        ) => {
            assert_eq!(rt; length, 65535);
            assert_eq!(rt; symbols.len(), 65535);
            assert_eq!(rt; next, 65552);
        }
        _ => return Err(Fail::new("no entry")),
    }
    let long = vec![in heap; PenElement::Lift; 65536]?;
    let mut large = vec![in heap; 1u8; 70000]?;
    assert_eq!(rt;
        write_entry(large.as_mut_slice(), 0, numbers(), long.as_slice()),
        None
    );
    Ok(())
}
