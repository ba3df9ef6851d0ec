ghost use Rattle.std.specs.Prelude.{◌≡◌, ◌<◌, Some, refl};
ghost use Rattle.std.specs.Option.{option_map};
ghost use Rattle.std.specs.Result.{result_ok};
ghost use Rattle.kinds.specs.Codecs.{GivesBelow};
ghost use Rattle.kinds.specs.Orders.{number_order};
ghost use Rattle.kinds.specs.PenElements.{as_move, class_number, direction_number, element_number, element_text, pen_elements};
ghost use Rattle.kinds.specs.Laws.{each_element, number_order_lawful, pen_elements_faithful};

use crate::kind::{NoSuchSymbol, Ordered, Written};
use std::cmp::Ordering;
use std::fmt;

// The direction of a move, 0 to 15. The rules number the directions and name them no further.
#[derive(Clone, Copy, Debug, PartialEq, Eq, Hash)]
pub enum Direction {
    D0,
    D1,
    D2,
    D3,
    D4,
    D5,
    D6,
    D7,
    D8,
    D9,
    D10,
    D11,
    D12,
    D13,
    D14,
    D15,
}

// The direction of a number, or an error from 16 on.
impl TryFrom<u8> for Direction {
    type Error = NoSuchSymbol;

    ghost try_from_gives = { GivesBelow 16 direction_number };

    fn try_from(number: u8) -> Result<Direction, NoSuchSymbol> {
        match number {
            0 => Ok(Direction::D0),
            1 => Ok(Direction::D1),
            2 => Ok(Direction::D2),
            3 => Ok(Direction::D3),
            4 => Ok(Direction::D4),
            5 => Ok(Direction::D5),
            6 => Ok(Direction::D6),
            7 => Ok(Direction::D7),
            8 => Ok(Direction::D8),
            9 => Ok(Direction::D9),
            10 => Ok(Direction::D10),
            11 => Ok(Direction::D11),
            12 => Ok(Direction::D12),
            13 => Ok(Direction::D13),
            14 => Ok(Direction::D14),
            15 => Ok(Direction::D15),
            _ => Err(NoSuchSymbol),
        }
    }
}

impl From<Direction> for u8 {
    ghost from_gives = { λ direction number. (number ≡ direction_number direction) × (number < 16) };

    fn from(direction: Direction) -> u8 {
        direction as u8
    }
}

// The length class of a move, 0 to 3.
#[derive(Clone, Copy, Debug, PartialEq, Eq, Hash)]
pub enum LengthClass {
    C0,
    C1,
    C2,
    C3,
}

// The class of a number, or an error from 4 on.
impl TryFrom<u8> for LengthClass {
    type Error = NoSuchSymbol;

    ghost try_from_gives = { GivesBelow 4 class_number };

    fn try_from(number: u8) -> Result<LengthClass, NoSuchSymbol> {
        match number {
            0 => Ok(LengthClass::C0),
            1 => Ok(LengthClass::C1),
            2 => Ok(LengthClass::C2),
            3 => Ok(LengthClass::C3),
            _ => Err(NoSuchSymbol),
        }
    }
}

impl From<LengthClass> for u8 {
    ghost from_gives = { λ class number. (number ≡ class_number class) × (number < 4) };

    fn from(class: LengthClass) -> u8 {
        class as u8
    }
}

// What a pen does: it is lifted, or it moves.
#[derive(Clone, Copy, Debug, PartialEq, Eq, Hash)]
pub enum PenElement {
    Lift,
    Move {
        direction: Direction,
        class: LengthClass,
    },
}

impl PenElement {
    // A move by its numbers, or an error where one is out of range.
    pub fn moved(direction: u8, class: u8) -> Result<PenElement, NoSuchSymbol>
        ensures { option_map element_number (result_ok result) ≡ as_move direction class }
    {
        let direction = Direction::try_from(direction)?;
        let class = LengthClass::try_from(class)?;
        Ok(PenElement::Move { direction, class })
    }
}

// The element of a number among the 65, or an error from 65 on.
impl TryFrom<u8> for PenElement {
    type Error = NoSuchSymbol;

    ghost try_from_gives = { GivesBelow 65 element_number };

    fn try_from(number: u8) -> Result<PenElement, NoSuchSymbol> {
        match number {
            0 => Ok(PenElement::Lift),
            _ => PenElement::moved((number - 1) / 4, (number - 1) % 4),
        }
    }
}

// The element's number among the 65, in their order: a lift is 0, a move 1 + 4 × direction + class.
impl From<PenElement> for u8 {
    ghost from_gives = { λ element number. (number ≡ element_number element) × (number < 65) };

    fn from(element: PenElement) -> u8 {
        match element {
            PenElement::Lift => 0,
            PenElement::Move { direction, class } => 1 + 4 * u8::from(direction) + u8::from(class),
        }
    }
}

// `0` for a lift, and for a move its direction and class, as `3/1`.
impl fmt::Display for PenElement {
    ghost output = { λ element. Some (element_text element) };

    fn fmt<W: fmt::Write>(&self, f: &mut fmt::Formatter<W>) -> fmt::Result {
        match self {
            PenElement::Lift => f.write_str("0"),
            PenElement::Move { direction, class } => {
                write!(f, "{}/{}", u8::from(*direction), u8::from(*class))
            }
        }
    }
}

impl Ordered for PenElement {
    ghost symbol = { element_number };

    ghost order = { number_order };

    ghost lawful = { number_order_lawful };

    // By number, as the rules order them: a derive on the three types would order by their variants, with a lemma to tie these to the numbers.
    fn compare(&self, other: &PenElement) -> Ordering {
        u8::from(*self).cmp(&u8::from(*other))
    }
}

impl Written for PenElement {
    const WIDTH: usize = 1;

    ghost WIDTH = { 1 };

    ghost codec = { pen_elements };

    ghost wide = { refl };

    ghost faithful = { pen_elements_faithful };

    ghost each = { each_element };

    fn write(&self, out: &mut [u8]) -> bool {
        let Some(first) = out.first_mut() else {
            return false;
        };
        *first = u8::from(*self);
        true
    }

    fn read(from: &[u8]) -> Option<PenElement> {
        let [number] = from else {
            return None;
        };
        PenElement::try_from(*number).ok()
    }
}
