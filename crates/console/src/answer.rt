ghost use Rattle.std.specs.Prelude.{◌≡◌, IfOk, Some};
ghost use Rattle.records.specs.Answers.{content_of};
ghost use Rattle.console.specs.Texts.{answer_text, order_text, record_text};

use limits::refusal::Refusal;
use records::record::{Numbers, Record};
use script::text::hex;
use std::alloc::{AllocError, Global};
use std::cmp::Ordering;
use std::fmt;
use words::comparison::Comparison;

// What a command comes to, as the console prints it.
#[derive(Debug, Drop)]
pub enum Answer {
    Opened {
        capacity: usize,
        ceiling: usize,
    },
    Brought {
        strip: usize,
        work: usize,
    },
    Compared(Comparison),
    Entry {
        numbers: Numbers,
        // the bytes of its symbols in hexadecimal
        symbols: String,
        next: usize,
    },
    Closing {
        count: u16,
        next: usize,
    },
    Refused(Refusal),
}

impl Answer {
    // A record of a sheet, and the place after it.
    pub fn recorded(heap: Global, found: Record, next: usize) -> Result<Answer, AllocError>
        ensures { IfOk result (λ a. answer_text a ≡ record_text (content_of found.entry) next) }
    {
        match found {
            Record::Entry {
                numbers,
                symbols,
                ..
            } => Ok(Answer::Entry {
                numbers,
                symbols: hex(heap, symbols)?,
                next,
            }),
            Record::Closing { count } => Ok(Answer::Closing { count, next }),
        }
    }
}

// `Ordering` is the library's, so no `Display` of ours can stand on it.
fn order_name(order: Ordering) -> &'static str
    ensures { result.now ≡ order_text order }
{
    match order {
        Ordering::Less => "before",
        Ordering::Equal => "same",
        Ordering::Greater => "after",
    }
}

impl fmt::Display for Answer {
    ghost output = { λ a. Some (answer_text a) };

    fn fmt<W: fmt::Write>(&self, f: &mut fmt::Formatter<W>) -> fmt::Result {
        match self {
            Answer::Opened { capacity, ceiling } => {
                write!(f, "open capacity {capacity} ceiling {ceiling}")
            }
            Answer::Brought { strip, work } => write!(f, "bring {strip} {work}"),
            Answer::Compared(c) => {
                let order = order_name(c.answer);
                write!(f, "{order} shared {} pairs {}", c.share, c.pairs)
            }
            Answer::Entry {
                numbers,
                symbols,
                next,
            } => {
                let Numbers {
                    children,
                    weight,
                    tag,
                    left,
                    right,
                } = *numbers;
                let child = u8::from(children);
                write!(
                    f,
                    "entry {child} {weight} {tag} {left} {right} {symbols} next {next}"
                )
            }
            Answer::Closing { count, next } => write!(f, "closing {count} next {next}"),
            Answer::Refused(refusal) => write!(f, "{refusal}"),
        }
    }
}
