ghost use Rattle.std.specs.Prelude.{◌≡◌, None, Ok, IfOk, IsSome, OnErr, OnOk, slice_index_or};
ghost use Rattle.limits.specs.Capacity.{limits_for};
ghost use Rattle.script.specs.Commands.{command_of};
ghost use Rattle.script.specs.Texts.{hex_bytes, word_in};
ghost use Rattle.console.specs.Lines.{Prints, RunsLine, RunsText, command_text, sheet_text, words_text};
ghost use Rattle.console.specs.Texts.{answer_text, opened_text};

use crate::answer::Answer;
use crate::error::LineError;
use kinds::letter::Letter;
use kinds::pen::PenElement;
use limits::bounds::Limits;
use records::read::read_record;
use script::command::{Command, Kind, split_words};
use script::symbol::{Symbol, word};
use script::text::bytes;
use std::alloc::Global;
use words::comparison::compare_words;

// The open dictionary: its kind, its limits, and how much memory is brought to the calls that take some.
// The kind is a value: as a type of the session it would stand for no field.
#[derive(Clone, Copy, Debug)]
pub struct Session {
    kind: Kind,
    limits: Limits,
    strip: usize,
    work: usize,
}

// Compares two words of a kind.
fn compare<S: Symbol>(heap: Global, first: &str, second: &str) -> Result<Answer, LineError>
    ensures { Prints (words_text S.Ordered.order (word_in S.Symbol.of_piece S.Symbol.of_text first.now) (word_in S.Symbol.of_piece S.Symbol.of_text second.now)) result }
{
    let a = word::<S>(heap, first)?;
    let b = word::<S>(heap, second)?;
    Ok(Answer::Compared(compare_words(a.as_slice(), b.as_slice())))
}

// Reads the record of a kind at a place of a sheet.
fn record<S: Symbol>(heap: Global, hex: &str, place: usize) -> Result<Answer, LineError>
    ensures { Prints (sheet_text S.Written.codec.width place (hex_bytes hex.now)) result }
{
    let sheet = bytes(heap, hex)?;
    match read_record::<S>(sheet.as_slice(), place) {
        Ok((record, next)) => Ok(Answer::recorded(heap, record, next)?),
        Err(refusal) => Ok(Answer::Refused(refusal)),
    }
}

impl Session {
    // An empty dictionary over memory of these lengths. What is brought suffices until a script says otherwise.
    fn open(kind: Kind, table: usize, strip: usize, ceiling: usize) -> Session
        ensures { (result.kind ≡ kind) × (result.limits ≡ limits_for table strip ceiling) × (result.strip ≡ result.limits.ceiling) × (result.work ≡ result.limits.capacity) }
    {
        let limits = Limits::new(table, strip, ceiling);
        Session {
            kind,
            limits,
            strip: limits.ceiling(),
            work: limits.capacity(),
        }
    }

    // What is in force after an opening.
    fn opened(&self) -> Answer
        ensures { answer_text result ≡ opened_text self.now.limits.capacity self.now.limits.ceiling }
    {
        Answer::Opened {
            capacity: self.limits.capacity(),
            ceiling: self.limits.ceiling(),
        }
    }

    // Runs a command on this dictionary, whose symbols are of the kind S.
    fn run<S: Symbol>(&mut self, heap: Global, command: Command) -> Result<Answer, LineError>
        ensures prints { Prints (command_text S.Ordered.order S.Written.codec.width S.Symbol.of_piece S.Symbol.of_text command.entry) result }
        ensures err { OnErr result (self.new ≡ self.old) }
    {
        match command {
            Command::Bring { strip, work } => {
                self.strip = strip;
                self.work = work;
                Ok(Answer::Brought { strip, work })
            }
            Command::Compare { first, second } => compare::<S>(heap, first, second),
            Command::Record { hex, place } => record::<S>(heap, hex, place),
            // Not on an open dictionary, or not run by the console yet.
            Command::Open { .. }
            | Command::Add { .. }
            | Command::Find { .. }
            | Command::List
            | Command::Tally => Err(LineError::BadCommand),
        }
    }
}

// Runs the words of a line.
fn run_words(
    heap: Global,
    session: &mut Option<Session>,
    words: &[&str],
) -> Result<Answer, LineError>
    ensures line { RunsLine session.old words.now (command_of words.now) result session.new }
    ensures err { OnErr result (session.new ≡ session.old) }
    ensures open { OnOk result (IsSome session.new) }
{
    let command = Command::new(words);
    if let Some(
        Command::Open {
            kind,
            table,
            strip,
            ceiling,
        },
    ) = command
    {
        let open = Session::open(kind, table, strip, ceiling);
        *session = Some(open);
        return Ok(open.opened());
    }
    // Before the first `open` every other line is answered alike, whether it can be read or not.
    let Some(open) = session else {
        return Err(match words {
            ["open", ..] => LineError::BadCommand,
            _ => LineError::NoDictionary,
        });
    };
    let Some(command) = command else {
        return Err(LineError::BadCommand);
    };
    // The one place where a kind's name becomes a type.
    match open.kind {
        Kind::Letters => open.run::<Letter>(heap, command),
        Kind::Pen => open.run::<PenElement>(heap, command),
    }
}

// Runs one line of a script and gives what to print, or nothing for a line that is passed over:
// one without words, or that begins with `#`. An error changes nothing.
pub fn run_line(
    heap: Global,
    session: &mut Option<Session>,
    line: &[u8],
) -> Result<Option<Answer>, LineError>
    ensures line { RunsText session.old line.now result session.new }
    ensures passed { slice_index_or line.now 0 35 ≡ 35 → (result ≡ Ok None) × (session.new ≡ session.old) }
    ensures err { OnErr result (session.new ≡ session.old) }
    ensures open { IfOk result (λ answer. IsSome answer → IsSome session.new) }
{
    if let [] | [b'#', ..] = line {
        return Ok(None);
    }
    let Ok(text) = std::str::from_utf8(line) else {
        return Err(if session.is_some() {
            LineError::BadCommand
        } else {
            LineError::NoDictionary
        });
    };
    let words = split_words(heap, text)?;
    if words.is_empty() {
        return Ok(None);
    }
    Ok(Some(run_words(heap, session, words.as_slice())?))
}
