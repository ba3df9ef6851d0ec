ghost use Rattle.std.specs.Prelude.{◌≡◌, Some};
ghost use Rattle.console.specs.declared.error.LineError.TheVariants.{OutOfMemory};
ghost use Rattle.console.specs.Texts.{error_text};
ghost use Rattle.console.specs.Lines.{line_error};

use script::error::ReadError;
use std::alloc::AllocError;
use std::error::Error;
use std::fmt;

// Why a line has no answer of its own.
#[derive(Clone, Copy, Debug, PartialEq, Eq, Hash)]
pub enum LineError {
    // it cannot be read
    BadCommand,
    // it asks of a dictionary before any is open
    NoDictionary,
    OutOfMemory,
}

impl fmt::Display for LineError {
    ghost output = { λ e. Some (error_text e) };

    fn fmt<W: fmt::Write>(&self, f: &mut fmt::Formatter<W>) -> fmt::Result {
        f.write_str(match self {
            LineError::BadCommand => "bad command",
            LineError::NoDictionary => "no dictionary",
            LineError::OutOfMemory => "out of memory",
        })
    }
}

impl Error for LineError {}

impl From<ReadError> for LineError {
    ghost from_gives = { λ e line. line ≡ line_error e };

    fn from(error: ReadError) -> LineError {
        match error {
            ReadError::Unreadable => LineError::BadCommand,
            ReadError::OutOfMemory => LineError::OutOfMemory,
        }
    }
}

impl From<AllocError> for LineError {
    ghost from_gives = { λ _ line. line ≡ OutOfMemory };

    fn from(error: AllocError) -> LineError {
        LineError::from(ReadError::from(error))
    }
}
