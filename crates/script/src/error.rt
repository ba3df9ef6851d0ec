ghost use Rattle.std.specs.Prelude.{◌≡◌, Some};
ghost use Rattle.script.specs.declared.error.ReadError.TheVariants.{OutOfMemory};
ghost use Rattle.script.specs.Reads.{error_text};

use std::alloc::{AllocError, AllocFailed};
use std::error::Error;
use std::fmt;

// Why a text of a script gives nothing: it cannot be read, or memory ran out over it.
#[derive(Clone, Copy, Debug, PartialEq, Eq, Hash)]
pub enum ReadError {
    Unreadable,
    OutOfMemory,
}

impl fmt::Display for ReadError {
    ghost output = { λ e. Some (error_text e) };

    fn fmt<W: fmt::Write>(&self, f: &mut fmt::Formatter<W>) -> fmt::Result {
        f.write_str(match self {
            Self::Unreadable => "cannot be read",
            Self::OutOfMemory => "out of memory",
        })
    }
}

impl Error for ReadError {}

impl From<AllocError> for ReadError {
    ghost from_gives = { λ _ e. e ≡ OutOfMemory };

    fn from(_error: AllocError) -> ReadError {
        ReadError::OutOfMemory
    }
}

impl<T: Drop> From<AllocFailed<T>> for ReadError {
    ghost from_gives = { λ _ e. e ≡ OutOfMemory };

    fn from(error: AllocFailed<T>) -> ReadError {
        ReadError::from(AllocError::from(error))
    }
}
