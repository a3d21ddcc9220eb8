// Why a day has no report, and why nothing is printed of it.
ghost use Rattle.std.specs.Prelude.{◌≡◌, Some};
ghost use Rattle.depot_day.specs.Messages.{message};
ghost use Rattle.depot_day.specs.declared.error.DayError.TheVariants.{OutOfMemory, Refused};

use arrayvec::ArrayString;
use protocol::Refusal;
use setup_file::{MESSAGE_MAX, SetupFileError};
use std::alloc::AllocError;
use std::error::Error;
use std::fmt;

/// Why a day has no report.
#[derive(Clone, Copy, PartialEq, Eq, Debug)]
pub enum DayError {
    // Nothing is refused, but memory is wanting.
    OutOfMemory,
    // A store, the order or the set-up cannot be made; nothing was run.
    Refused(Refusal),
}

/// Why nothing is printed of a day.
#[derive(Clone, Copy, PartialEq, Eq, Debug)]
pub enum DepotError {
    // The file is read and nothing is refused, but memory is wanting.
    OutOfMemory,
    // The set-up file was not read.
    SetupFile(SetupFileError),
}

impl From<AllocError> for DayError {
    ghost from_gives = { λ _ r. r ≡ OutOfMemory };

    fn from(_error: AllocError) -> DayError {
        DayError::OutOfMemory
    }
}

impl From<Refusal> for DayError {
    ghost from_gives = { λ refusal r. r ≡ Refused refusal };

    fn from(refusal: Refusal) -> DayError {
        DayError::Refused(refusal)
    }
}

impl From<SetupFileError> for DepotError {
    ghost use Rattle.depot_day.specs.declared.error.DepotError.TheVariants.{SetupFile};

    ghost from_gives = { λ error r. r ≡ SetupFile error };

    fn from(error: SetupFileError) -> DepotError {
        DepotError::SetupFile(error)
    }
}

impl DepotError {
    /// What to tell the user.
    pub fn message(self) -> ArrayString<MESSAGE_MAX>
        ensures { result.bytes ≡ message self }
    {
        match self {
            DepotError::OutOfMemory => {
                let mut message = ArrayString::new();
                message.push_str("there is not enough memory for the day");
                message
            }
            DepotError::SetupFile(error) => error.message(),
        }
    }
}

/// Writes the message.
impl fmt::Display for DepotError {
    ghost output = { λ error. Some (message error) };

    fn fmt<W: fmt::Write>(&self, f: &mut fmt::Formatter<W>) -> fmt::Result {
        f.write_str(self.message().as_str())
    }
}

impl Error for DepotError {}
