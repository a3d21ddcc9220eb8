// Why a set-up file was not read.
ghost use Rattle.std.specs.Prelude.{◌≡◌, Some};
ghost use Rattle.setup_file.specs.Messages.{problem_words, message};
ghost use Rattle.setup_file.specs.SetupFiles.{error_at};
ghost use Rattle.setup_file.specs.declared.error.LineError.TheVariants.{NoMemory, AtLine};
ghost use Rattle.setup_file.specs.declared.error.SetupFileError.TheVariants.{OutOfMemory};

use arrayvec::ArrayString;
use itoa::Buffer;
use std::alloc::AllocError;
use std::error::Error;
use std::fmt;

/// How many bytes a message has at most, with any number of a line.
pub const MESSAGE_MAX: usize = 160;

/// What is wrong with a line, or missing behind the last one.
#[derive(Clone, Copy, PartialEq, Eq, Debug)]
pub enum Problem {
    // The first word of the line begins no item.
    NoItem,
    BadOrder,
    BadStore,
    BadPolicy,
    // A second order, or cells or rights.
    Repeated,
    NoOrder,
    NoCells,
    NoRights,
}

/// Why a set-up file was not read.
#[derive(Clone, Copy, PartialEq, Eq, Debug)]
pub enum SetupFileError {
    OutOfMemory,
    // Lines are numbered from 1.
    Unreadable { line: usize, problem: Problem },
}

// Why a line was not read.
#[derive(Clone, Copy)]
pub(crate) enum LineError {
    NoMemory(AllocError),
    AtLine(Problem),
}

impl LineError {
    // With the number of the line.
    pub(crate) fn at(self, line: usize) -> SetupFileError
        ensures { result ≡ error_at line self }
    {
        match self {
            LineError::NoMemory(error) => SetupFileError::from(error),
            LineError::AtLine(problem) => SetupFileError::Unreadable { line, problem },
        }
    }
}

impl From<AllocError> for SetupFileError {
    ghost from_gives = { λ _ r. r ≡ OutOfMemory };

    fn from(_error: AllocError) -> SetupFileError {
        SetupFileError::OutOfMemory
    }
}

impl From<AllocError> for LineError {
    ghost from_gives = { λ error r. r ≡ NoMemory error };

    fn from(error: AllocError) -> LineError {
        LineError::NoMemory(error)
    }
}

impl From<Problem> for LineError {
    ghost from_gives = { λ problem r. r ≡ AtLine problem };

    fn from(problem: Problem) -> LineError {
        LineError::AtLine(problem)
    }
}

impl Problem {
    /// What is wrong with the line, or missing, and the right form.
    pub fn message(self) -> &'static str
        ensures { result.now ≡ problem_words self }
    {
        match self {
            Problem::NoItem => "a line begins with `order`, `cells`, `rights` or `policy`",
            Problem::BadOrder =>
                "an order is `order vector` or `order ladder READ WRITE RESTRICT`, with numbers up to 4294967295",
            Problem::BadStore =>
                "a store is `slice NUMBER ..`, `table NUMBER ..` or `log PLACES NUMBER ..`, with places up to 65535 and numbers up to 4294967295",
            Problem::BadPolicy =>
                "a policy is `policy SUBJECT cell NUMBER` or `policy SUBJECT policy NUMBER`, with numbers up to 65535",
            Problem::Repeated => "`order`, `cells` and `rights` each stand on one line only",
            Problem::NoOrder =>
                "the order is missing: `order vector` or `order ladder READ WRITE RESTRICT`",
            Problem::NoCells =>
                "the cells are missing: `cells slice NUMBER ..`, `cells table NUMBER ..` or `cells log PLACES NUMBER ..`",
            Problem::NoRights =>
                "the rights are missing: `rights slice NUMBER ..`, `rights table NUMBER ..` or `rights log PLACES NUMBER ..`",
        }
    }
}

/// Writes the message.
impl fmt::Display for Problem {
    ghost output = { λ problem. Some (problem_words problem) };

    fn fmt<W: fmt::Write>(&self, f: &mut fmt::Formatter<W>) -> fmt::Result {
        f.write_str(self.message())
    }
}

impl SetupFileError {
    /// What to tell the user, with the number of the line.
    pub fn message(self) -> ArrayString<MESSAGE_MAX>
        ensures { result.bytes ≡ message self }
    {
        let mut message = ArrayString::new();
        match self {
            SetupFileError::OutOfMemory => message.push_str(
                "there is not enough memory for the set-up file",
            ),
            SetupFileError::Unreadable { line, problem } => {
                message.push_str("line ");
                message.push_str(Buffer::new().format(line));
                message.push_str(": ");
                message.push_str(problem.message());
            }
        }
        message
    }
}

/// Writes the message.
impl fmt::Display for SetupFileError {
    ghost output = { λ error. Some (message error) };

    fn fmt<W: fmt::Write>(&self, f: &mut fmt::Formatter<W>) -> fmt::Result {
        f.write_str(self.message().as_str())
    }
}

impl Error for SetupFileError {}
