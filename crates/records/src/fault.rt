// What is wrong with bytes that should be a tape of records: a field's fault into a record's into a tape's.
ghost use Rattle.std.specs.Prelude.{◌≡◌, Some};
ghost use Rattle.records.specs.Faults.{record_number, fault_values, values_words};
ghost use Rattle.records.specs.declared.fault.RecordFault.TheVariants.{Field, WrongLength};
ghost use Rattle.records.specs.declared.fault.TapeFault.TheVariants.{Record};

use arrayvec::ArrayString;
use protocol::decimal_text;
use std::array::TryFromSliceError;
use std::fmt;

// Room for the words of any fault: a letter, three spaces, and three numbers of at most ten digits.
const WORDS: usize = 34;

/// Why bytes are no field.
#[derive(Clone, Copy, PartialEq, Eq, Debug)]
pub enum FieldFault {
    /// Fewer than three bytes are left, or less content than the length says.
    Cut,
}

/// Why bytes are no record of a request.
#[derive(Clone, Copy, PartialEq, Eq, Debug)]
pub enum RecordFault {
    Field(FieldFault),
    UnknownTag,
    /// The length is not the tag's.
    WrongLength,
}

/// A record's fault, with the record's number on its tape from 1 and its first byte from 0.
#[derive(Clone, Copy, PartialEq, Eq, Debug)]
pub struct Placed {
    pub fault: RecordFault,
    pub number: u32,
    pub start: u32,
}

/// Why bytes are no tape, or where they stop to be one.
#[derive(Clone, Copy, PartialEq, Eq, Debug)]
pub enum TapeFault {
    /// More than 60,000 bytes.
    TooLong,
    Record(Placed),
}

/// A fault in numbers, as a line prints it, where `Placed` has the fault itself: of a tape that is too long both places are 0.
#[derive(Clone, Copy, PartialEq, Eq, Debug)]
pub struct FaultValues {
    pub fault: u8,
    pub number: u32,
    pub start: u32,
}

impl RecordFault {
    /// The fault's number, 9 to 11.
    // By a match, since a case with a value in it takes no number of its own.
    pub fn number(self) -> u8
        ensures { result ≡ record_number self }
    {
        match self {
            RecordFault::Field(FieldFault::Cut) => 9,
            RecordFault::UnknownTag => 10,
            RecordFault::WrongLength => 11,
        }
    }
}

impl From<FieldFault> for RecordFault {
    ghost from_gives = { λ f r. r ≡ Field f };

    fn from(fault: FieldFault) -> RecordFault {
        RecordFault::Field(fault)
    }
}

// A content of another length than the tag's.
impl From<TryFromSliceError> for RecordFault {
    ghost from_gives = { λ _ r. r ≡ WrongLength };

    fn from(_error: TryFromSliceError) -> RecordFault {
        RecordFault::WrongLength
    }
}

impl From<Placed> for TapeFault {
    ghost from_gives = { λ p r. r ≡ Record p };

    fn from(placed: Placed) -> TapeFault {
        TapeFault::Record(placed)
    }
}

impl From<TapeFault> for FaultValues {
    ghost from_gives = { λ fault values. values ≡ fault_values fault };

    fn from(fault: TapeFault) -> FaultValues {
        match fault {
            TapeFault::TooLong => FaultValues {
                fault: 13,
                number: 0,
                start: 0,
            },
            TapeFault::Record(
                Placed {
                    fault,
                    number,
                    start,
                },
            ) => FaultValues {
                fault: fault.number(),
                number,
                start,
            },
        }
    }
}

impl FaultValues {
    /// The fault in words, as `F 9 3 14`.
    pub fn words(self) -> ArrayString<WORDS>
        ensures { result.bytes ≡ values_words self }
    {
        let mut words = ArrayString::new();
        words.push_str("F ");
        words.push_str(decimal_text(u32::from(self.fault)).as_str());
        words.push_str(" ");
        words.push_str(decimal_text(self.number).as_str());
        words.push_str(" ");
        words.push_str(decimal_text(self.start).as_str());
        words
    }
}

impl fmt::Display for FaultValues {
    ghost output = { λ values. Some (values_words values) };

    fn fmt<W: fmt::Write>(&self, f: &mut fmt::Formatter<W>) -> fmt::Result {
        f.write_str(self.words().as_str())
    }
}
