// The records in which requests travel, and tapes of them.
#![tactic(auto)]

mod fault;
mod field;
mod reader;
mod record;
mod tag;
mod tape;

pub use fault::{FaultValues, FieldFault, Placed, RecordFault, TapeFault};
pub use reader::TapeReader;
pub use record::{read_record, record_len, write_record};
pub use tape::{Tape, read_tape, tape_fault};
