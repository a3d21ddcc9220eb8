// A store on lent bytes: base numbers, and a log of the writes since.
//
// First come `count` base numbers of 4 bytes, then places of 9 bytes. A used place is one tagged field: tag 0x43, length 6 in two bytes, a position in two, a value
// in four. Every number has its high byte first. The log ends at the first place whose tag is 0, or where fewer than 9 bytes are left. The number at a position is
// the value of its last field in the log, else its base number.
#![tactic(auto)]

mod bytes;
mod held;
mod log;
mod store;
mod writes;

pub use held::LogStore;
