// The slots of transactions, in fixed memory. Who holds which lock is kept elsewhere.
#![tactic(auto)]

mod counts;
mod found;
mod scan;
mod slot;
mod slot_table;

pub use counts::Counts;
pub use found::Found;
pub use slot::{OpenSlot, Slot, Transaction};
pub use slot_table::SlotTable;
