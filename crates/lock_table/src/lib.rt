// The locks of a day: who holds which lock on which cell and policy, and whether one more is granted.
#![tactic(auto)]

mod every_row;
mod lock_list;
mod lock_table;
mod not_granted;
mod rows;

pub use lock_table::LockTable;
pub use not_granted::NotGranted;
