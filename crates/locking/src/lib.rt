// Locks: which modes exclude which, and who holds what on a cell or a policy.
#![tactic(auto)]

mod cell;
mod examples;
mod holder;
mod locks;
mod mode;
mod policy;
mod row;
mod slot;
mod slot_set;

pub use cell::{CellLocks, CellRow};
pub use examples::examples_stand;
pub use locks::{Blocked, Granted, Locks};
pub use mode::{CellMode, Lock, LockAnswer, PolicyMode};
pub use policy::{PolicyLocks, PolicyRow};
pub use row::LockRow;
pub use slot::SlotIndex;
pub use slot_set::SlotSet;
