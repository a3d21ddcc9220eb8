// Orders of rights: which codes are rights, what two rights join to, and what a right permits.
#![tactic(auto)]

mod change;
mod ladder;
mod order;
mod vector;

pub use change::{ChangeKind, change_of};
pub use ladder::LadderOrder;
pub use order::{Operation, RightsOrder};
pub use vector::VectorOrder;
