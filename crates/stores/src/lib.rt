// Stores: numbers by position, behind one meaning.
#![tactic(auto)]

mod numbers;
mod slice;
mod store;
mod table;

pub use slice::SliceStore;
pub use store::Store;
pub use table::TableStore;
