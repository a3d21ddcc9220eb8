// Stores and orders whose make is chosen while a program runs.
#![tactic(auto)]

mod order;
mod store;

pub use order::AnyOrder;
pub use store::AnyStore;
