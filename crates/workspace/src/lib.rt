// The changes of an open transaction, kept apart until its commit.
#![tactic(auto)]

mod search;
mod workspace;

pub use workspace::Workspace;
