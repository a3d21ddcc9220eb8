// The engine of a day: transactions on two lent stores, under an order of rights and a list of policies.
#![tactic(auto)]

mod action;
mod apply;
mod denial;
mod engine;
mod tables;

pub use engine::Engine;
