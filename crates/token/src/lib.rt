// A transaction by token: a program that opens one cannot forget to end it, nor end it twice.
#![tactic(auto)]

mod adding;
mod token;

pub use adding::add_to_cell;
pub use token::Token;
