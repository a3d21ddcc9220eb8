//! A tape of records, run as a day on an engine, with a line for each answer.
#![tactic(auto)]

mod four_cells;
mod pushing;
mod run;

pub use four_cells::{ROOM, lines_of_tape};
pub use run::run_tape;
