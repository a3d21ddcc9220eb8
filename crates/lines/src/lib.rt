// Answers and faults as lines of text, in the caller's bytes.
#![tactic(auto)]

mod line;
mod lines;
mod number;

pub use line::{write_answer_line, write_fault_line};
pub use lines::write_lines;
