// What a C program can ask of the engine, as functions of numbers, slices and policies in three numbers. The static library `setxulda` exports each to C.
#![tactic(auto)]

mod calls;
mod check;
mod fault;
mod number;
mod policy;
mod run;

pub use calls::{check_log, check_setup, check_tape, read_log, run_tape, run_tape_on_logs};
pub use policy::PolicyEntry;
