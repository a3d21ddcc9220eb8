// Tests of the crates below, with values worked out by hand.
#![tactic(auto)]

#[cfg(test)]
mod check;
#[cfg(test)]
mod line_tests;
#[cfg(test)]
mod lock_tests;
#[cfg(test)]
mod log_store_tests;
#[cfg(test)]
mod record_tests;
#[cfg(test)]
mod refusal_tests;
#[cfg(test)]
mod rights_tests;
#[cfg(test)]
mod setup_file_tests;
#[cfg(test)]
mod setup_tests;
#[cfg(test)]
mod store_tests;
#[cfg(test)]
mod tape_tests;
#[cfg(test)]
mod workspace_tests;
