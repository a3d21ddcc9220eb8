// Tests of the engine and of its days, with answers worked out by hand from the rules.
#![tactic(auto)]

#[cfg(test)]
mod check;
#[cfg(test)]
mod day_tests;
#[cfg(test)]
mod depot_tests;
#[cfg(test)]
mod limit_tests;
#[cfg(test)]
mod lock_tests;
#[cfg(test)]
mod right_tests;
#[cfg(test)]
mod steps;
#[cfg(test)]
mod store_tests;
#[cfg(test)]
mod struck_tests;
#[cfg(test)]
mod tape_tests;
