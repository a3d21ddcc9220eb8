// Reads the text of a set-up file.
#![tactic(auto)]

mod draft;
mod error;
mod item;
mod keywords;
mod number;
mod outline;
mod read;
mod seen;
mod setup;
mod words;

pub use error::{MESSAGE_MAX, Problem, SetupFileError};
pub use outline::{FewPolicies, NUMBERS_MAX, Outline, POLICIES_MAX, StoreOutline};
pub use read::{outline_of, read_setup_file};
pub use setup::{Make, OrderLine, SetupFile, StoreLine};
