// A tape run as a day on the stores and the order of a set-up file, and the numbers that the stores hold in the evening.
#![tactic(auto)]

mod error;
mod making;
mod outline;
mod printed;
mod report;
mod run;

pub use error::{DayError, DepotError};
pub use printed::{LINE_MAX, Printed};
pub use report::report_day;
pub use run::run_depot;
