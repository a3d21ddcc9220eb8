// From the bytes of a set-up file and of a tape to what is printed.
ghost use Rattle.depot_day.specs.Runs.{RunsDepot};

use crate::error::{DayError, DepotError};
use crate::outline::check_outline;
use crate::printed::{Printed, refusal_line};
use crate::report::report_day;
use setup_file::{outline_of, read_setup_file};
use std::alloc::Global;

/// Runs the tape on the set-up of the file: the report of the day, or the line of what is refused while the order, the stores or the set-up are made.
///
/// Fails where the file's text cannot be read, and where memory is wanting. Memory is taken only where nothing is refused.
pub fn run_depot(heap: Global, setup: &[u8], tape: &[u8]) -> Result<Printed, DepotError>
    ensures { RunsDepot setup.now tape.now result }
{
    let outline = outline_of(setup)?;
    if let Err(refusal) = check_outline(outline) {
        return Ok(Printed::Refusal(refusal_line(refusal)));
    }
    let file = read_setup_file(heap, setup)?;
    match report_day(heap, file, tape) {
        Ok(report) => Ok(Printed::Report(report)),
        // The outline would have been refused too.
        Err(DayError::Refused(_)) => unreachable(),
        Err(DayError::OutOfMemory) => Err(DepotError::OutOfMemory),
    }
}
