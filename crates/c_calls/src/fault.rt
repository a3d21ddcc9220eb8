// What is wrong with a tape.
ghost use Rattle.std.specs.Prelude.{◌≡◌};
ghost use Rattle.c_calls.specs.Faults.{TellsTape};

use records::{FaultValues, tape_fault};

const NO_FAULT: FaultValues = FaultValues {
    fault: 0,
    number: 0,
    start: 0,
};

// The tape's first fault, in numbers.
pub(crate) fn fault_of(tape: &[u8]) -> FaultValues
    ensures { TellsTape tape.now result }
{
    tape_fault(tape).map(FaultValues::from).unwrap_or(NO_FAULT)
}
