// The theorem about a whole day of the engine: whatever is asked, the committed transactions stand as though they had run one after
// another, and a restriction binds from its grant.
#![tactic(auto)]

ghost use Rattle.serial.specs.Day.{DayIsSerial};
ghost use Rattle.serial.specs.OneDay.{EveryDayIsDone, DayIsWritten};

pub fn day_is_serial()
    ensures { DayIsSerial }
{}

// The same of one worked day, by the lists before, the requests, their answers and the lists after.
pub fn worked_day_is_serial()
    ensures { EveryDayIsDone }
{}

// What such a day writes, in its order.
pub fn worked_day_is_written()
    ensures { DayIsWritten }
{}
