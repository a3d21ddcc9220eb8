// Lines that are written behind those that stand at a buffer's front, which has room for them.
ghost use Rattle.std.specs.Prelude.{◌≡◌, ◌+◌, ◌≤◌, ◌++◌, length, take, drop};
ghost use Rattle.records.specs.Faults.{values_line};
ghost use Rattle.lines.specs.Lines.{answer_line};

use lines::{write_answer_line, write_fault_line};
use protocol::Answer;
use records::FaultValues;

// Where the line ends.
pub(crate) fn push_answer(answer: Answer, buffer: &mut [u8], end: usize) -> usize
    requires { end + 14 ≤ length buffer.old }
    ensures ends { result ≡ end + length (answer_line answer) }
    ensures short { result ≤ end + 14 }
    ensures written { buffer.new ≡ take end buffer.old ++ answer_line answer ++ drop result buffer.old }
{
    match write_answer_line(answer, &mut buffer[end..]) {
        Ok(length) => end + length,
        Err(_) => unreachable(),
    }
}

pub(crate) fn push_fault(values: FaultValues, buffer: &mut [u8], end: usize) -> usize
    requires { end + 28 ≤ length buffer.old }
    ensures ends { result ≡ end + length (values_line values) }
    ensures short { result ≤ end + 28 }
    ensures written { buffer.new ≡ take end buffer.old ++ values_line values ++ drop result buffer.old }
{
    match write_fault_line(values, &mut buffer[end..]) {
        Ok(length) => end + length,
        Err(_) => unreachable(),
    }
}
