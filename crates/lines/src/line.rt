// Lines written to the front of the caller's buffer.
ghost use Rattle.std.specs.Prelude.{◌≡◌, ◌+◌, ◌≤◌, [], ◌∷◌, length, IsOk};
ghost use Rattle.protocol.specs.Refusals.{outcome};
ghost use Rattle.records.specs.Buffers.{put_answer, put_front};
ghost use Rattle.records.specs.Faults.{values_line};
ghost use Rattle.lines.specs.Lines.{numbers_part, line, answer_line};

use crate::number::{digit_count, put_number};
use protocol::{Answer, Refusal};
use records::FaultValues;

// How long a line is: its letter, a space and the digits of each number, and its line feed.
fn line_len(numbers: &[u32]) -> usize
    requires { length numbers.now ≤ 3 }
    ensures { result ≡ 1 + length (numbers_part numbers.now) }
{
    let mut len = 2;
    for number in numbers {
        len += 1 + digit_count(*number);
    }
    len
}

// Writes a line to the front of the buffer, and answers its length. Its length is known first, and then it is written from its end, so that nothing is copied.
// Not through `Display`: its contract promises the text only where it does not fail, and never that it does not, while a line always has its text.
// Inlined, since at each call the numbers are of a known count, and mostly short.
#[inline(always)]
fn write_line(letter: u8, numbers: &[u32], buffer: &mut [u8]) -> Result<usize, Refusal>
    requires { length numbers.now ≤ 3 }
    ensures answer { outcome result ≡ put_answer (line (letter ∷ []) numbers.now) buffer.old }
    ensures after { buffer.new ≡ put_front (line (letter ∷ []) numbers.now) buffer.old }
{
    let len = line_len(numbers);
    if len > buffer.len() {
        return Err(Refusal::ExceedsBuffer);
    }
    let mut start = len - 1;
    buffer[start] = b'\n';
    for number in numbers.iter().rev() {
        start = put_number(*number, buffer, start);
    }
    buffer[0] = letter;
    Ok(len)
}

// How long the line of an answer is.
pub(crate) fn answer_len(answer: Answer) -> usize
    ensures { result ≡ length (answer_line answer) }
{
    match answer {
        Answer::Granted(number) => line_len(&[number]),
        Answer::Refused(refusal) => line_len(&[u32::from(refusal.number())]),
        Answer::Wait(transaction) => line_len(&[u32::from(transaction)]),
        Answer::Aborted { by, policy } => line_len(&[u32::from(by), u32::from(policy)]),
    }
}

/// Writes the line of an answer, at most 14 bytes, to the front of the buffer, and answers its length.
/// Where it exceeds the buffer, it is refused, and nothing is written.
pub fn write_answer_line(answer: Answer, buffer: &mut [u8]) -> Result<usize, Refusal>
    ensures answer { outcome result ≡ put_answer (answer_line answer) buffer.old }
    ensures after { buffer.new ≡ put_front (answer_line answer) buffer.old }
    ensures short { length (answer_line answer) ≤ 14 }
    ensures fits { 14 ≤ length buffer.old → IsOk result }
{
    match answer {
        Answer::Granted(number) => write_line(b'G', &[number], buffer),
        Answer::Refused(refusal) => write_line(b'R', &[u32::from(refusal.number())], buffer),
        Answer::Wait(transaction) => write_line(b'W', &[u32::from(transaction)], buffer),
        Answer::Aborted { by, policy } => write_line(
            b'S',
            &[u32::from(by), u32::from(policy)],
            buffer,
        ),
    }
}

/// Writes the line of a tape's fault, at most 28 bytes, to the front of the buffer, and answers its length.
/// Where it exceeds the buffer, it is refused, and nothing is written.
// A call of its own, since one for both would make public what a line is made from.
pub fn write_fault_line(values: FaultValues, buffer: &mut [u8]) -> Result<usize, Refusal>
    ensures answer { outcome result ≡ put_answer (values_line values) buffer.old }
    ensures after { buffer.new ≡ put_front (values_line values) buffer.old }
    ensures short { length (values_line values) ≤ 28 }
    ensures fits { 28 ≤ length buffer.old → IsOk result }
{
    let FaultValues {
        fault,
        number,
        start,
    } = values;
    write_line(b'F', &[u32::from(fault), number, start], buffer)
}
